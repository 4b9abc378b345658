ghost use Rattle.std.specs.Prelude.{◌≡◌, ◌<◌, ◌-◌, ◌^◌, OnErr, Some, length};
ghost use Rattle.std.specs.Option.{option_copied};
ghost use Rattle.label_base.specs.Answers.{Answers, fault_cause};
ghost use Rattle.context_syntax.specs.Label.{label_of};
ghost use Rattle.find_records.specs.Grammar.{kind_of, links_of, path_field, record_from, record_of};
ghost use Rattle.find_records.specs.Grammar.{with_links, with_path, with_rest};
ghost use Rattle.find_records.specs.Reading.{with_one};
ghost use Rattle.find_records.specs.declared.format.Format.TheVariants.{Two};

use crate::entry::RawRecord;
use crate::fault::RecordWhy;
use crate::format::Format;
use crate::records::Records;
use label_base::{EntryKind, Fault, cut_at, read_number};
use std::alloc::Global;

// Parts the fields of a record.
const SPACE: u8 = b' ';

// The fields that each record has in front.
#[derive(Clone, Copy)]
struct Front<'a> {
    letter: &'a [u8],
    device: &'a [u8],
    inode: &'a [u8],
}

// All fields of a record.
#[derive(Clone, Copy)]
struct Fields<'a> {
    front: Front<'a>,
    // Where the format has it.
    links: Option<&'a [u8]>,
    label: &'a [u8],
    path: &'a [u8],
}

fn read_kind(field: &[u8]) -> Option<EntryKind>
    ensures { result ≡ kind_of field.now }
{
    match field {
        [letter] => EntryKind::of_letter(*letter),
        _ => None,
    }
}

// The link count, if the field is one; none is told where there is no field.
fn read_links(field: Option<&[u8]>) -> Option<Option<u64>>
    ensures { result ≡ links_of (option_copied field.entry) }
{
    match field {
        Some(field) => Some(Some(read_number(field)?)),
        None => Some(None),
    }
}

fn add_raw(
    alloc: Global,
    records: &mut Records,
    raw: &RawRecord<'_>,
) -> Result<(), Fault<RecordWhy>>
    requires { length records.old < 2 ^ 32 - 1 }
    ensures answer { Answers (λ _. records.new) fault_cause result (with_one records.old
        (record_from (Some raw.now.kind) (Some raw.now.device) (Some raw.now.inode)
        (Some raw.now.links) (label_of raw.now.label.now) (path_field raw.now.path.now))) }
    ensures same { OnErr result (records.new ≡ records.old) }
{
    match records.push(alloc, raw) {
        Ok(()) => Ok(()),
        Err(Fault::Why(why)) => Err(Fault::Why(RecordWhy::BadPath(why))),
        Err(Fault::OutOfMemory) => Err(Fault::OutOfMemory),
    }
}

// Adds the record of its fields.
fn add_fields(
    alloc: Global,
    records: &mut Records,
    fields: &Fields<'_>,
) -> Result<(), Fault<RecordWhy>>
    requires { length records.old < 2 ^ 32 - 1 }
    ensures answer { Answers (λ _. records.new) fault_cause result (with_one records.old
        (with_path fields.now.front.letter.now fields.now.front.device.now
        fields.now.front.inode.now (option_copied fields.now.links)
        fields.now.label.now fields.now.path.now)) }
    ensures same { OnErr result (records.new ≡ records.old) }
{
    let front = fields.front;
    let Some(kind) = read_kind(front.letter) else {
        return Err(Fault::Why(RecordWhy::BadType));
    };
    let Some(device) = read_number(front.device) else {
        return Err(Fault::Why(RecordWhy::BadNumber));
    };
    let Some(inode) = read_number(front.inode) else {
        return Err(Fault::Why(RecordWhy::BadNumber));
    };
    let Some(links) = read_links(fields.links) else {
        return Err(Fault::Why(RecordWhy::BadNumber));
    };
    let raw = RawRecord {
        kind,
        device,
        inode,
        links,
        label: fields.label,
        path: fields.path,
    };
    add_raw(alloc, records, &raw)
}

// Adds the record whose label and path these are.
fn add_labelled(
    alloc: Global,
    records: &mut Records,
    front: &Front<'_>,
    links: Option<&[u8]>,
    rest: &[u8],
) -> Result<(), Fault<RecordWhy>>
    requires { length records.old < 2 ^ 32 - 1 }
    ensures answer { Answers (λ _. records.new) fault_cause result (with_one records.old
        (with_links front.now.letter.now front.now.device.now front.now.inode.now
        (option_copied links.entry) rest.now)) }
    ensures same { OnErr result (records.new ≡ records.old) }
{
    let (label, path) = cut_at(SPACE, rest);
    let Some(path) = path else {
        return Err(Fault::Why(RecordWhy::MissingField));
    };
    let fields = Fields {
        front: *front,
        links,
        label,
        path,
    };
    add_fields(alloc, records, &fields)
}

// Adds the record whose link count, label and path these are.
fn add_counted(
    alloc: Global,
    records: &mut Records,
    front: &Front<'_>,
    rest: &[u8],
) -> Result<(), Fault<RecordWhy>>
    requires { length records.old < 2 ^ 32 - 1 }
    ensures answer { Answers (λ _. records.new) fault_cause result (with_one records.old
        (with_rest Two front.now.letter.now front.now.device.now front.now.inode.now rest.now)) }
    ensures same { OnErr result (records.new ≡ records.old) }
{
    let (links, rest) = cut_at(SPACE, rest);
    let Some(rest) = rest else {
        return Err(Fault::Why(RecordWhy::MissingField));
    };
    add_labelled(alloc, records, front, Some(links), rest)
}

// Adds the record whose fields behind the inode these are.
fn add_rest(
    alloc: Global,
    records: &mut Records,
    format: Format,
    front: &Front<'_>,
    rest: &[u8],
) -> Result<(), Fault<RecordWhy>>
    requires { length records.old < 2 ^ 32 - 1 }
    ensures answer { Answers (λ _. records.new) fault_cause result (with_one records.old
        (with_rest format front.now.letter.now front.now.device.now front.now.inode.now rest.now)) }
    ensures same { OnErr result (records.new ≡ records.old) }
{
    match format {
        Format::One => add_labelled(alloc, records, front, None, rest),
        Format::Two => add_counted(alloc, records, front, rest),
    }
}

// Reads one record, without its NUL, and adds it to the others.
#[tactic(auto, unfolding(crate::specs::Grammar::record_of))]
pub fn add_record(
    alloc: Global,
    records: &mut Records,
    format: Format,
    bytes: &[u8],
) -> Result<(), Fault<RecordWhy>>
    requires { length records.old < 2 ^ 32 - 1 }
    ensures answer { Answers (λ _. records.new) fault_cause result
        (with_one records.old (record_of format bytes.now)) }
    ensures same { OnErr result (records.new ≡ records.old) }
{
    let (letter, rest) = cut_at(SPACE, bytes);
    let Some(rest) = rest else {
        return Err(Fault::Why(RecordWhy::MissingField));
    };
    let (device, rest) = cut_at(SPACE, rest);
    let Some(rest) = rest else {
        return Err(Fault::Why(RecordWhy::MissingField));
    };
    let (inode, rest) = cut_at(SPACE, rest);
    let Some(rest) = rest else {
        return Err(Fault::Why(RecordWhy::MissingField));
    };
    let front = Front {
        letter,
        device,
        inode,
    };
    add_rest(alloc, records, format, &front, rest)
}
