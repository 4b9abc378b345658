ghost use Rattle.std.specs.Prelude.{◌≡◌, ◌≤◌, length, true};
ghost use Rattle.label_base.specs.Answers.{Answers, fault_cause};
ghost use Rattle.file_paths.specs.Path.{path_or};
ghost use Rattle.setfattr_dump.specs.Reading.{attr_read, has_slash, line_read, name_read};
ghost use Rattle.setfattr_dump.specs.Reading.{with_slash, value_then};
ghost use Rattle.setfattr_dump.specs.Texts.{is_file_line};
ghost use Rattle.setfattr_dump.specs.Values.{value_or_bad, value_read};

use crate::dump::Attr;
use crate::fault::DumpWhy;
use crate::marks::{BACKSLASH, EQUALS, FILE_MARK};
use crate::value::read_value;
use file_paths::{NormPath, SLASH};
use label_base::{Bytes, EscapeFault, Fault, cut_at, read_escaped};
use std::alloc::Global;

// What a line says: an empty one ends a section, another names a file or gives an attribute.
#[derive(Drop)]
pub enum Said {
    Ends,
    Names(NormPath),
    Gives(Attr),
}

fn has_slash(bytes: &[u8]) -> bool
    ensures { result ≡ has_slash bytes.now }
{
    match bytes {
        [first, ..] => *first == SLASH,
        [] => false,
    }
}

// The path that the bytes spell, with a slash before them if they have none.
fn read_slashed(alloc: Global, bytes: &[u8]) -> Result<NormPath, Fault<DumpWhy>>
    ensures { Answers (λ path. path) fault_cause result
        (path_or DumpWhy.BadName (with_slash bytes.now)) }
{
    if has_slash(bytes) {
        return NormPath::read_or(alloc, bytes, DumpWhy::BadName);
    }
    let mut slashed = Bytes::new(alloc);
    slashed.push_byte(SLASH)?;
    slashed.push(bytes)?;
    NormPath::read_or(alloc, slashed.as_slice(), DumpWhy::BadName)
}

// The path that a name with escapes spells.
fn read_escaped_name(alloc: Global, name: &[u8]) -> Result<NormPath, Fault<DumpWhy>>
    ensures { Answers (λ path. path) fault_cause result (name_read name.now) }
{
    match read_escaped(alloc, name) {
        Ok(bytes) => read_slashed(alloc, bytes.as_slice()),
        Err(EscapeFault::BadEscape) => Err(Fault::Why(DumpWhy::BadName)),
        Err(EscapeFault::OutOfMemory) => Err(Fault::OutOfMemory),
    }
}

// The path that a name spells. A name without escapes isn't copied first.
fn read_name(alloc: Global, name: &[u8]) -> Result<NormPath, Fault<DumpWhy>>
    ensures { Answers (λ path. path) fault_cause result (name_read name.now) }
{
    let (plain, escapes) = cut_at(BACKSLASH, name);
    match escapes {
        None => read_slashed(alloc, plain),
        Some(_) => read_escaped_name(alloc, name),
    }
}

fn made_attr(alloc: Global, key: &[u8], given: &[u8]) -> Result<Attr, Fault<DumpWhy>>
    ensures { Answers (λ attr. attr) fault_cause result
        (value_then key.now (value_or_bad (value_read given.now))) }
{
    let value = read_value(alloc, given)?;
    let key = Bytes::copy_of(alloc, key)?;
    Ok(Attr { key, value })
}

// The attribute that a line gives.
#[tactic(auto, unfolding(crate::specs::Reading::attr_read))]
fn read_attr(alloc: Global, line: &[u8]) -> Result<Attr, Fault<DumpWhy>>
    ensures { Answers (λ attr. attr) fault_cause result (attr_read line.now) }
{
    let (key, given) = cut_at(EQUALS, line);
    let Some(given) = given else {
        return Err(Fault::Why(DumpWhy::NoValue));
    };
    if key.is_empty() {
        return Err(Fault::Why(DumpWhy::NoValue));
    }
    made_attr(alloc, key, given)
}

#[tactic(auto, unfolding(crate::specs::Texts::is_file_line))]
fn is_marked(line: &[u8]) -> bool
    ensures value { result ≡ is_file_line line.now }
    ensures bound { result ≡ true → length FILE_MARK.now ≤ length line.now }
{
    line.starts_with(FILE_MARK)
}

// What a line says where a section is open, or none is.
#[tactic(auto, unfolding(crate::specs::Reading::line_read))]
pub fn read_line(alloc: Global, is_open: bool, line: &[u8]) -> Result<Said, Fault<DumpWhy>>
    ensures { Answers (λ said. said) fault_cause result (line_read is_open line.now) }
{
    if line.is_empty() {
        return Ok(Said::Ends);
    }
    if is_marked(line) {
        return Ok(Said::Names(read_name(alloc, &line[FILE_MARK.len()..])?));
    }
    if !is_open {
        return Err(Fault::Why(DumpWhy::NoSection));
    }
    Ok(Said::Gives(read_attr(alloc, line)?))
}
