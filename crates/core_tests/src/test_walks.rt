ghost use Rattle.find_records.specs.Record.{AreOfFormat};
ghost use Rattle.relabel_core.specs.Walked.{IsFit};
ghost use Rattle.std.specs.Prelude.{◌≡◌, ◌<◌, IfOk};

use context_syntax::read_customizable;
use file_paths::NormPath;
use file_roles::Part;
use find_records::{Format, RecordLimits, read_records};
use input_output::MemSource;
use label_base::{Bytes, OutOfMemory, Row, Steps};
use label_rules::{LabelAfter, Rules};
use path_subs::{SubList, Subs, read_subs};
use relabel_core::{
    DigestAfter, Noted, Options, Stored, WalkInput, Walked, next_digests, next_labels, walk,
    walk_input,
};
use setfattr_dump::Dump;
use spec_match::RuleSet;
use spec_reader::read_specs;
use std::alloc::Global;
use std::marker::Brand;
use std::sync::ledger::{Blank, Ledger};
use std::test::Fail;
use tree_model::{Choice, Tree};

// The walks of the tests. Each helper has one value with a buffer and one `?`, since what has
// several takes long to prove.

// What a test walks over, and by what.
#[derive(Clone, Copy)]
pub struct Given<'a> {
    pub specs: &'a [u8],
    pub records: &'a [u8],
    pub operands: (&'a [u8], &'a [u8]),
    pub excluded: Option<&'a [u8]>,
    // A dump of what is stored before.
    pub stored: &'a [u8],
    pub options: Options,
    // The entry of which all is asked.
    pub entry: u32,
}

// No option.
pub const PLAIN: Options = Options {
    force: false,
    dry: false,
    digests: false,
    ignore_digests: false,
    verbose: false,
    warn_unmatched: false,
    strict_links: false,
    ignore_absent: false,
    format: Format::One,
};

pub const NOTHING: Given<'static> = Given {
    specs: b"",
    records: b"",
    operands: (b"/", b"/"),
    excluded: None,
    stored: b"",
    options: PLAIN,
    entry: 0,
};

// What is shown of an entry.
#[derive(Clone, Copy, PartialEq, Eq)]
pub struct EntryShown {
    pub winner: Option<u32>,
    pub deciding: Option<u32>,
    pub wants: bool,
    pub given: bool,
    pub is_changed: bool,
    pub does_change: bool,
    pub has_message: bool,
    pub has_conflict: bool,
    pub is_walked: bool,
    pub is_skipped_first: bool,
}

// What becomes of the digest of an entry.
#[derive(Clone, Copy, PartialEq, Eq)]
pub enum Digest {
    Stays,
    Void,
    Anew,
}

// What a walk answers.
#[derive(Drop)]
pub struct Answered {
    // The report, and the dump behind it.
    pub text: Bytes,
    pub shown: Option<EntryShown>,
    pub digest: Option<(Digest, bool)>,
    // How many labels and digests the walk leaves.
    pub left: (usize, usize),
    pub errors: u32,
    // How many entries are decided to a context.
    pub wanted: u32,
    // What is noted of the first entry and group where 7 and 5 were put there.
    pub noted: (Option<u32>, Option<u32>),
}

const TYPES: &[u8] = b"public_content_t\n";

pub fn tree_of(alloc: Global, records: &[u8], format: Format) -> Result<Tree, Fail>
    ensures { IfOk result (λ tree. AreOfFormat format tree) }
{
    let mut source = MemSource::new(Bytes::copy_of(alloc, records)?, 100, Row::new(alloc));
    let limits = RecordLimits {
        records: 9,
        bytes: 999,
    };
    let read = read_records(alloc, &mut source, format, limits)?;
    Ok(Tree::new(alloc, read)?)
}

fn subs_of(alloc: Global) -> Result<Subs, Fail> {
    Ok(Subs {
        first: SubList::new(alloc, read_subs(alloc, b"/data /srv\n")?)?,
        second: SubList::new(alloc, Row::new(alloc))?,
    })
}

fn rule_set_of(alloc: Global, specs: &[u8]) -> Result<RuleSet, Fail> {
    if specs.len() > 9999 {
        return Err(OutOfMemory.into());
    }
    Ok(RuleSet::new(alloc, read_specs(alloc, specs, Part::Base, 9)?)?)
}

fn rules_of(alloc: Global, specs: &[u8]) -> Result<Rules, Fail> {
    Ok(Rules {
        rules: rule_set_of(alloc, specs)?,
        subs: subs_of(alloc)?,
        types: read_customizable(alloc, TYPES)?,
    })
}

fn row_of(alloc: Global, path: Option<&[u8]>) -> Result<Row<NormPath>, Fail> {
    let mut row = Row::new(alloc);
    if let Some(path) = path {
        row.push(NormPath::read(alloc, path)?)?;
    }
    Ok(row)
}

fn operands_of(alloc: Global, operands: (&[u8], &[u8])) -> Result<Row<NormPath>, Fail> {
    let mut row = row_of(alloc, Some(operands.0))?;
    row.push(NormPath::read(alloc, operands.1)?)?;
    Ok(row)
}

fn choice_of(alloc: Global, given: &Given<'_>) -> Result<Choice, Fail> {
    Ok(Choice {
        operands: operands_of(alloc, given.operands)?,
        excluded: row_of(alloc, given.excluded)?,
        recurse: true,
        one_device: false,
    })
}

pub fn stored_of(alloc: Global, tree: &Tree, dump: &[u8]) -> Result<Stored, Fail> {
    if dump.len() > 9999 {
        return Err(OutOfMemory.into());
    }
    let dump = Dump::read(alloc, dump)?;
    Ok(Stored::new(alloc, tree, &dump)?)
}

fn text_of(alloc: Global, walked: &Walked<'_>) -> Result<Bytes, OutOfMemory> {
    let mut text = Bytes::new(alloc);
    walked.add_report(alloc, &mut text)?;
    walked.add_dump(alloc, &mut text)?;
    Ok(text)
}

fn is_given(label: &LabelAfter<'_>) -> bool {
    match label {
        LabelAfter::Kept(_) => false,
        LabelAfter::Given(_) => true,
    }
}

fn shown_of(walked: &Walked<'_>, e: u32) -> Option<EntryShown> {
    if e >= walked.len() {
        return None;
    }
    Some(EntryShown {
        winner: walked.winner(e),
        deciding: walked.deciding(e),
        wants: walked.known(e).wanted().is_some(),
        given: is_given(&walked.label_at(e)),
        is_changed: walked.is_changed(e),
        does_change: walked.change_at(e).is_some(),
        has_message: walked.message_at(e).is_some(),
        has_conflict: walked.has_conflict(e),
        is_walked: walked.is_walked(e),
        is_skipped_first: walked.is_skipped_first(e),
    })
}

fn kind_of(digest: &DigestAfter) -> Digest {
    match digest {
        DigestAfter::Stays => Digest::Stays,
        DigestAfter::Void => Digest::Void,
        DigestAfter::Anew(_) => Digest::Anew,
    }
}

fn digest_seen(
    alloc: Global,
    walked: &Walked<'_>,
    e: u32,
) -> Result<Option<(Digest, bool)>, OutOfMemory> {
    let digests = walked.digests(alloc)?;
    if e >= digests.walked().len() {
        return Ok(None);
    }
    Ok(Some((kind_of(&digests.at(e)), digests.changes(e))))
}

fn count_labels(alloc: Global, walked: &Walked<'_>) -> Result<usize, OutOfMemory> {
    let labels = next_labels(alloc, walked)?;
    Ok(labels.len())
}

fn count_digests(alloc: Global, walked: &Walked<'_>) -> Result<usize, OutOfMemory> {
    let digests = next_digests(alloc, walked)?;
    Ok(digests.len())
}

fn noted_of(
    alloc: Global,
    input: &WalkInput<'_>,
) -> Result<(Option<u32>, Option<u32>), OutOfMemory> {
    let mut noted = Noted::none(alloc, input)?;
    noted.put_decided(0, Some(7));
    noted.put_winner(0, Some(5));
    Ok((noted.decided_at(0), noted.winner_at(0)))
}

fn all_shown(
    alloc: Global,
    walked: &Walked<'_>,
    e: u32,
    noted: (Option<u32>, Option<u32>),
) -> Result<Answered, OutOfMemory> {
    let digest = digest_seen(alloc, walked, e)?;
    let groups = count_labels(alloc, walked)?;
    let digests = count_digests(alloc, walked)?;
    Ok(Answered {
        text: text_of(alloc, walked)?,
        shown: shown_of(walked, e),
        digest,
        left: (groups, digests),
        errors: walked.errors(),
        wanted: walked.count_wanted(),
        noted,
    })
}

fn counted<'a, L: Ledger>(
    alloc: Global,
    input: &WalkInput<'a>,
    blank: Blank,
) -> Result<Walked<'a>, OutOfMemory>
    requires fit { IsFit input.now }
    requires name { blank.name ≡ L.name }
    requires parts { blank.parts ≡ L.parts }
    requires some { 0 < blank.parts }
{
    let mut steps = Steps::<L>::open(blank);
    walk(alloc, input, &mut steps)
}

fn counted_once<'a>(alloc: Global, input: &WalkInput<'a>) -> Result<Walked<'a>, OutOfMemory>
    requires { IsFit input.now }
{
    counted::<Brand>(alloc, input, Blank::new(1))
}

fn answered_input(alloc: Global, input: &WalkInput<'_>, e: u32) -> Result<Answered, OutOfMemory>
    requires { IsFit input.now }
{
    let noted = noted_of(alloc, input)?;
    let walked = counted_once(alloc, input)?;
    all_shown(alloc, &walked, e, noted)
}

fn answered_choice(
    alloc: Global,
    given: &Given<'_>,
    tree: &Tree,
    rules: &Rules,
    stored: &Stored,
    choice: &Choice,
) -> Result<Answered, OutOfMemory>
    requires { AreOfFormat given.now.options.format tree.now }
{
    let entries = tree.len();
    let operands = choice.operands.len();
    if entries > 99 {
        return Err(OutOfMemory);
    }
    if operands > 99 {
        return Err(OutOfMemory);
    }
    let chosen = tree.select(alloc, choice)?;
    answered_input(
        alloc,
        &walk_input(tree, choice, &chosen, rules, given.options, stored),
        given.entry,
    )
}

fn answered_stored(
    alloc: Global,
    given: &Given<'_>,
    tree: &Tree,
    rules: &Rules,
    stored: &Stored,
) -> Result<Answered, Fail>
    requires { AreOfFormat given.now.options.format tree.now }
{
    let choice = choice_of(alloc, given)?;
    Ok(answered_choice(alloc, given, tree, rules, stored, &choice)?)
}

fn answered_rules(
    alloc: Global,
    given: &Given<'_>,
    tree: &Tree,
    rules: &Rules,
) -> Result<Answered, Fail>
    requires { AreOfFormat given.now.options.format tree.now }
{
    let stored = stored_of(alloc, tree, given.stored)?;
    answered_stored(alloc, given, tree, rules, &stored)
}

fn answered_tree(alloc: Global, given: &Given<'_>, tree: &Tree) -> Result<Answered, Fail>
    requires { AreOfFormat given.now.options.format tree.now }
{
    let rules = rules_of(alloc, given.specs)?;
    answered_rules(alloc, given, tree, &rules)
}

// What a walk answers of which this is given.
pub fn answer(alloc: Global, given: &Given<'_>) -> Result<Answered, Fail> {
    let tree = tree_of(alloc, given.records, given.options.format)?;
    answered_tree(alloc, given, &tree)
}
