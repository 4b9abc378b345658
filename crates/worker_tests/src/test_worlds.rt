ghost use Rattle.find_records.specs.Record.{AreOfFormat};
ghost use Rattle.relabel_core.specs.Walked.{IsFit, walk_of};
ghost use Rattle.relabel_workers.specs.PutBack.{AreWinnersClaimed};
ghost use Rattle.std.specs.Prelude.{◌≡◌, ◌<◌, ◌≤◌, IfOk};

use context_syntax::read_customizable;
use file_paths::NormPath;
use file_roles::Part;
use find_records::{Format, RecordLimits, read_records};
use inode_claims::Winners;
use input_output::MemSource;
use label_base::{Bytes, OutOfMemory, Row};
use label_rules::Rules;
use path_subs::{SubList, Subs, read_subs};
use relabel_core::{Options, Stored, WalkInput, Walked, walk_input};
use relabel_workers::{Gate, walk_threads};
use setfattr_dump::Dump;
use spec_match::RuleSet;
use spec_reader::read_specs;
use std::alloc::Global;
use std::sync::Wait;
use std::test::Fail;
use std::thread::Threads;
use tree_model::{Choice, Tree};

// What the tests walk over. Each helper has one value with a buffer and one `?`, since what has
// several takes long to prove.

/// What a test walks over, and by what.
#[derive(Clone, Copy)]
pub struct Given<'a> {
    pub specs: &'a [u8],
    pub records: &'a [u8],
    pub operands: (&'a [u8], &'a [u8]),
    /// A dump of what is stored before.
    pub stored: &'a [u8],
    pub options: Options,
}

/// No option but the one for lines.
pub const VERBOSE: Options = Options {
    force: false,
    dry: false,
    digests: false,
    ignore_digests: false,
    verbose: true,
    warn_unmatched: false,
    strict_links: false,
    ignore_absent: false,
    format: Format::One,
};

fn tree_of(alloc: Global, records: &[u8], format: Format) -> Result<Tree, Fail>
    ensures { IfOk result (λ tree. AreOfFormat format tree) }
{
    let mut source = MemSource::new(Bytes::copy_of(alloc, records)?, 100, Row::new(alloc));
    let limits = RecordLimits {
        records: 99,
        bytes: 9999,
    };
    let read = read_records(alloc, &mut source, format, limits)?;
    Ok(Tree::new(alloc, read)?)
}

fn subs_of(alloc: Global) -> Result<Subs, Fail> {
    Ok(Subs {
        first: SubList::new(alloc, read_subs(alloc, b"/data /srv\n")?)?,
        second: SubList::new(alloc, Row::new(alloc))?,
    })
}

fn rule_set_of(alloc: Global, specs: &[u8]) -> Result<RuleSet, Fail> {
    if specs.len() > 9999 {
        return Err(OutOfMemory.into());
    }
    Ok(RuleSet::new(alloc, read_specs(alloc, specs, Part::Base, 9)?)?)
}

fn rules_of(alloc: Global, specs: &[u8]) -> Result<Rules, Fail> {
    Ok(Rules {
        rules: rule_set_of(alloc, specs)?,
        subs: subs_of(alloc)?,
        types: read_customizable(alloc, b"public_content_t\n")?,
    })
}

fn operand_row(alloc: Global, path: &[u8]) -> Result<Row<NormPath>, Fail> {
    let mut row = Row::new(alloc);
    row.push(NormPath::read(alloc, path)?)?;
    Ok(row)
}

fn operands_of(alloc: Global, operands: (&[u8], &[u8])) -> Result<Row<NormPath>, Fail> {
    let mut row = operand_row(alloc, operands.0)?;
    row.push(NormPath::read(alloc, operands.1)?)?;
    Ok(row)
}

fn choice_of(alloc: Global, operands: (&[u8], &[u8])) -> Result<Choice, Fail> {
    Ok(Choice {
        operands: operands_of(alloc, operands)?,
        excluded: Row::new(alloc),
        recurse: true,
        one_device: false,
    })
}

fn stored_of(alloc: Global, tree: &Tree, dump: &[u8]) -> Result<Stored, Fail> {
    if dump.len() > 9999 {
        return Err(OutOfMemory.into());
    }
    let dump = Dump::read(alloc, dump)?;
    Ok(Stored::new(alloc, tree, &dump)?)
}

// The report and the dump behind it.
fn text_of(alloc: Global, walked: &Walked<'_>) -> Result<Bytes, OutOfMemory> {
    let mut text = Bytes::new(alloc);
    walked.add_report(alloc, &mut text)?;
    walked.add_dump(alloc, &mut text)?;
    Ok(text)
}

/// What a walk by workers answers.
#[derive(Drop)]
pub struct Answered {
    /// The report, and the dump behind it.
    pub text: Bytes,
    /// How many claims were made, and the winner of the first inode.
    pub claims: u64,
    pub first_winner: Option<u64>,
}

fn first_winner(input: &WalkInput<'_>, winners: &Winners) -> Option<u64>
    requires { AreWinnersClaimed (walk_of input.now) winners.now }
{
    if input.tree.groups() == 0 {
        return None;
    }
    winners.get(0)
}

fn answered_input<R: Threads + Wait + Sync, G: Gate + Sync>(
    rt: &R,
    alloc: Global,
    input: &WalkInput<'_>,
    workers: u32,
    gate: &G,
) -> Result<Answered, OutOfMemory>
    requires fit { IsFit input.now }
    requires workers { (0 < workers) × (workers ≤ 64) }
{
    let (walked, winners) = walk_threads(rt, alloc, input, workers, gate)?;
    Ok(Answered {
        text: text_of(alloc, &walked)?,
        claims: winners.claims(),
        first_winner: first_winner(input, &winners),
    })
}

fn answered_choice<R: Threads + Wait + Sync, G: Gate + Sync>(
    rt: &R,
    alloc: Global,
    tree: &Tree,
    rules: &Rules,
    options: Options,
    stored: &Stored,
    choice: &Choice,
    workers: u32,
    gate: &G,
) -> Result<Answered, OutOfMemory>
    requires format { AreOfFormat options.format tree.now }
    requires workers { (0 < workers) × (workers ≤ 64) }
{
    let entries = tree.len();
    let operands = choice.operands.len();
    if entries > 99 {
        return Err(OutOfMemory);
    }
    if operands > 99 {
        return Err(OutOfMemory);
    }
    let chosen = tree.select(alloc, choice)?;
    let input = walk_input(tree, choice, &chosen, rules, options, stored);
    answered_input(rt, alloc, &input, workers, gate)
}

fn answered_rules<R: Threads + Wait + Sync, G: Gate + Sync>(
    rt: &R,
    alloc: Global,
    given: &Given<'_>,
    tree: &Tree,
    rules: &Rules,
    stored: &Stored,
    workers: u32,
    gate: &G,
) -> Result<Answered, Fail>
    requires format { AreOfFormat given.now.options.format tree.now }
    requires workers { (0 < workers) × (workers ≤ 64) }
{
    let choice = choice_of(alloc, given.operands)?;
    Ok(answered_choice(
        rt,
        alloc,
        tree,
        rules,
        given.options,
        stored,
        &choice,
        workers,
        gate,
    )?)
}

fn answered_tree<R: Threads + Wait + Sync, G: Gate + Sync>(
    rt: &R,
    alloc: Global,
    given: &Given<'_>,
    tree: &Tree,
    stored: &Stored,
    workers: u32,
    gate: &G,
) -> Result<Answered, Fail>
    requires format { AreOfFormat given.now.options.format tree.now }
    requires workers { (0 < workers) × (workers ≤ 64) }
{
    let rules = rules_of(alloc, given.specs)?;
    answered_rules(rt, alloc, given, tree, &rules, stored, workers, gate)
}

fn answered_stored<R: Threads + Wait + Sync, G: Gate + Sync>(
    rt: &R,
    alloc: Global,
    given: &Given<'_>,
    tree: &Tree,
    workers: u32,
    gate: &G,
) -> Result<Answered, Fail>
    requires format { AreOfFormat given.now.options.format tree.now }
    requires workers { (0 < workers) × (workers ≤ 64) }
{
    let stored = stored_of(alloc, tree, given.stored)?;
    answered_tree(rt, alloc, given, tree, &stored, workers, gate)
}

/// What a walk by so many workers answers of which this is given.
pub fn answer<R: Threads + Wait + Sync, G: Gate + Sync>(
    rt: &R,
    alloc: Global,
    given: &Given<'_>,
    workers: u32,
    gate: &G,
) -> Result<Answered, Fail>
    requires { (0 < workers) × (workers ≤ 64) }
{
    let tree = tree_of(alloc, given.records, given.options.format)?;
    answered_stored(rt, alloc, given, &tree, workers, gate)
}
