ghost use Rattle.find_records.specs.Record.{AreOfFormat};
ghost use Rattle.find_records.specs.declared.format.Format.TheVariants.{One};
ghost use Rattle.std.specs.Prelude.{◌≡◌, ◌<◌, IfOk};

use context_syntax::TypeNames;
use file_paths::NormPath;
use file_roles::Part;
use find_records::{Format, RecordLimits, read_records};
use input_output::MemSource;
use label_base::{Bytes, OutOfMemory, Row, Steps};
use label_rules::Rules;
use path_subs::{SubList, Subs};
use relabel_core::{Options, Stored, Walked, walk_input};
use relabel_runs::{next_walk, none_is_skipped, one_more_run_keeps_labels, skipping_keeps_labels};
use spec_match::RuleSet;
use spec_reader::read_specs;
use std::alloc::Global;
use std::marker::Brand;
use std::sync::ledger::{Blank, Ledger};
use std::test::Fail;
use tree_model::{Choice, Tree};

// `-D`.
const DIGESTING: Options = Options {
    force: false,
    dry: false,
    digests: true,
    ignore_digests: false,
    verbose: false,
    warn_unmatched: false,
    strict_links: false,
    ignore_absent: false,
    format: Format::One,
};

// One file, whose label changes.
fn one_file(alloc: Global) -> Result<Tree, Fail>
    ensures { IfOk result (λ tree. AreOfFormat One tree) }
{
    let records = Bytes::copy_of(alloc, b"f 1 2 u:r:old_t:s0 /srv\0")?;
    let mut source = MemSource::new(records, 100, Row::new(alloc));
    let limits = RecordLimits {
        records: 9,
        bytes: 999,
    };
    let records = read_records(alloc, &mut source, Format::One, limits)?;
    Ok(Tree::new(alloc, records)?)
}

fn no_subs(alloc: Global) -> Result<Subs, Fail> {
    Ok(Subs {
        first: SubList::new(alloc, Row::new(alloc))?,
        second: SubList::new(alloc, Row::new(alloc))?,
    })
}

fn rule_set(alloc: Global) -> Result<RuleSet, Fail> {
    Ok(RuleSet::new(
        alloc,
        read_specs(alloc, b"/srv u:r:var_t:s0\n", Part::Base, 9)?,
    )?)
}

fn rules(alloc: Global) -> Result<Rules, Fail> {
    Ok(Rules {
        rules: rule_set(alloc)?,
        subs: no_subs(alloc)?,
        types: TypeNames::new(alloc),
    })
}

fn whole_tree(alloc: Global) -> Result<Choice, Fail> {
    let mut operands = Row::new(alloc);
    operands.push(NormPath::read(alloc, b"/srv")?)?;
    Ok(Choice {
        operands,
        excluded: Row::new(alloc),
        recurse: true,
        one_device: false,
    })
}

fn first_decided(walked: &Walked<'_>) -> Option<u32> {
    if walked.len() == 0 {
        return None;
    }
    walked.deciding(0)
}

// The index of the specification that decides the first entry, where entries and operands are few.
fn decided<L: Ledger>(
    alloc: Global,
    tree: &Tree,
    choice: &Choice,
    rules: &Rules,
    blank: Blank,
) -> Result<Option<u32>, OutOfMemory>
    requires format { AreOfFormat One tree.now }
    requires name { blank.name ≡ L.name }
    requires parts { blank.parts ≡ L.parts }
    requires some { 0 < blank.parts }
{
    let entries = tree.len();
    let operands = choice.operands.len();
    if entries > 99 {
        return Err(OutOfMemory);
    }
    if operands > 99 {
        return Err(OutOfMemory);
    }
    let chosen = tree.select(alloc, choice)?;
    let stored = Stored::none(alloc);
    let mut steps = Steps::<L>::open(blank);
    let input = walk_input(tree, choice, &chosen, rules, DIGESTING, &stored);
    let walked = next_walk(alloc, choice, &input, &mut steps)?;
    Ok(first_decided(&walked))
}

#[test]
fn a_walk_after_no_other(rt: HostRuntime) -> Result<(), Fail> {
    let alloc = rt.alloc();
    let tree = one_file(alloc)?;
    let rules = rules(alloc)?;
    let choice = whole_tree(alloc)?;
    let decided = decided::<Brand>(alloc, &tree, &choice, &rules, Blank::new(1))?;
    assert_eq!(rt; decided, Some(0));
    Ok(())
}

#[test]
fn laws_hold_of_all(_rt: HostRuntime) {
    skipping_keeps_labels();
    one_more_run_keeps_labels();
    none_is_skipped();
}
