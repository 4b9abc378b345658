ghost use Rattle.find_records.specs.Record.{AreOfFormat};
ghost use Rattle.find_records.specs.declared.format.Format.TheVariants.{One};
ghost use Rattle.std.specs.Prelude.{◌<◌, ◌^◌, IfOk, length};

use context_syntax::TypeNames;
use file_paths::NormPath;
use file_roles::Part;
use find_records::{Format, RecordLimits, read_records};
use input_output::MemSource;
use label_audit::{AuditWords, Finding, Piece, audit, read_audit};
use label_base::{Bytes, Fault, OutOfMemory, Row};
use label_rules::Rules;
use path_subs::{SubList, Subs};
use relabel_core::{Options, Stored, walk_input};
use spec_match::RuleSet;
use spec_reader::read_specs;
use std::alloc::Global;
use std::test::Fail;
use tool_words::Usage;
use tree_model::{Choice, Tree};

fn words_of(alloc: Global, words: &[&str]) -> Result<Vec<String>, OutOfMemory>
    ensures { IfOk result (λ made. length made.items < 2 ^ 30) }
{
    let mut made = Vec::new(alloc);
    'words: for word in words {
        made.push(String::from_str(alloc, word)?)?;
    }
    if made.len() >= 1 << 30 {
        return Err(OutOfMemory);
    }
    Ok(made)
}

fn asked(alloc: Global, words: &[&str]) -> Result<AuditWords, Fault<Usage>> {
    let words = words_of(alloc, words)?;
    read_audit(alloc, words.as_slice(), 1)
}

#[test]
fn the_words_of_a_run_follow_the_name_of_its_report(rt: HostRuntime) -> Result<(), Fail> {
    let asked = asked(rt.alloc(), ["--", "setfiles", "-n", "fc", "/"].as_slice())?;
    assert!(rt; asked.report.as_str() == "--" && asked.inner.options.dry);
    Ok(())
}

// ---- one walk over two entries

const RECORDS: &[u8] = b"d 1 50 u:r:dir_t /a\0f 1 51 u:r:f_t /a/f\0";

const SPECS: &[u8] = b"/a -d u:r:dir_t\n/a/f u:r:g_t\n";

const REPORT: &[u8] = b"Relabeled /a/f from u:r:f_t to u:r:g_t\n";

const DUMP: &[u8] = b"# file: /a/f\nsecurity.selinux=\"u:r:g_t\"\n\n";

// `-v`.
const VERBOSE: Options = Options {
    force: false,
    dry: false,
    digests: false,
    ignore_digests: false,
    verbose: true,
    warn_unmatched: false,
    strict_links: false,
    ignore_absent: false,
    format: Format::One,
};

fn tree(alloc: Global) -> Result<Tree, Fail>
    ensures { IfOk result (λ tree. AreOfFormat One tree) }
{
    let mut source = MemSource::new(Bytes::copy_of(alloc, RECORDS)?, 100, Row::new(alloc));
    let limits = RecordLimits {
        records: 9,
        bytes: 999,
    };
    let records = read_records(alloc, &mut source, Format::One, limits)?;
    Ok(Tree::new(alloc, records)?)
}

fn no_subs(alloc: Global) -> Result<Subs, Fail> {
    Ok(Subs {
        first: SubList::new(alloc, Row::new(alloc))?,
        second: SubList::new(alloc, Row::new(alloc))?,
    })
}

fn rules(alloc: Global) -> Result<Rules, Fail> {
    Ok(Rules {
        rules: RuleSet::new(alloc, read_specs(alloc, SPECS, Part::Base, 9)?)?,
        subs: no_subs(alloc)?,
        types: TypeNames::new(alloc),
    })
}

fn choice(alloc: Global) -> Result<Choice, Fail> {
    let mut operands = Row::new(alloc);
    operands.push(NormPath::read(alloc, b"/a")?)?;
    Ok(Choice {
        operands,
        excluded: Row::new(alloc),
        recurse: true,
        one_device: false,
    })
}

// What is found of these files, where entries and operands are few.
fn found_in(
    alloc: Global,
    tree: &Tree,
    choice: &Choice,
    rules: &Rules,
    report: &[u8],
    dump: &[u8],
) -> Result<Finding, OutOfMemory>
    requires { AreOfFormat One tree.now }
{
    let entries = tree.len();
    let operands = choice.operands.len();
    if entries > 99 {
        return Err(OutOfMemory);
    }
    if operands > 99 {
        return Err(OutOfMemory);
    }
    let chosen = tree.select(alloc, choice)?;
    let stored = Stored::none(alloc);
    let input = walk_input(tree, choice, &chosen, rules, VERBOSE, &stored);
    audit(alloc, &input, report, Some(dump))
}

fn found(alloc: Global, report: &[u8], dump: &[u8]) -> Result<Finding, Fail> {
    let tree = tree(alloc)?;
    let rules = rules(alloc)?;
    let choice = choice(alloc)?;
    Ok(found_in(alloc, &tree, &choice, &rules, report, dump)?)
}

#[test]
fn files_that_are_right_agree(rt: HostRuntime) -> Result<(), Fail> {
    let found = found(rt.alloc(), REPORT, DUMP)?;
    assert!(rt; matches!(&found, Finding::Agrees));
    Ok(())
}

#[test]
fn a_line_that_lacks_is_found(rt: HostRuntime) -> Result<(), Fail> {
    let found = found(rt.alloc(), b"", DUMP)?;
    assert!(rt; matches!(&found, Finding::InReport(Piece::Entry(1))));
    Ok(())
}

#[test]
fn a_dump_that_goes_on_is_found(rt: HostRuntime) -> Result<(), Fail> {
    let found = found(
        rt.alloc(),
        REPORT,
        b"# file: /a/f\nsecurity.selinux=\"u:r:g_t\"\n\n\n",
    )?;
    assert!(rt; matches!(&found, Finding::InDump(Piece::End)));
    Ok(())
}
