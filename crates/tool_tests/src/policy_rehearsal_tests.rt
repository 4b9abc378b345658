ghost use Rattle.find_records.specs.Record.{AreOfFormat};
ghost use Rattle.find_records.specs.declared.format.Format.TheVariants.{One};
ghost use Rattle.std.specs.Prelude.{◌<◌, ◌^◌, IfOk, length};

use context_syntax::TypeNames;
use file_paths::NormPath;
use file_roles::Part;
use find_records::{Format, RecordLimits, read_records};
use input_output::MemSource;
use label_base::{Bytes, Fault, Name, OutOfMemory, Row};
use label_rules::Rules;
use path_subs::{SubList, Subs};
use policy_rehearsal::{RehearsalInput, RehearseWords, read_rehearse, rehearse, text};
use relabel_core::Options;
use spec_match::RuleSet;
use spec_reader::read_specs;
use std::alloc::Global;
use std::test::Fail;
use tool_words::{Usage, UsageWhy};
use tree_model::{Choice, Tree};

fn words_of(alloc: Global, words: &[&str]) -> Result<Vec<String>, OutOfMemory>
    ensures { IfOk result (λ made. length made.items < 2 ^ 30) }
{
    let mut made = Vec::new(alloc);
    'words: for word in words {
        made.push(String::from_str(alloc, word)?)?;
    }
    if made.len() >= 1 << 30 {
        return Err(OutOfMemory);
    }
    Ok(made)
}

fn asked(alloc: Global, words: &[&str]) -> Result<RehearseWords, Fault<Usage>> {
    let words = words_of(alloc, words)?;
    read_rehearse(alloc, words.as_slice(), 1)
}

#[test]
fn versions_in_order(rt: HostRuntime) -> Result<(), Fail> {
    let asked = asked(rt.alloc(), ["-D", "-S", "fd", "/a", "-Sfc"].as_slice())?;
    assert!(rt; asked.bases.len() == 2 && asked.choice.recurse && asked.options.digests);
    Ok(())
}

// The first word that is wrong.
fn wrong_in(alloc: Global, words: &[&str]) -> Option<(u32, UsageWhy)> {
    match asked(alloc, words) {
        Err(Fault::Why(wrong)) => Some((wrong.index, wrong.why)),
        _ => None,
    }
}

const NINE: &[&str] = &[
    "-Sa", "-Sb", "-Sc", "-Sd", "-Se", "-Sf", "-Sg", "-Sh", "-S", "", "/",
];

#[test]
fn wrong_words(rt: HostRuntime) {
    for (words, index, why) in [
        (NINE, 10, UsageWhy::BadNumber),
        (&["/a"], 2, UsageWhy::MissingOperand),
        (&["-Sfc"], 2, UsageWhy::MissingOperand),
        (&["-n", "-Sfc", "/a"], 1, UsageWhy::UnknownOption),
    ] {
        assert_eq!(rt; wrong_in(rt.alloc(), words), Some((index, why)));
    }
}

// ---- four versions over three entries

const RECORDS: &[u8] = b"d 1 50 u:r:dir_t /a\0d 1 51 u:r:dir_t /a/s\0f 1 52 u:r:f_t /a/s/f\0";

const FC: &[u8] = b"/a(/s)? -d u:r:dir_t\n/a/s/f u:r:f_t\n";

const FD: &[u8] = b"/a(/s)? -d u:r:dir_t\n/a/s/f u:r:g_t\n";

const TEXT: &[u8] = b"version 1: fc: 0 changed, 0 skipped\nversion 2: fd: 1 changed, 0 skipped\n\
        Relabeled /a/s/f from u:r:f_t to u:r:g_t\nversion 3: fc: 1 changed, 0 skipped\n\
        Relabeled /a/s/f from u:r:g_t to u:r:f_t\nversion 4: fc: 0 changed, 1 skipped\n";

// `-D`.
const DIGESTING: Options = Options {
    force: false,
    dry: false,
    digests: true,
    ignore_digests: false,
    verbose: false,
    warn_unmatched: false,
    strict_links: false,
    ignore_absent: false,
    format: Format::One,
};

fn tree(alloc: Global) -> Result<Tree, Fail>
    ensures { IfOk result (λ tree. AreOfFormat One tree) }
{
    let mut source = MemSource::new(Bytes::copy_of(alloc, RECORDS)?, 100, Row::new(alloc));
    let limits = RecordLimits {
        records: 9,
        bytes: 999,
    };
    let records = read_records(alloc, &mut source, Format::One, limits)?;
    Ok(Tree::new(alloc, records)?)
}

fn no_subs(alloc: Global) -> Result<Subs, Fail> {
    Ok(Subs {
        first: SubList::new(alloc, Row::new(alloc))?,
        second: SubList::new(alloc, Row::new(alloc))?,
    })
}

fn rule_set(alloc: Global, specs: &[u8]) -> Result<RuleSet, Fail> {
    if specs.len() > 9999 {
        return Err(OutOfMemory.into());
    }
    Ok(RuleSet::new(alloc, read_specs(alloc, specs, Part::Base, 9)?)?)
}

fn rules(alloc: Global, specs: &[u8]) -> Result<Rules, Fail> {
    Ok(Rules {
        rules: rule_set(alloc, specs)?,
        subs: no_subs(alloc)?,
        types: TypeNames::new(alloc),
    })
}

fn policies(alloc: Global) -> Result<Row<Rules>, Fail> {
    let mut policies = Row::new(alloc);
    for specs in [FC, FD, FC, FC] {
        policies.push(rules(alloc, specs)?)?;
    }
    Ok(policies)
}

fn names(alloc: Global) -> Result<Row<Name>, Fail> {
    let mut names = Row::new(alloc);
    for name in ["fc", "fd", "fc", "fc"] {
        names.push(Name::copy_of(alloc, name)?)?;
    }
    Ok(names)
}

fn choice(alloc: Global) -> Result<Choice, Fail> {
    let mut operands = Row::new(alloc);
    operands.push(NormPath::read(alloc, b"/a")?)?;
    Ok(Choice {
        operands,
        excluded: Row::new(alloc),
        recurse: true,
        one_device: false,
    })
}

// Whether this is the text of the four versions, where entries and operands are few.
fn is_told(
    alloc: Global,
    tree: &Tree,
    choice: &Choice,
    policies: &Row<Rules>,
    names: &Row<Name>,
) -> Result<bool, OutOfMemory>
    requires { AreOfFormat One tree.now }
{
    let entries = tree.len();
    let operands = choice.operands.len();
    if entries > 99 {
        return Err(OutOfMemory);
    }
    if operands > 99 {
        return Err(OutOfMemory);
    }
    let chosen = tree.select(alloc, choice)?;
    let asked = RehearsalInput {
        tree,
        choice,
        chosen: &chosen,
        options: DIGESTING,
    };
    let told = rehearse(alloc, &asked, policies)?;
    Ok(text(alloc, tree, names, &told)?.as_slice() == TEXT)
}

#[test]
fn each_version_begins_where_the_one_before_ends(rt: HostRuntime) -> Result<(), Fail> {
    let alloc = rt.alloc();
    let tree = tree(alloc)?;
    let policies = policies(alloc)?;
    let names = names(alloc)?;
    let choice = choice(alloc)?;
    assert!(rt; is_told(alloc, &tree, &choice, &policies, &names)?);
    Ok(())
}
