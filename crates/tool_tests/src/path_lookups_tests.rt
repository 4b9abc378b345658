ghost use Rattle.path_lookups.specs.Finders.{IsFinderOf};
ghost use Rattle.std.specs.Prelude.{◌≡◌, ◌<◌, ◌^◌, IfOk, length};

use context_syntax::TypeNames;
use file_paths::{NormPath, PathRef};
use file_roles::Part;
use find_records::{Format, RecordLimits, read_records};
use input_output::MemSource;
use label_base::{Asked, Bytes, EntryKind, Fault, OutOfMemory, Row, Steps};
use label_rules::ListedRules;
use path_lookups::{
    Finder, Lookup, LookupWords, PathRules, Verification, add_found_report, add_verified_report,
    is_unverified, read_lookup, verify,
};
use path_subs::{SubList, Subs, read_subs};
use spec_reader::read_specs;
use std::alloc::Global;
use std::marker::Brand;
use std::sync::ledger::{Blank, Ledger};
use std::test::Fail;
use tool_words::Usage;
use tree_model::Tree;

fn tree_of(alloc: Global, records: &[u8]) -> Result<Tree, Fail> {
    let mut input = MemSource::new(Bytes::copy_of(alloc, records)?, 9999, Row::new(alloc));
    let most = RecordLimits {
        bytes: 9999,
        records: 9,
    };
    Ok(Tree::new(alloc, read_records(alloc, &mut input, Format::One, most)?)?)
}

fn list_of(alloc: Global, lines: &[u8]) -> Result<SubList, Fail>
    requires { length lines.now < 2 ^ 32 }
{
    Ok(SubList::new(alloc, read_subs(alloc, lines)?)?)
}

fn both_of(alloc: Global, first: &[u8], second: &[u8]) -> Result<Subs, Fail>
    requires first { length first.now < 2 ^ 32 }
    requires second { length second.now < 2 ^ 32 }
{
    let first = list_of(alloc, first)?;
    Ok(Subs {
        first,
        second: list_of(alloc, second)?,
    })
}

fn listed_with(
    alloc: Global,
    specs: &[u8],
    first: &[u8],
    second: &[u8],
) -> Result<ListedRules, Fail>
    requires specs { length specs.now < 2 ^ 32 }
    requires first { length first.now < 2 ^ 32 }
    requires second { length second.now < 2 ^ 32 }
{
    let subs = both_of(alloc, first, second)?;
    let specs = read_specs(alloc, specs, Part::Base, 9)?;
    Ok(ListedRules::new(specs, subs, TypeNames::new(alloc)))
}

// Rules for so many paths.
fn rules_with(
    alloc: Global,
    specs: &[u8],
    first: &[u8],
    second: &[u8],
    paths: usize,
) -> Result<PathRules, Fail>
    requires specs { length specs.now < 2 ^ 32 }
    requires first { length first.now < 2 ^ 32 }
    requires second { length second.now < 2 ^ 32 }
{
    let listed = listed_with(alloc, specs, first, second)?;
    Ok(PathRules::new(alloc, listed, paths)?)
}

fn paths_of(alloc: Global, texts: &[&[u8]]) -> Result<Row<NormPath>, Fail> {
    let mut paths = Row::new(alloc);
    for text in texts {
        paths.push(NormPath::read(alloc, text)?)?;
    }
    Ok(paths)
}

fn found(
    alloc: Global,
    rules: &PathRules,
    paths: &Row<NormPath>,
    kind: Option<EntryKind>,
) -> Result<Bytes, OutOfMemory> {
    let lookup = Lookup {
        rules,
        kind,
        bare: kind.is_none(),
    };
    let mut report = Bytes::new(alloc);
    add_found_report(alloc, &lookup, paths.as_slice(), &mut report)?;
    Ok(report)
}

fn found_by(
    alloc: Global,
    rules: &PathRules,
    texts: &[&[u8]],
    kind: Option<EntryKind>,
) -> Result<Bytes, Fail> {
    let paths = paths_of(alloc, texts)?;
    Ok(found(alloc, rules, &paths, kind)?)
}

// For few and for many paths.
const FEW: usize = 1;

const MANY: usize = 99;

// What is found for paths, told without these where no kind is, by rules for so many.
fn found_for(
    alloc: Global,
    specs: &[u8],
    texts: &[&[u8]],
    kind: Option<EntryKind>,
    paths: usize,
) -> Result<Bytes, Fail>
    requires { length specs.now < 2 ^ 32 }
{
    let rules = rules_with(
        alloc,
        specs,
        b"/myweb /run/web\n",
        b"/run /var/run\n",
        paths,
    )?;
    found_by(alloc, &rules, texts, kind)
}

// What is found where paths are few, if it is what is found where they are many.
fn found_of(
    alloc: Global,
    specs: &[u8],
    texts: &[&[u8]],
    kind: Option<EntryKind>,
) -> Result<Bytes, Fail>
    requires { length specs.now < 2 ^ 32 }
{
    let few = found_for(alloc, specs, texts, kind, FEW)?;
    let many = found_for(alloc, specs, texts, kind, MANY)?;
    if few.as_slice() != many.as_slice() {
        return Ok(Bytes::new(alloc));
    }
    Ok(few)
}

#[test]
fn the_last_specification_is_found(rt: HostRuntime) -> Result<(), Fail> {
    let report = found_of(
        rt.alloc(),
        b"/usr/.* u:r:usr_t:s0\n/usr/bin/.* u:r:bin_t:s0\n/usr/bin/ls -- u:r:ls_exec_t:s0\n",
        [
            b"/usr/bin/ls".as_slice(),
            b"/usr/bin/cat".as_slice(),
            b"/usr/lib".as_slice(),
            b"/usr".as_slice(),
        ]
        .as_slice(),
        Some(EntryKind::Regular),
    )?;
    assert_eq!(rt;
        report.as_slice(),
        b"/usr/bin/ls\tu:r:ls_exec_t:s0\n/usr/bin/cat\tu:r:bin_t:s0\n/usr/lib\tu:r:usr_t:s0\n\
            /usr\t<<none>>\n"
            .as_slice()
    );
    Ok(())
}

#[test]
fn a_backslash_escapes_a_dot(rt: HostRuntime) -> Result<(), Fail> {
    let report = found_of(
        rt.alloc(),
        b"/etc/.* u:r:etc_t:s0\n/etc/foo\\.conf u:r:foo_conf_t:s0\n",
        [b"/etc/foo.conf".as_slice(), b"/etc/fooxconf".as_slice()].as_slice(),
        None,
    )?;
    assert_eq!(rt;
        report.as_slice(),
        b"u:r:foo_conf_t:s0\nu:r:etc_t:s0\n".as_slice()
    );
    Ok(())
}

#[test]
fn a_path_is_substituted_twice(rt: HostRuntime) -> Result<(), Fail> {
    let report = found_of(
        rt.alloc(),
        b"/var/run(/.*)? u:r:var_run_t:s0\n",
        [
            b"/run/x".as_slice(),
            b"/run".as_slice(),
            b"/runner".as_slice(),
            b"/myweb/a".as_slice(),
        ]
        .as_slice(),
        None,
    )?;
    assert_eq!(rt;
        report.as_slice(),
        b"u:r:var_run_t:s0\nu:r:var_run_t:s0\n<<none>>\nu:r:var_run_t:s0\n".as_slice()
    );
    Ok(())
}

const TYPED: &[u8] = b"/x/.* -l u:r:link_t:s0\n/x/.* -d u:r:dir_t:s0\n";

#[test]
fn the_kind_that_is_told_counts(rt: HostRuntime) -> Result<(), Fail> {
    let paths = [b"/x/a".as_slice()];
    let link = found_of(rt.alloc(), TYPED, paths.as_slice(), Some(EntryKind::Link))?;
    assert_eq!(rt; link.as_slice(), b"/x/a\tu:r:link_t:s0\n".as_slice());
    Ok(())
}

#[test]
fn without_a_kind_all_specifications_apply(rt: HostRuntime) -> Result<(), Fail> {
    let any = found_of(rt.alloc(), TYPED, [b"/x/a".as_slice()].as_slice(), None)?;
    assert_eq!(rt; any.as_slice(), b"u:r:dir_t:s0\n".as_slice());
    Ok(())
}

// The lines, and how many of the paths are not verified.
fn verified(
    alloc: Global,
    rules: &PathRules,
    tree: &Tree,
    paths: &Row<NormPath>,
    report: &mut Bytes,
) -> Result<u32, OutOfMemory> {
    if paths.len() > 9 {
        return Ok(99);
    }
    let by = Verification {
        rules,
        tree,
        kind: None,
    };
    add_verified_report(alloc, &by, paths.as_slice(), report)
}

fn verified_by(
    alloc: Global,
    rules: &PathRules,
    tree: &Tree,
    texts: &[&[u8]],
    report: &mut Bytes,
) -> Result<u32, Fail> {
    let paths = paths_of(alloc, texts)?;
    Ok(verified(alloc, rules, tree, &paths, report)?)
}

fn verified_over(
    alloc: Global,
    specs: &[u8],
    tree: &Tree,
    texts: &[&[u8]],
    report: &mut Bytes,
    paths: usize,
) -> Result<u32, Fail>
    requires { length specs.now < 2 ^ 32 }
{
    let rules = rules_with(alloc, specs, b"", b"", paths)?;
    verified_by(alloc, &rules, tree, texts, report)
}

fn verified_of(
    alloc: Global,
    specs: &[u8],
    records: &[u8],
    texts: &[&[u8]],
    report: &mut Bytes,
    paths: usize,
) -> Result<u32, Fail>
    requires { length specs.now < 2 ^ 32 }
{
    let tree = tree_of(alloc, records)?;
    verified_over(alloc, specs, &tree, texts, report, paths)
}

// The lines of four paths of three entries, and how many of them are not verified, by rules for so
// many.
fn four_verified(alloc: Global, report: &mut Bytes, paths: usize) -> Result<u32, Fail> {
    verified_of(
        alloc,
        b"/srv/.* u:r:var_t:s0\n/srv/n <<none>>\n",
        b"f 1 60 w:r:var_t:s0 /srv/a\0f 1 61 u:r:tmp_t:s0 /srv/b\0f 1 62  /srv/n\0",
        [
            b"/srv/a".as_slice(),
            b"/srv/b".as_slice(),
            b"/srv/c".as_slice(),
            b"/srv/n".as_slice(),
        ]
        .as_slice(),
        report,
        paths,
    )
}

#[test]
fn paths_are_verified(rt: HostRuntime) -> Result<(), Fail> {
    let mut report = Bytes::new(rt.alloc());
    let unverified = four_verified(rt.alloc(), &mut report, FEW)?;
    assert_eq!(rt; unverified, 2);
    assert_eq!(rt;
        report.as_slice(),
        b"/srv/a verified.\n/srv/b has context u:r:tmp_t:s0, should be u:r:var_t:s0\n\
            /srv/c has no record\n/srv/n verified.\n"
            .as_slice()
    );
    Ok(())
}

#[test]
fn few_and_many_paths_are_verified_alike(rt: HostRuntime) -> Result<(), Fail> {
    let mut few = Bytes::new(rt.alloc());
    let unverified = four_verified(rt.alloc(), &mut few, FEW)?;
    let mut many = Bytes::new(rt.alloc());
    assert_eq!(rt; four_verified(rt.alloc(), &mut many, MANY)?, unverified);
    assert_eq!(rt; many.as_slice(), few.as_slice());
    Ok(())
}

#[test]
fn few_and_many_paths_are_found_alike(rt: HostRuntime) -> Result<(), Fail> {
    let texts = [b"/x/a".as_slice(), b"/run/x".as_slice(), b"/y".as_slice()];
    let few = found_for(rt.alloc(), TYPED, texts.as_slice(), None, FEW)?;
    let many = found_for(rt.alloc(), TYPED, texts.as_slice(), None, MANY)?;
    assert_eq!(rt; few.as_slice(), many.as_slice());
    Ok(())
}

// What a look-up of one path tells: whether a context is found, and whether it is not verified.
fn told_of<'a, L: Ledger>(
    alloc: Global,
    by: &Verification<'a>,
    path: &PathRef<'a>,
    finder: &mut Finder<'a>,
    blank: Blank,
) -> Result<(bool, bool), OutOfMemory>
    requires own { IsFinderOf by.now.rules.now finder.old }
    requires name { blank.name ≡ L.name }
    requires parts { blank.parts ≡ L.parts }
    requires some { 0 < blank.parts }
{
    let mut steps = Steps::<L>::open(blank);
    let message = verify(alloc, by, path, finder, &mut steps)?;
    let context = finder.find_context(alloc, path, Asked::Any, &mut steps)?;
    Ok((context.is_some(), is_unverified(&message)))
}

fn told_by<'a>(
    alloc: Global,
    rules: &'a PathRules,
    tree: &'a Tree,
    path: &PathRef<'a>,
) -> Result<(bool, bool), OutOfMemory> {
    let mut finder = Finder::new(alloc, rules)?;
    let by = Verification {
        rules,
        tree,
        kind: None,
    };
    told_of::<Brand>(alloc, &by, path, &mut finder, Blank::new(1))
}

fn told_over(alloc: Global, rules: &PathRules, tree: &Tree) -> Result<(bool, bool), Fail> {
    let path = NormPath::read(alloc, b"/a")?;
    Ok(told_by(alloc, rules, tree, &path.path())?)
}

fn told_with(alloc: Global, tree: &Tree, paths: usize) -> Result<(bool, bool), Fail> {
    let rules = rules_with(alloc, b"/a u:r:a_t:s0\n", b"", b"", paths)?;
    told_over(alloc, &rules, tree)
}

#[test]
fn one_path_is_looked_up(rt: HostRuntime) -> Result<(), Fail> {
    let tree = tree_of(rt.alloc(), b"f 1 2 ? /a\0")?;
    assert!(rt; told_with(rt.alloc(), &tree, FEW)? == (true, true));
    assert!(rt; told_with(rt.alloc(), &tree, MANY)? == (true, true));
    Ok(())
}

fn words_of(alloc: Global, words: &[&str]) -> Result<Vec<String>, OutOfMemory>
    ensures { IfOk result (λ made. length made.items < 2 ^ 30) }
{
    let mut made = Vec::new(alloc);
    'words: for word in words {
        made.push(String::from_str(alloc, word)?)?;
    }
    if made.len() >= 1 << 30 {
        return Err(OutOfMemory);
    }
    Ok(made)
}

fn lookup(alloc: Global, words: &[&str]) -> Result<LookupWords, Fault<Usage>> {
    let words = words_of(alloc, words)?;
    read_lookup(alloc, words.as_slice(), 1)
}

#[test]
fn a_lookup_takes_a_type(rt: HostRuntime) -> Result<(), Fail> {
    let asked = lookup(rt.alloc(), ["-n", "-m", "dir", "-f", "fc", "/a"].as_slice())?;
    assert!(rt; asked.bare && !asked.verify && asked.asked == Some(EntryKind::Directory));
    Ok(())
}
