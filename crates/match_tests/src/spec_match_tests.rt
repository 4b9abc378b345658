ghost use Rattle.spec_match.specs.Scratches.{IsScratchOf};
ghost use Rattle.std.specs.Prelude.{◌≡◌, ◌<◌, ◌^◌, length};

use file_paths::{NormPath, PathRef};
use file_roles::Part;
use label_base::{Asked, EntryKind, Row, Steps};
use spec_match::{RuleSet, Scratch, find_last};
use spec_reader::{Spec, read_specs};
use std::alloc::Global;
use std::marker::Brand;
use std::sync::ledger::{Blank, Ledger};

fn counted<L: Ledger>(
    rules: &RuleSet,
    scratch: &mut Scratch,
    path: &PathRef<'_>,
    asked: Asked,
    blank: Blank,
) -> Option<u32>
    requires scratch { IsScratchOf rules.now scratch.old }
    requires name { blank.name ≡ L.name }
    requires parts { blank.parts ≡ L.parts }
    requires some { 0 < blank.parts }
    ensures { IsScratchOf rules.now scratch.new }
{
    let mut steps = Steps::<L>::open(blank);
    rules.last_match(scratch, path, asked, &mut steps)
}

// The last match, where nobody asks for the count.
fn last_in(rules: &RuleSet, scratch: &mut Scratch, path: &PathRef<'_>, asked: Asked) -> Option<u32>
    requires { IsScratchOf rules.now scratch.old }
    ensures { IsScratchOf rules.now scratch.new }
{
    counted::<Brand>(rules, scratch, path, asked, Blank::new(1))
}

fn looked_up(alloc: Global, rules: &RuleSet, path: &PathRef<'_>, asked: Asked) -> Option<u32> {
    match Scratch::new(alloc, rules) {
        Ok(mut scratch) => last_in(rules, &mut scratch, path, asked),
        Err(_) => None,
    }
}

fn found(alloc: Global, specs: Row<Spec>, path: &[u8], asked: Asked) -> Option<u32>
    requires { length specs < 2 ^ 32 }
{
    let Ok(rules) = RuleSet::new(alloc, specs) else {
        return None;
    };
    let Ok(path) = NormPath::read(alloc, path) else {
        return None;
    };
    looked_up(alloc, &rules, &path.path(), asked)
}

// The index of the last match, or 99 where the specifications can't be read.
fn last(alloc: Global, specs: &[u8], path: &[u8], asked: Asked) -> Option<u32>
    requires { length specs.now < 2 ^ 32 }
{
    match read_specs(alloc, specs, Part::Base, 9) {
        Ok(specs) => found(alloc, specs, path, asked),
        Err(_) => Some(99),
    }
}

#[test]
fn the_last_match_decides(rt: HostRuntime) {
    let specs = b"/usr/.* <<none>>\n/usr/bin/.* <<none>>\n/usr/bin/ls -- <<none>>\n";
    let file = Asked::Of(EntryKind::Regular);
    assert_eq!(rt; last(rt.alloc(), specs, b"/usr/bin/ls", file), Some(2));
    assert_eq!(rt; last(rt.alloc(), specs, b"/usr/bin/cat", file), Some(1));
    assert_eq!(rt; last(rt.alloc(), specs, b"/usr/lib", file), Some(0));
    assert_eq!(rt; last(rt.alloc(), specs, b"/usr", file), None);
}

#[test]
fn an_escaped_name_is_the_name_alone(rt: HostRuntime) {
    let specs = b"/etc/.* <<none>>\n/etc/foo\\.conf <<none>>\n";
    assert_eq!(rt;
        last(rt.alloc(), specs, b"/etc/foo.conf", Asked::Any),
        Some(1)
    );
    assert_eq!(rt;
        last(rt.alloc(), specs, b"/etc/fooxconf", Asked::Any),
        Some(0)
    );
}

#[test]
fn types_apply_to_their_own(rt: HostRuntime) {
    let specs = b"/x/.* -l <<none>>\n/x/.* -d <<none>>\n";
    assert_eq!(rt;
        last(rt.alloc(), specs, b"/x/a", Asked::Of(EntryKind::Link)),
        Some(0)
    );
    assert_eq!(rt;
        last(rt.alloc(), specs, b"/x/a", Asked::Of(EntryKind::Directory)),
        Some(1)
    );
    assert_eq!(rt;
        last(rt.alloc(), specs, b"/x/a", Asked::Of(EntryKind::Regular)),
        None
    );
    assert_eq!(rt; last(rt.alloc(), specs, b"/x/a", Asked::Any), Some(1));
}

// The line of the specification at a place, or 99 where there is none.
fn line_at(alloc: Global, specs: Row<Spec>, place: u32) -> u32
    requires { length specs < 2 ^ 32 }
{
    match RuleSet::new(alloc, specs) {
        Ok(rules) if place < rules.len() => rules.spec(place).line,
        _ => 99,
    }
}

#[test]
fn a_specification_by_its_place(rt: HostRuntime) {
    let text = b"# two\n/x <<none>>\n\n/y <<none>>\n";
    match read_specs(rt.alloc(), text, Part::Base, 9) {
        Ok(specs) => {
            assert_eq!(rt; line_at(rt.alloc(), specs, 1), 4);
        }
        Err(_) => {
            assert!(rt; false);
        }
    }
}

// What is found for a path that is read here, or 99 where it can't be.
fn found_in(alloc: Global, rules: &RuleSet, scratch: &mut Scratch, path: &[u8]) -> Option<u32>
    requires { IsScratchOf rules.now scratch.old }
    ensures { IsScratchOf rules.now scratch.new }
{
    match NormPath::read(alloc, path) {
        Ok(path) => last_in(rules, scratch, &path.path(), Asked::Any),
        Err(_) => Some(99),
    }
}

// How many specifications can decide at or below a path, or 99 where it can't be read.
fn count_relevant(alloc: Global, rules: &RuleSet, scratch: &mut Scratch, path: &[u8]) -> usize
    requires { IsScratchOf rules.now scratch.old }
    ensures { IsScratchOf rules.now scratch.new }
{
    let Ok(path) = NormPath::read(alloc, path) else {
        return 99;
    };
    let Ok(found) = rules.relevant(alloc, scratch, &path.path()) else {
        return 99;
    };
    found.len()
}

// Whether one path after the other has its last match.
fn is_round_right(alloc: Global, rules: &RuleSet, scratch: &mut Scratch) -> bool
    requires { IsScratchOf rules.now scratch.old }
    ensures { IsScratchOf rules.now scratch.new }
{
    if found_in(alloc, rules, scratch, b"/a") != Some(1) {
        return false;
    }
    if found_in(alloc, rules, scratch, b"/bc") != Some(0) {
        return false;
    }
    if found_in(alloc, rules, scratch, b"/") != None {
        return false;
    }
    if count_relevant(alloc, rules, scratch, b"/b") != 2 {
        return false;
    }
    found_in(alloc, rules, scratch, b"/b/cd") == Some(2)
}

fn are_rounds_right(alloc: Global, rules: &RuleSet, scratch: &mut Scratch) -> bool
    requires { IsScratchOf rules.now scratch.old }
{
    'rounds: for _ in 0..60 {
        if !is_round_right(alloc, rules, scratch) {
            return false;
        }
    }
    true
}

// Whether all is found in a scratch with room for so many lists, and for so many specifications in
// them.
fn found_with(alloc: Global, lists: usize, members: usize) -> Option<bool> {
    let text = b"/[ab].* <<none>>\n/a <<none>>\n/b/.*d <<none>>\n".as_slice();
    let specs = read_specs(alloc, text, Part::Base, 9).ok()?;
    let rules = RuleSet::new(alloc, specs).ok()?;
    let mut scratch = Scratch::with_room(alloc, &rules, lists, members, 100).ok()?;
    Some(are_rounds_right(alloc, &rules, &mut scratch))
}

#[test]
fn look_ups_without_room(rt: HostRuntime) {
    for (lists, members) in [
        (20usize, 100usize),
        (4, 100),
        (2, 100),
        (20, 8),
        (20, 2),
        (0, 0),
    ] {
        assert_eq!(rt;
            found_with(rt.alloc(), lists, members),
            Some(true),
            "at {lists}"
        );
    }
}

// How many specifications are tried for two look-ups of a path.
fn tried(alloc: Global, specs: &[u8], path: &[u8]) -> Option<u64>
    requires { length specs.now < 2 ^ 32 }
{
    let specs = read_specs(alloc, specs, Part::Base, 9).ok()?;
    let rules = RuleSet::new(alloc, specs).ok()?;
    let mut scratch = Scratch::new(alloc, &rules).ok()?;
    found_in(alloc, &rules, &mut scratch, path);
    found_in(alloc, &rules, &mut scratch, path);
    Some(scratch.tried())
}

#[test]
fn specifications_that_begin_otherwise_are_not_tried(rt: HostRuntime) {
    let specs = b"/s4/.* <<none>>\n/s5/.* <<none>>\n/s6/.* <<none>>\n".as_slice();
    assert_eq!(rt; tried(rt.alloc(), specs, b"/s5/x"), Some(2));
}

// Looks a path up until its lists are known.
fn look_up_often(alloc: Global, rules: &RuleSet, scratch: &mut Scratch, path: &[u8])
    requires { IsScratchOf rules.now scratch.old }
    ensures { IsScratchOf rules.now scratch.new }
{
    'rounds: for _ in 0..40 {
        found_in(alloc, rules, scratch, path);
    }
}

// How many specifications are tried for a path, where another one is known.
fn tried_behind(alloc: Global, specs: &[u8], known: &[u8], path: &[u8]) -> Option<u64>
    requires { length specs.now < 2 ^ 32 }
{
    let specs = read_specs(alloc, specs, Part::Base, 9).ok()?;
    let rules = RuleSet::new(alloc, specs).ok()?;
    let mut scratch = Scratch::new(alloc, &rules).ok()?;
    look_up_often(alloc, &rules, &mut scratch, known);
    let before = scratch.tried();
    found_in(alloc, &rules, &mut scratch, path);
    Some(scratch.tried().saturating_sub(before))
}

#[test]
fn what_decides_whatever_follows_is_not_read_on(rt: HostRuntime) {
    let specs = b"/.* <<none>>\n/s(/.*)? <<none>>\n/t <<none>>\n".as_slice();
    assert_eq!(rt;
        tried_behind(rt.alloc(), specs, b"/s/a", b"/s/axy/z"),
        Some(0)
    );
}

// The specifications that can decide at or below a path.
fn relevant(alloc: Global, specs: &[u8], path: &[u8]) -> Option<Vec<u32>>
    requires { length specs.now < 2 ^ 32 }
{
    let specs = read_specs(alloc, specs, Part::Base, 9).ok()?;
    let rules = RuleSet::new(alloc, specs).ok()?;
    let path = NormPath::read(alloc, path).ok()?;
    let mut scratch = Scratch::new(alloc, &rules).ok()?;
    rules.relevant(alloc, &mut scratch, &path.path()).ok()
}

#[test]
fn specifications_at_or_below_a_path(rt: HostRuntime) {
    let specs =
        b"/a <<none>>\n/ab <<none>>\n/a/.*x <<none>>\nb <<none>>\n/.* <<none>>\n".as_slice();
    for (path, want) in [
        (b"/a".as_slice(), [0u32, 2, 4].as_slice()),
        (b"/", [0, 1, 2, 4].as_slice()),
        (b"/ab/c", [4].as_slice()),
    ] {
        let found = relevant(rt.alloc(), specs, path);
        assert!(rt; found.is_some_and(|found| found.as_slice() == want));
    }
}

// What is found in a list that isn't made ready, or 99 where it or the path can't be read.
fn directly(alloc: Global, specs: &[u8], path: &[u8], asked: Asked) -> Option<u32>
    requires { length specs.now < 2 ^ 32 }
{
    let Ok(specs) = read_specs(alloc, specs, Part::Base, 9) else {
        return Some(99);
    };
    let Ok(path) = NormPath::read(alloc, path) else {
        return Some(99);
    };
    find_last(alloc, specs.as_slice(), &path.path(), asked).unwrap_or(Some(99))
}

#[test]
fn a_list_that_is_not_ready_answers_alike(rt: HostRuntime) {
    let specs = b"/x/.* -d <<none>>\n/x/[0-9]+ <<none>>\n/x/1 -l <<none>>\n/y <<none>>\n";
    for (path, asked, index) in [
        (b"/x/1", Asked::Any, Some(2)),
        (b"/x/1", Asked::Of(EntryKind::Link), Some(2)),
        (b"/x/1", Asked::Of(EntryKind::Directory), Some(1)),
        (b"/x/a", Asked::Of(EntryKind::Directory), Some(0)),
        (b"/x/a", Asked::Of(EntryKind::Regular), None),
    ] {
        assert!(rt;
            last(rt.alloc(), specs, path, asked) == index,
            "by a list made ready"
        );
        assert!(rt;
            directly(rt.alloc(), specs, path, asked) == index,
            "by one that is not"
        );
    }
}
