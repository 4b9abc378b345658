ghost use Rattle.spec_match.specs.Carrying.{IsCarriedOf};
ghost use Rattle.spec_match.specs.Scratches.{IsScratchOf};
ghost use Rattle.std.specs.Prelude.{◌≡◌, ◌<◌, IfSome};

use file_paths::{NormPath, PathRef};
use file_roles::Part;
use label_base::{Asked, Bytes, Steps};
use spec_match::{Carried, RuleSet, Scratch};
use spec_reader::read_specs;
use std::alloc::Global;
use std::marker::Brand;
use std::sync::ledger::{Blank, Ledger};

// The lines of a thousand specifications, each for what lies below a directory of its own.
fn thousand_lines(alloc: Global) -> Option<Bytes> {
    let mut text = Bytes::new(alloc);
    'lines: for k in 0..1000 {
        let line = format!(in alloc; "/s{k}/.* system_u:object_r:t:s0\n").ok()?;
        text.push(line.as_bytes()).ok()?;
    }
    Some(text)
}

fn thousand_rules(alloc: Global) -> Option<RuleSet> {
    let text = thousand_lines(alloc)?;
    if text.len() >= 1 << 32 {
        return None;
    }
    let specs = read_specs(alloc, text.as_slice(), Part::Base, 1000).ok()?;
    RuleSet::new(alloc, specs).ok()
}

fn last_match<L: Ledger>(
    rules: &RuleSet,
    scratch: &mut Scratch,
    path: &PathRef<'_>,
    blank: Blank,
) -> Option<u32>
    requires scratch { IsScratchOf rules.now scratch.old }
    requires name { blank.name ≡ L.name }
    requires parts { blank.parts ≡ L.parts }
    requires some { 0 < blank.parts }
{
    let mut steps = Steps::<L>::open(blank);
    rules.last_match(scratch, path, Asked::Any, &mut steps)
}

// The last match of /s5/x, and how many specifications were tried for it.
fn tried_by_path(alloc: Global) -> Option<(Option<u32>, u64)> {
    let rules = thousand_rules(alloc)?;
    let path = NormPath::read(alloc, b"/s5/x").ok()?;
    let mut scratch = Scratch::new(alloc, &rules).ok()?;
    let found = last_match::<Brand>(&rules, &mut scratch, &path.path(), Blank::new(1));
    Some((found, scratch.tried()))
}

#[test]
fn one_of_a_thousand_is_tried(rt: HostRuntime) {
    assert_eq!(rt; tried_by_path(rt.alloc()), Some((Some(5), 1)));
}

// How many specifications can decide at or below a path, and how many were tried for it, where the
// tables have no room.
fn tried_for_relevant(alloc: Global, path: &[u8]) -> Option<(usize, u64)> {
    let rules = thousand_rules(alloc)?;
    let path = NormPath::read(alloc, path).ok()?;
    let mut scratch = Scratch::with_room(alloc, &rules, 0, 0, 0).ok()?;
    let found = rules.relevant(alloc, &mut scratch, &path.path()).ok()?;
    Some((found.len(), scratch.tried()))
}

#[test]
fn what_begins_otherwise_is_not_tried_for_a_digest(rt: HostRuntime) {
    for (path, count) in [
        (b"/".as_slice(), 1000usize),
        (b"/s5", 1),
        (b"/s5/x", 1),
        (b"/s", 0),
    ] {
        let tried = tried_for_relevant(rt.alloc(), path);
        assert!(rt; tried == Some((count, count as u64)));
    }
}

fn last_child_match<L: Ledger>(
    rules: &RuleSet,
    carried: &Carried,
    scratch: &mut Scratch,
    blank: Blank,
) -> Option<u32>
    requires own { IsCarriedOf rules.now carried.now }
    requires scratch { IsScratchOf rules.now scratch.old }
    requires name { blank.name ≡ L.name }
    requires parts { blank.parts ≡ L.parts }
    requires some { 0 < blank.parts }
{
    let mut steps = Steps::<L>::open(blank);
    carried.last_match(rules, scratch, b"x", Asked::Any, &mut steps)
}

// What stands for /s5.
fn entered(alloc: Global, rules: &RuleSet) -> Option<Carried>
    ensures { IfSome result (λ carried. IsCarriedOf rules.now carried) }
{
    let root = Carried::root(alloc, rules).ok()?;
    root.enter(alloc, rules, b"s5").ok()
}

// The last match of x in /s5, and how many specifications were tried for it.
fn tried_by_name(alloc: Global) -> Option<(Option<u32>, u64)> {
    let rules = thousand_rules(alloc)?;
    let carried = entered(alloc, &rules)?;
    let mut scratch = Scratch::new(alloc, &rules).ok()?;
    let found = last_child_match::<Brand>(&rules, &carried, &mut scratch, Blank::new(1));
    Some((found, scratch.tried()))
}

#[test]
fn one_of_a_thousand_that_were_carried_is_tried(rt: HostRuntime) {
    assert_eq!(rt; tried_by_name(rt.alloc()), Some((Some(5), 1)));
}
