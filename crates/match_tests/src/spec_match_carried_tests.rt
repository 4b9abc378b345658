ghost use Rattle.spec_match.specs.Carrying.{IsCarriedOf};
ghost use Rattle.spec_match.specs.Scratches.{IsScratchOf};
ghost use Rattle.std.specs.Prelude.{◌≡◌, ◌<◌, IfSome};

use file_roles::Part;
use label_base::{Asked, EntryKind, Steps};
use spec_match::{Carried, RuleSet, Scratch};
use spec_reader::read_specs;
use std::alloc::Global;
use std::marker::Brand;
use std::sync::ledger::{Blank, Ledger};

const SPECS: &[u8] =
    b"/s4/.* <<none>>\n/s5/.* <<none>>\n/s50/.* <<none>>\n/s5 <<none>>\n/s5/x -d <<none>>\n";

fn rules(alloc: Global) -> Option<RuleSet> {
    let specs = read_specs(alloc, SPECS, Part::Base, 9).ok()?;
    RuleSet::new(alloc, specs).ok()
}

// What stands for a directory in the root.
fn entered(alloc: Global, rules: &RuleSet, name: &[u8]) -> Option<Carried>
    ensures { IfSome result (λ carried. IsCarriedOf rules.now carried) }
{
    let root = Carried::root(alloc, rules).ok()?;
    root.enter(alloc, rules, name).ok()
}

fn counted<L: Ledger>(
    rules: &RuleSet,
    carried: &Carried,
    scratch: &mut Scratch,
    name: &[u8],
    asked: Asked,
    blank: Blank,
) -> Option<u32>
    requires own { IsCarriedOf rules.now carried.now }
    requires scratch { IsScratchOf rules.now scratch.old }
    requires name { blank.name ≡ L.name }
    requires parts { blank.parts ≡ L.parts }
    requires some { 0 < blank.parts }
    ensures { IsScratchOf rules.now scratch.new }
{
    let mut steps = Steps::<L>::open(blank);
    carried.last_match(rules, scratch, name, asked, &mut steps)
}

// The last match of x in a directory in the root, and how many specifications were tried.
fn found(alloc: Global, name: &[u8], asked: Asked) -> Option<(Option<u32>, u64)> {
    let rules = rules(alloc)?;
    let carried = entered(alloc, &rules, name)?;
    let mut scratch = Scratch::new(alloc, &rules).ok()?;
    let found = counted::<Brand>(&rules, &carried, &mut scratch, b"x", asked, Blank::new(1));
    Some((found, scratch.tried()))
}

#[test]
fn look_ups_by_names(rt: HostRuntime) {
    let file = Asked::Of(EntryKind::Regular);
    assert_eq!(rt; found(rt.alloc(), b"s5", file), Some((Some(1), 2)));
    assert_eq!(rt; found(rt.alloc(), b"s5", Asked::Any), Some((Some(4), 1)));
    assert_eq!(rt; found(rt.alloc(), b"s6", file), Some((None, 0)));
}

// The last match of s4 in the root.
fn found_in_root(alloc: Global) -> Option<Option<u32>> {
    let rules = rules(alloc)?;
    let carried = Carried::root(alloc, &rules).ok()?;
    let mut scratch = Scratch::new(alloc, &rules).ok()?;
    let any = Asked::Any;
    Some(counted::<Brand>(&rules, &carried, &mut scratch, b"s4", any, Blank::new(1)))
}

#[test]
fn a_look_up_in_the_root(rt: HostRuntime) {
    assert_eq!(rt; found_in_root(rt.alloc()), Some(None));
}

fn relevant(alloc: Global, name: &[u8]) -> Option<Vec<u32>> {
    let rules = rules(alloc)?;
    let carried = entered(alloc, &rules, name)?;
    carried.relevant(alloc, &rules).ok()
}

#[test]
fn specifications_at_or_below_what_was_entered(rt: HostRuntime) {
    for (name, want) in [
        (b"s5".as_slice(), [1u32, 3, 4].as_slice()),
        (b"s50", [2].as_slice()),
        (b"s", [].as_slice()),
    ] {
        let found = relevant(rt.alloc(), name);
        assert!(rt; found.is_some_and(|found| found.as_slice() == want));
    }
}
