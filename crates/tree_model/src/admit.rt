ghost use Rattle.std.specs.Prelude.{◌≡◌, ◌==◌, ◌&&◌, ◌<◌, ◌≤◌, List, Bool, length, get_or};
ghost use Rattle.tree_model.specs.Extents.{EndsFrom, entry_at};
ghost use Rattle.tree_model.specs.LiveLists.{AreMarkedLive, IsMarkedTo, stays_in};
ghost use Rattle.tree_model.specs.ExtentEnds.{AreEnds, within_extent};
ghost use Rattle.tree_model.specs.Selection.{admits};
ghost use Rattle.tree_model.specs.Tree.{ByPath};

use crate::choice::Choice;
use crate::marks::fill;
use crate::sorted::Sorted;

// Whether two entries lie on one device.
#[tactic(auto, using(crate::proofs::KnownLemmas::entry_is))]
fn is_same_device(sorted: &Sorted, a: u32, b: u32) -> bool
    requires first { a < length sorted.now }
    requires second { b < length sorted.now }
    ensures { result ≡ ((entry_at sorted.now a).device == (entry_at sorted.now b).device) }
{
    sorted.entry(a).device == sorted.entry(b).device
}

// Marks an entry in the extent of o that has o's device, and passes over the extent of another one:
// which entry is next.
fn mark_or_skip(sorted: &Sorted, ends: &[u32], live: &mut Vec<bool>, o: u32, c: u32) -> u32
    requires ends { AreEnds ends.now }
    requires count { length ends.now ≡ length sorted.now }
    requires flags { length live.old.items ≡ length sorted.now }
    requires within { o < length sorted.now }
    requires from { o ≤ c }
    requires upto { c < get_or ends.now o 0 }
    ensures flags { length live.new.items ≡ length live.old.items }
    ensures more { c < result }
    ensures upto { result ≤ get_or ends.now o 0 }
    ensures marked { (start : List Bool)
        → IsMarkedTo ends.now (λ e. (entry_at sorted.now e).device) o c start live.old.items
        → IsMarkedTo ends.now (λ e. (entry_at sorted.now e).device) o result start live.new.items }
{
    if is_same_device(sorted, c, o) {
        live[c as usize] = true;
        c + 1
    } else {
        ends[c as usize]
    }
}

// Marks the entries from o down that stay on the device of o.
fn mark_device(sorted: &Sorted, ends: &[u32], live: &mut Vec<bool>, o: u32)
    requires ends { AreEnds ends.now }
    requires count { length ends.now ≡ length sorted.now }
    requires flags { length live.old.items ≡ length sorted.now }
    requires within { o < length sorted.now }
    ensures { AreMarkedLive
        (λ e. within_extent ends.now o e && stays_in ends.now (λ a. (entry_at sorted.now a).device)
        o e)
        live.old.items live.new.items }
{
    let end = ends[o as usize];
    let mut c = o;
    'entries: while c < end {
        c = mark_or_skip(sorted, ends, live, o, c);
    }
}

// Marks all entries in the extent of o.
#[tactic(auto, using(crate::proofs::MarkLemmas::filled_marks))]
fn mark_extent(ends: &[u32], live: &mut Vec<bool>, o: u32)
    requires ends { AreEnds ends.now }
    requires flags { length live.old.items ≡ length ends.now }
    requires within { o < length ends.now }
    ensures { AreMarkedLive (within_extent ends.now o) live.old.items live.new.items }
{
    fill(live, o, ends[o as usize], true);
}

// Marks an entry by itself.
#[tactic(auto, using(crate::proofs::MarkLemmas::marked_one))]
fn mark_one(live: &mut Vec<bool>, o: u32)
    requires { o < length live.old.items }
    ensures { AreMarkedLive (λ e. o == e) live.old.items live.new.items }
{
    live[o as usize] = true;
}

/// Marks the entries that the entry of an operand admits.
pub fn mark_operand(sorted: &Sorted, ends: &[u32], live: &mut Vec<bool>, choice: &Choice, o: u32)
    requires by_path { ByPath sorted.now }
    requires ends { EndsFrom 0 sorted.now ends.now }
    requires flags { length live.old.items ≡ length sorted.now }
    requires within { o < length sorted.now }
    ensures { AreMarkedLive (admits choice.now sorted.now o) live.old.items live.new.items }
{
    if !choice.recurse {
        mark_one(live, o);
        return;
    }
    let _count = sorted.len();
    if choice.one_device {
        mark_device(sorted, ends, live, o);
        return;
    }
    mark_extent(ends, live, o);
}
