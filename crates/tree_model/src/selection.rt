ghost use Rattle.std.specs.Prelude.{◌≡◌, ◌+◌, ◌++◌, ◌<◌, ◌^◌, ◌&&◌, ◌||◌, List, not, false, take};
ghost use Rattle.std.specs.Prelude.{drop, length, get_or, IfOk, OnOk};
ghost use Rattle.file_paths.specs.Path.{Path};
ghost use Rattle.tree_model.specs.Extents.{EndsFrom};
ghost use Rattle.tree_model.specs.LiveLists.{AreFlags, IsDead};
ghost use Rattle.tree_model.specs.Selection.{absent_from, admits, is_admitted, is_excluded};
ghost use Rattle.tree_model.specs.Selection.{is_chosen, selected_by, whole_at};
ghost use Rattle.tree_model.specs.Tree.{ByPath};

use crate::admit::mark_operand;
use crate::choice::Choice;
use crate::exclude::clear_below;
use crate::marks::all_dead;
use crate::sorted::Sorted;
use crate::tree::Tree;
use label_base::{OutOfMemory, Row};
use std::alloc::Global;
use std::marker::Model;

/// The entries of a tree that are meant: they are live.
#[derive(Debug)]
pub struct Selected {
    // For each entry up to the last that isn't live the least index from it on of one that isn't.
    dead: Vec<u32>,
    // How many entries there are: those behind these words are live.
    count: u32,
    absent: Row<u32>,
}

// By hand: one call for an owner, where a derived drop is a step for each field.
impl Drop for Selected {
    fn drop(self) {
        let Selected {
            dead: _,
            count: _,
            absent: _,
        } = self;
    }
}

impl Model for Selected {
    ghost use Rattle.tree_model.specs.LiveLists.{KeepsFlags, live_of};
    ghost use Rattle.tree_model.specs.Selection.{SelectedValue};

    ghost Value = { SelectedValue };

    ghost view = { λ s. record { live = live_of s.dead.items s.count; absent = s.absent } };

    ghost invariant = { λ s. KeepsFlags (live_of s.dead.items s.count) s.dead.items s.count };
}

// Marks what the entry of one operand more admits. Where it has its flag already, some operand
// before admits it, and all that it admits: so many operands cost one run.
fn admit_entry(sorted: &Sorted, ends: &[u32], choice: &Choice, live: &mut Vec<bool>, o: u32)
    requires by_path { ByPath sorted.now }
    requires ends { EndsFrom 0 sorted.now ends.now }
    requires flags { length live.old.items ≡ length sorted.now }
    requires within { o < length sorted.now }
    ensures { (before : List Path)
        → AreFlags (length sorted.now) (is_admitted choice.now sorted.now before) live.old.items
        → AreFlags (length sorted.now) (λ e. is_admitted choice.now sorted.now before e
        || admits choice.now sorted.now o e) live.new.items }
{
    if live[o as usize] {
        return;
    }
    mark_operand(sorted, ends, live, choice, o);
}

// What the operands before one admit, and the indices of those that no entry has.
#[derive(Drop)]
struct Admitted {
    live: Vec<bool>,
    absent: Row<u32>,
}

// Marks what the operand with an index admits, or notes that no entry has its path.
fn admit_operand(
    sorted: &Sorted,
    ends: &[u32],
    choice: &Choice,
    index: u32,
    admitted: &mut Admitted,
) -> Result<(), OutOfMemory>
    requires by_path { ByPath sorted.now }
    requires ends { EndsFrom 0 sorted.now ends.now }
    requires within { index < length choice.now.operands }
    requires flags { AreFlags (length sorted.now)
        (is_admitted choice.now sorted.now (take index choice.now.operands))
        admitted.old.live.items }
    ensures flags { AreFlags (length sorted.now)
        (is_admitted choice.now sorted.now (take (index + 1) choice.now.operands))
        admitted.new.live.items }
    ensures absent { OnOk result (
        admitted.new.absent
        ++ absent_from (index + 1) sorted.now (drop (index + 1) choice.now.operands)
        ≡ admitted.old.absent ++ absent_from index sorted.now (drop index choice.now.operands)) }
{
    let path = choice.operands.get(index as usize).path();
    match sorted.find(&path) {
        Some(o) => {
            admit_entry(sorted, ends, choice, &mut admitted.live, o);
            Ok(())
        }
        None => admitted.absent.push(index),
    }
}

// Clears what is at or below the excluded path with an index.
fn exclude_path(sorted: &Sorted, ends: &[u32], choice: &Choice, index: usize, live: &mut Vec<bool>)
    requires by_path { ByPath sorted.now }
    requires ends { EndsFrom 0 sorted.now ends.now }
    requires within { index < length choice.now.excluded }
    requires flags { AreFlags (length sorted.now)
        (λ e. is_admitted choice.now sorted.now choice.now.operands e
        && not (is_excluded sorted.now (take index choice.now.excluded) e)) live.old.items }
    ensures { AreFlags (length sorted.now)
        (λ e. is_admitted choice.now sorted.now choice.now.operands e
        && not (is_excluded sorted.now (take (index + 1) choice.now.excluded) e)) live.new.items }
{
    let path = choice.excluded.get(index).path();
    clear_below(sorted, ends, live, &path);
}

// Clears what is at or below the excluded paths.
fn exclude_all(sorted: &Sorted, ends: &[u32], choice: &Choice, live: &mut Vec<bool>)
    requires by_path { ByPath sorted.now }
    requires ends { EndsFrom 0 sorted.now ends.now }
    requires flags { AreFlags (length sorted.now)
        (is_admitted choice.now sorted.now choice.now.operands) live.old.items }
    ensures { AreFlags (length sorted.now) (is_chosen choice.now sorted.now) live.new.items }
{
    'paths: for index in 0..choice.excluded.len() {
        exclude_path(sorted, ends, choice, index, live);
    }
}

/// The entries that a choice means, by the extents of all entries.
pub fn select_in(
    alloc: Global,
    sorted: &Sorted,
    ends: &[u32],
    choice: &Choice,
) -> Result<Selected, OutOfMemory>
    requires by_path { ByPath sorted.now }
    requires ends { EndsFrom 0 sorted.now ends.now }
    requires few { length choice.now.operands < 2 ^ 32 }
    ensures value { IfOk result (λ selected. selected ≡ selected_by choice.now sorted.now) }
    ensures count { IfOk result (λ selected. length selected.live ≡ length sorted.now) }
{
    let mut admitted = Admitted {
        live: vec![in alloc; false; sorted.len() as usize]?,
        absent: Row::new(alloc),
    };
    'operands: for index in 0..choice.operands.len() as u32 {
        admit_operand(sorted, ends, choice, index, &mut admitted)?;
    }
    exclude_all(sorted, ends, choice, &mut admitted.live);
    let dead = all_dead(alloc, admitted.live.as_slice())?;
    Ok(Selected {
        dead,
        count: sorted.len(),
        absent: admitted.absent,
    })
}

impl Selected {
    // The least index from an entry on of one that isn't live, or the number of entries.
    fn next_dead(&self, e: u32) -> u32
        requires { e < length self.now.live }
        ensures { IsDead self.now.live e result }
    {
        let place = e as usize;
        if place < self.dead.len() {
            self.dead[place]
        } else {
            self.count
        }
    }

    /// Whether an entry is meant.
    #[tactic(auto, using(crate::proofs::DeadLemmas::flag_shown))]
    pub fn is_live(&self, e: u32) -> bool
        requires { e < length self.now.live }
        ensures { result ≡ get_or self.now.live e false }
    {
        self.next_dead(e) != e
    }

    /// Whether the extent of an entry is closed, and all of it is meant, where this was selected
    /// from the tree or from one that differs in labels alone.
    pub fn is_whole(&self, tree: &Tree, d: u32) -> bool
        requires known { d < length tree.now }
        requires count { length self.now.live ≡ length tree.now }
        ensures { result ≡ whole_at tree.now self.now.live d }
    {
        tree.closed(d) && tree.extent(d) <= self.next_dead(d)
    }

    /// The indices of the operands that no entry has, in ascending order.
    pub fn absent(&self) -> &Row<u32>
        ensures { result.now ≡ self.now.absent }
    {
        &self.absent
    }
}
