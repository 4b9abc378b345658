ghost use Rattle.std.specs.Prelude.{◌≡◌, ◌<◌, ◌≤◌, ◌^◌, ◌-◌, true, None, IfOk, Ok, length, map};
ghost use Rattle.std.specs.List.{dedup};
ghost use Rattle.label_base.specs.Answers.{Answers};
ghost use Rattle.tree_model.specs.Entries.{doubled, entries_of, tree_of};
ghost use Rattle.tree_model.specs.Numbered.{numbered_record, numbered_from, place_of};
ghost use Rattle.tree_model.specs.Doubled.{same_place, doubled_with, doubled_in};
ghost use Rattle.find_records.specs.Places.{ArePlaces, records_at};
ghost use Rattle.tree_model.specs.Tree.{tree_cause};
ghost use Rattle.tree_model.specs.Up.{goes_up, is_next, steps_up};

use crate::fault::TreeFault;
use crate::guess::{given_order, guessed_order};
use crate::numbered::Numbered;
use crate::same::is_same_record;
use find_records::Records;
use label_base::OutOfMemory;
use std::alloc::Global;

/// Two records have one path and differ: the number of the first one with that path, and that of
/// the other.
pub type Numbers = (u32, u32);

// What one pass over records in order tells.
#[derive(Drop)]
struct Firsts {
    // The places of the first record of each path.
    places: Vec<u32>,
    doubled: Option<Numbers>,
}

// The records with their numbers, from 1 on.
fn number_all(alloc: Global, records: &Records) -> Result<Vec<Numbered<'_>>, OutOfMemory>
    requires { length records.now < 2 ^ 32 }
    ensures { IfOk result (λ all. all.items ≡ numbered_from 1 records.now) }
{
    let mut all = Vec::with_capacity(alloc, records.len() as usize)?;
    'records: for place in 0..records.len() {
        all.push(Numbered::new(records, place + 1))?;
    }
    Ok(all)
}

// The numbers with the least second one, after one more record of the path of the head.
fn note(head: &Numbered<'_>, x: &Numbered<'_>, best: Option<Numbers>) -> Option<Numbers>
    ensures { result ≡ doubled_with head.now x.now best }
{
    if is_same_record(&head.entry(), &x.entry()) {
        return best;
    }
    match best {
        Some(least) if least.1 <= x.number() => Some(least),
        _ => Some((head.number(), x.number())),
    }
}

// The place of a record among all, counted from 0.
fn place_of(numbered: &Numbered<'_>) -> u32
    ensures { result ≡ place_of numbered.now }
{
    numbered.number() - 1
}

// Takes the place of the first record of each path, and notes the doubled records, among records
// that stand in order.
#[tactic(auto, unfolding(crate::specs::Doubled::doubled_in))]
fn first_of_each(alloc: Global, sorted: &[Numbered<'_>]) -> Result<Firsts, OutOfMemory>
    ensures places { IfOk result (λ firsts.
        firsts.places.items ≡ map place_of (dedup same_place sorted.now)) }
    ensures doubled { IfOk result (λ firsts. firsts.doubled ≡ doubled_in sorted.now) }
{
    let mut places = Vec::with_capacity(alloc, sorted.len())?;
    let [first, rest @ ..] = sorted else {
        return Ok(Firsts {
            places,
            doubled: None,
        });
    };
    let mut head = first;
    let mut doubled = None;
    'records: for x in rest {
        if head.is_same_place(x) {
            doubled = note(head, x, doubled);
        } else {
            places.push(place_of(head))?;
            head = x;
        }
    }
    places.push(place_of(head))?;
    Ok(Firsts { places, doubled })
}

// The records with their numbers, in order.
#[tactic(auto, using(crate::proofs::SortedLemmas::doubled_is, crate::proofs::EntryLemmas::entries_are, crate::proofs::SortedLemmas::count_is, crate::proofs::DoubledSoFar::few_firsts, crate::proofs::PlaceLemmas::places_are, crate::proofs::PlaceLemmas::places_within))]
fn sort_records(alloc: Global, records: &Records) -> Result<Vec<Numbered<'_>>, OutOfMemory>
    requires { length records.now < 2 ^ 32 }
    ensures doubled { IfOk result (λ sorted. doubled_in sorted.items ≡ doubled records.now) }
    ensures entries { IfOk result (λ sorted. doubled records.now ≡ None
        → map numbered_record (dedup same_place sorted.items) ≡ entries_of records.now) }
    ensures places { IfOk result (λ sorted.
        records_at records.now (map place_of (dedup same_place sorted.items))
        ≡ map numbered_record (dedup same_place sorted.items)) }
    ensures within { IfOk result (λ sorted.
        ArePlaces (length records.now) (map place_of (dedup same_place sorted.items))) }
    ensures fewer { IfOk result (λ sorted.
        length (map place_of (dedup same_place sorted.items)) ≤ length records.now) }
{
    let mut sorted = number_all(alloc, records)?;
    sorted.sort_unstable();
    Ok(sorted)
}

// The places of a tree's entries among its records, in the order of their paths, found by sorting.
fn sorted_order(alloc: Global, records: &Records) -> Result<Vec<u32>, TreeFault>
    requires { length records.now < 2 ^ 32 }
    ensures answer { Answers (λ order. records_at records.now order.items) tree_cause result
        (tree_of records.now) }
    ensures within { IfOk result (λ order. ArePlaces (length records.now) order.items) }
    ensures fewer { IfOk result (λ order. length order.items ≤ length records.now) }
{
    let sorted = sort_records(alloc, records)?;
    let firsts = first_of_each(alloc, sorted.as_slice())?;
    match firsts.doubled {
        Some((first, second)) => Err(TreeFault::Doubled { first, second }),
        None => Ok(firsts.places),
    }
}

// Whether a place is one of the records', and its path is above that at the last one.
fn is_next(records: &Records, last: u32, place: u32) -> bool
    requires { last < length records.now }
    ensures { result ≡ is_next records.now last place }
{
    if place >= records.len() {
        return false;
    }
    records.path(last).compare(&records.path(place)).is_lt()
}

// Whether the paths at these places rise strictly, from above that at the first one on.
fn steps_up(records: &Records, first: u32, rest: &[u32]) -> bool
    requires { first < length records.now }
    ensures { result ≡ steps_up records.now first rest.now }
{
    let mut last = first;
    'places: for place in rest {
        if !is_next(records, last, *place) {
            return false;
        }
        last = *place;
    }
    true
}

// Whether the places are the records', and their paths rise strictly.
fn goes_up(records: &Records, places: &[u32]) -> bool
    ensures { result ≡ goes_up records.now places.now }
{
    let [first, rest @ ..] = places else {
        return true;
    };
    if *first >= records.len() {
        return false;
    }
    steps_up(records, *first, rest)
}

// Whether the places are those of a tree's entries: as many as there are records, with paths that
// rise strictly.
#[tactic(auto, using(crate::proofs::UpLemmas::up_entries, crate::proofs::UpLemmas::goes_within))]
fn is_order(records: &Records, places: &[u32]) -> bool
    ensures entries { result ≡ true → tree_of records.now ≡ Ok (records_at records.now places.now) }
    ensures within { result ≡ true → ArePlaces (length records.now) places.now }
    ensures count { result ≡ true → length places.now ≡ length records.now }
{
    if places.len() != records.len() as usize {
        return false;
    }
    goes_up(records, places)
}

// The places of a tree's entries among its records, in the order of their paths.
//
// The order that is given and one that is guessed are taken if they are right; only where they
// aren't are the records sorted.
fn order_of(alloc: Global, records: &Records) -> Result<Vec<u32>, TreeFault>
    requires { length records.now < 2 ^ 32 }
    ensures answer { Answers (λ order. records_at records.now order.items) tree_cause result
        (tree_of records.now) }
    ensures within { IfOk result (λ order. ArePlaces (length records.now) order.items) }
    ensures fewer { IfOk result (λ order. length order.items ≤ length records.now) }
{
    let given = given_order(alloc, records)?;
    if is_order(records, given.as_slice()) {
        return Ok(given);
    }
    let guessed = guessed_order(alloc, records)?;
    if is_order(records, guessed.as_slice()) {
        return Ok(guessed);
    }
    sorted_order(alloc, records)
}

/// The entries of records, laid in the order of their paths: each record once, however often it is
/// given.
pub fn put_in_order(alloc: Global, records: Records) -> Result<Records, TreeFault>
    requires { length records < 2 ^ 32 }
    ensures answer { Answers (λ entries. entries) tree_cause result (tree_of records) }
    ensures fewer { IfOk result (λ entries. length entries ≤ length records) }
{
    let order = order_of(alloc, &records)?;
    Ok(records.in_order(alloc, order.as_slice())?)
}
