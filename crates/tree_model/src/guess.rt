//! The order that is likely: that of find(1), with the names in each directory sorted. Nothing is
//! claimed of it, since what it gives is tested.

use file_paths::PathKey;
use find_records::Records;
use label_base::OutOfMemory;
use std::alloc::Global;

// No place.
const NONE: u32 = u32::MAX;
// As many directories as a path of 4,096 bytes can have, and more.
const MOST_ABOVE: u32 = 4096;

fn at(links: &[u32], place: u32) -> u32 {
    match links.get(place as usize) {
        Some(other) => *other,
        None => NONE,
    }
}

fn set(links: &mut [u32], place: u32, other: u32) {
    if let Some(link) = links.get_mut(place as usize) {
        *link = other;
    }
}

// The nearest of some place and the places above it whose record the one at a place is below, or
// none; and whether it is just below.
fn parent_of(records: &Records, parents: &[u32], last: u32, place: u32) -> (u32, bool) {
    if place >= records.len() {
        return (NONE, false);
    }
    let path = records.path(place);
    let mut above = last;
    'above: for _ in 0..MOST_ABOVE {
        if above >= records.len() {
            return (NONE, last == NONE);
        }
        let top = records.path(above);
        if path.is_at_or_below(&top) {
            return (above, path.behind(&top).names() == 1);
        }
        above = at(parents, above);
    }
    (NONE, false)
}

// For each place that of its directory, if the records stand as find(1) passes them: each behind
// its directory and what is below others there.
fn parents_of(alloc: Global, records: &Records) -> Result<Option<Vec<u32>>, OutOfMemory> {
    let mut parents = Vec::with_capacity(alloc, records.len() as usize)?;
    let mut last = NONE;
    'records: for place in 0..records.len() {
        let (parent, is_just_below) = parent_of(records, parents.as_slice(), last, place);
        if !is_just_below {
            return Ok(None);
        }
        parents.push(parent)?;
        last = place;
    }
    Ok(Some(parents))
}

// Makes of each directory's place the place of the next entry there, and gives each one's first
// entry. The last are those of no directory.
fn first_ones(
    alloc: Global,
    count: u32,
    links: &mut [u32],
) -> Result<(Vec<u32>, u32), OutOfMemory> {
    let mut first = vec![in alloc; NONE; count as usize]?;
    let mut top = NONE;
    'places: for i in 0..count {
        let place = count - 1 - i;
        let parent = at(links, place);
        if parent == NONE {
            set(links, place, top);
            top = place;
        } else {
            set(links, place, at(first.as_slice(), parent));
            set(first.as_mut_slice(), parent, place);
        }
    }
    Ok((first, top))
}

// The part of a path by which it is sorted among those of its directory.
fn key_of(records: &Records, parent: u32, place: u32) -> Option<PathKey<'_>> {
    if place >= records.len() {
        return None;
    }
    let path = records.path(place);
    if parent >= records.len() {
        return Some(path.key());
    }
    let top = records.path(parent);
    if path.is_at_or_below(&top) {
        return Some(path.behind(&top).key());
    }
    Some(path.key())
}

// Places by their directories.
#[derive(Clone, Copy)]
struct ByDirectory<'a> {
    records: &'a Records,
    // For each place the next one of its directory.
    next: &'a [u32],
    // For each directory its first entry.
    first: &'a [u32],
}

// The entries of a directory from the first one on, in the order of their names.
fn sorted_names<'a>(
    alloc: Global,
    places: &ByDirectory<'a>,
    parent: u32,
    first: u32,
) -> Result<Vec<(PathKey<'a>, u32)>, OutOfMemory> {
    let records = places.records;
    let mut names = Vec::new(alloc);
    let mut place = first;
    'names: for _ in 0..records.len() {
        let Some(key) = key_of(records, parent, place) else {
            break;
        };
        names.push((key, place))?;
        place = at(places.next, place);
    }
    names.sort_unstable();
    Ok(names)
}

// Puts the entries of a directory on the pile, the first one last.
fn pile(
    alloc: Global,
    places: &ByDirectory<'_>,
    parent: u32,
    first: u32,
    piled: &mut Vec<u32>,
) -> Result<(), OutOfMemory> {
    let count = places.records.len();
    if at(places.next, first) >= count {
        if first < count {
            piled.push(first)?;
        }
        return Ok(());
    }
    let names = sorted_names(alloc, places, parent, first)?;
    'sorted: for name in names.as_slice().iter().rev() {
        piled.push(name.1)?;
    }
    Ok(())
}

// Puts what is on the pile in order, each directory before what is in it.
fn put_below(
    alloc: Global,
    places: &ByDirectory<'_>,
    piled: &mut Vec<u32>,
) -> Result<Vec<u32>, OutOfMemory> {
    let count = places.records.len();
    let mut order = Vec::with_capacity(alloc, count as usize)?;
    'places: for _ in 0..count {
        let Some(place) = piled.pop() else {
            break;
        };
        order.push(place)?;
        pile(alloc, places, place, at(places.first, place), piled)?;
    }
    Ok(order)
}

// The order of a tree's entries, from those of no directory on.
fn order_from(alloc: Global, places: &ByDirectory<'_>, top: u32) -> Result<Vec<u32>, OutOfMemory> {
    let mut piled = Vec::new(alloc);
    pile(alloc, places, NONE, top, &mut piled)?;
    put_below(alloc, places, &mut piled)
}

// The order of a tree's entries, where each place is given with that of its directory.
fn order_below(
    alloc: Global,
    records: &Records,
    mut next: Vec<u32>,
) -> Result<Vec<u32>, OutOfMemory> {
    let (first, top) = first_ones(alloc, records.len(), next.as_mut_slice())?;
    let places = ByDirectory {
        records,
        next: next.as_slice(),
        first: first.as_slice(),
    };
    order_from(alloc, &places, top)
}

/// The order in which the records stand.
pub fn given_order(alloc: Global, records: &Records) -> Result<Vec<u32>, OutOfMemory> {
    let mut order = Vec::with_capacity(alloc, records.len() as usize)?;
    'records: for place in 0..records.len() {
        order.push(place)?;
    }
    Ok(order)
}

/// The order that is likely, or nothing where the records stand in no likely order.
pub fn guessed_order(alloc: Global, records: &Records) -> Result<Vec<u32>, OutOfMemory> {
    match parents_of(alloc, records)? {
        Some(parents) => order_below(alloc, records, parents),
        None => Ok(Vec::new(alloc)),
    }
}
