ghost use Rattle.std.specs.Prelude.{◌≡◌, ◌+◌, ◌*◌, ◌<◌, ◌==◌, ℕ, IfOk, length, map, slice_get};
ghost use Rattle.std.specs.List.{list_any};
ghost use Rattle.pattern_match.specs.States.{bit};
ghost use Rattle.pattern_match.specs.Class.{class_bytes};
ghost use Rattle.pattern_match.specs.Tables.{leads, ends, bytes_in};

use crate::bits::{clear, no_bits, set_if};
use crate::class::Class;
use crate::position::Position;
use label_base::OutOfMemory;
use std::alloc::Global;

// Marks the positions that may follow one.
fn mark_next(row: &mut Vec<u64>, position: &Position)
    ensures bits { (k : ℕ) → k < 64 * length row.old.items
        → bit row.new.items k ≡ list_any (λ n. n == k) position.now.next }
    ensures words { length row.new.items ≡ length row.old.items }
{
    clear(row);
    for number in position.next() {
        set_if(row, *number as usize, true);
    }
}

// Marks the positions behind which a text may end.
fn mark_last(row: &mut Vec<u64>, positions: &[Position])
    ensures bits { (k : ℕ) → k < 64 * length row.old.items
        → bit row.new.items k ≡ ends (slice_get positions.now k) }
    ensures words { length row.new.items ≡ length row.old.items }
{
    clear(row);
    for (i, position) in positions.iter().enumerate() {
        set_if(row, i, position.is_last());
    }
}

/// A row of so many words for each position: the positions that may follow it.
pub fn follow_table(
    alloc: Global,
    positions: &[Position],
    width: usize,
) -> Result<Vec<u64>, OutOfMemory>
    ensures words { IfOk result (λ table. length table.items ≡ length positions.now * width) }
    ensures bits { IfOk result (λ table. (p k : ℕ) → p < length positions.now → k < 64 * width
        → bit table.items (64 * (p * width) + k) ≡ leads (slice_get positions.now p) k) }
{
    let mut row = no_bits(alloc, width)?;
    let mut table = Vec::new(alloc);
    for position in positions {
        mark_next(&mut row, position);
        table.extend_from_slice(row.as_slice())?;
    }
    Ok(table)
}

/// The positions behind which a text may end, in so many words.
pub fn accept_row(
    alloc: Global,
    positions: &[Position],
    width: usize,
) -> Result<Vec<u64>, OutOfMemory>
    ensures words { IfOk result (λ row. length row.items ≡ width) }
    ensures bits { IfOk result (λ row. (k : ℕ) → k < 64 * width
        → bit row.items k ≡ ends (slice_get positions.now k)) }
{
    let mut row = no_bits(alloc, width)?;
    mark_last(&mut row, positions);
    Ok(row)
}

/// The bytes that lead to each position.
pub fn classes_of(alloc: Global, positions: &[Position]) -> Result<Vec<Class>, OutOfMemory>
    ensures { IfOk result (λ classes. map class_bytes classes.items ≡ map bytes_in positions.now) }
{
    let mut classes = Vec::with_capacity(alloc, positions.len())?;
    'positions: for position in positions {
        classes.push(position.class())?;
    }
    Ok(classes)
}
