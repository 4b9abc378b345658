ghost use Rattle.std.specs.Prelude.{◌≡◌, IfOk};
ghost use Rattle.relabel_core.specs.Numbers.{as_found, entered_at, entered_if, found_in};
ghost use Rattle.relabel_core.specs.Numbers.{found_number, no_numbers, put_at};

use label_base::OutOfMemory;
use std::alloc::Global;

// What stands for no number.
const NONE: u32 = u32::MAX;

fn as_found(number: u32) -> Option<u32>
    ensures { result ≡ as_found number }
{
    if number == NONE {
        return None;
    }
    Some(number)
}

/// The number that a row has at an index, if it has one there.
pub fn found_in(numbers: &[u32], i: u32) -> Option<u32>
    ensures { result ≡ found_in numbers.now i }
{
    match numbers.get(i as usize) {
        Some(number) => as_found(*number),
        None => None,
    }
}

// What is kept of a number, or of none.
fn number_of(found: Option<u32>) -> u32
    ensures { result ≡ found_number found }
{
    match found {
        Some(number) => number,
        None => NONE,
    }
}

/// Puts a number at an index where the flag is set, there is room, and no number is there.
pub fn enter_if(flag: bool, numbers: &mut Vec<u32>, i: u32, number: u32)
    ensures { numbers.new.items ≡ entered_if flag numbers.old.items i number }
{
    if flag {
        enter(numbers, i, number);
    }
}

fn enter(numbers: &mut Vec<u32>, i: u32, number: u32)
    ensures { numbers.new.items ≡ entered_at numbers.old.items i number }
{
    if (i as usize) < numbers.len() && found_in(numbers, i).is_none() {
        numbers[i as usize] = number;
    }
}

fn put(numbers: &mut Vec<u32>, i: u32, number: u32)
    ensures { numbers.new.items ≡ put_at numbers.old.items i number }
{
    if (i as usize) < numbers.len() {
        numbers[i as usize] = number;
    }
}

/// Puts a number, or none, at an index, if there is room for it.
pub fn put_number(numbers: &mut Vec<u32>, i: u32, found: Option<u32>)
    ensures { numbers.new.items ≡ put_at numbers.old.items i (found_number found) }
{
    put(numbers, i, number_of(found));
}

/// So many places without a number.
pub fn no_numbers(alloc: Global, count: u32) -> Result<Vec<u32>, OutOfMemory>
    ensures { IfOk result (λ numbers. numbers.items ≡ no_numbers count) }
{
    let mut numbers = Vec::with_capacity(alloc, count as usize)?;
    'places: for _ in 0..count {
        numbers.push(NONE)?;
    }
    Ok(numbers)
}
