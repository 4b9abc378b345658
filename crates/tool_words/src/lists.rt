ghost use Rattle.std.specs.Prelude.{◌≡◌, ◌++◌, ◌∷◌, [], IfOk, OnOk};
ghost use Rattle.tool_words.specs.Words.{given_paths, operand_paths, paths_of, values_of};

use crate::item::Item;
use crate::said::{is_given, is_operand};
use file_paths::NormPath;
use label_base::{Fault, Name, OutOfMemory, Row};
use std::alloc::Global;

// Adds the path that a text spells, if it spells one.
fn add_path(alloc: Global, text: &str, paths: &mut Row<NormPath>) -> Result<(), OutOfMemory>
    ensures { OnOk result (paths.new ≡ paths.old ++ paths_of (text.now ∷ [])) }
{
    match NormPath::read(alloc, text.as_bytes()) {
        Ok(path) => paths.push(path),
        Err(Fault::Why(_)) => Ok(()),
        Err(Fault::OutOfMemory) => Err(OutOfMemory),
    }
}

fn add_operand_path(
    alloc: Global,
    item: &Item<'_>,
    paths: &mut Row<NormPath>,
) -> Result<(), OutOfMemory>
    ensures { OnOk result (paths.new
        ≡ paths.old ++ operand_paths (item.now ∷ [])) }
{
    if is_operand(item) {
        add_path(alloc, item.text, paths)
    } else {
        Ok(())
    }
}

/// The paths among the operands, in their order.
pub fn operands(alloc: Global, items: &[Item<'_>]) -> Result<Row<NormPath>, OutOfMemory>
    ensures { IfOk result (λ paths. paths ≡ operand_paths items.now) }
{
    let mut paths = Row::new(alloc);
    'items: for item in items {
        add_operand_path(alloc, item, &mut paths)?;
    }
    Ok(paths)
}

fn add_given_path(
    alloc: Global,
    letter: u8,
    item: &Item<'_>,
    paths: &mut Row<NormPath>,
) -> Result<(), OutOfMemory>
    ensures { OnOk result (paths.new
        ≡ paths.old ++ given_paths letter (item.now ∷ [])) }
{
    if is_given(letter, item) {
        add_path(alloc, item.text, paths)
    } else {
        Ok(())
    }
}

/// The paths among the values of a letter, in their order.
pub fn paths_given(
    alloc: Global,
    letter: u8,
    items: &[Item<'_>],
) -> Result<Row<NormPath>, OutOfMemory>
    ensures { IfOk result (λ paths. paths ≡ given_paths letter items.now) }
{
    let mut paths = Row::new(alloc);
    'items: for item in items {
        add_given_path(alloc, letter, item, &mut paths)?;
    }
    Ok(paths)
}

fn add_name(
    alloc: Global,
    letter: u8,
    item: &Item<'_>,
    names: &mut Row<Name>,
) -> Result<(), OutOfMemory>
    ensures { OnOk result (names.new ≡ names.old ++ values_of letter (item.now ∷ [])) }
{
    if is_given(letter, item) {
        names.push(Name::copy_of(alloc, item.text)?)
    } else {
        Ok(())
    }
}

/// The names of files among the values of a letter, in their order.
pub fn names_of(alloc: Global, letter: u8, items: &[Item<'_>]) -> Result<Row<Name>, OutOfMemory>
    ensures { IfOk result (λ names. names ≡ values_of letter items.now) }
{
    let mut names = Row::new(alloc);
    'items: for item in items {
        add_name(alloc, letter, item, &mut names)?;
    }
    Ok(names)
}
