ghost use Rattle.std.specs.Prelude.{◌≡◌, ◌++◌, ◌∷◌, ◌<◌, ◌^◌, [], true, get_or, length, slice_get};
ghost use Rattle.std.specs.Prelude.{Some, IfOk, IfSome, OnOk, OnErr};
ghost use Rattle.context_syntax.specs.Label.{label_of, same_label};
ghost use Rattle.find_records.specs.Labels.{Extends};
ghost use Rattle.find_records.specs.ProfileRef.{profile_lent};
ghost use Rattle.find_records.specs.Profiles.{AreProfileRows, IsWithRow, no_profile};
ghost use Rattle.find_records.specs.Profiles.{profile_of, profiles_in};

use crate::all_labels::AllLabels;
use crate::entry::RawRecord;
use crate::guesses::Guesses;
use crate::profile_row::ProfileRow;
use context_syntax::Label;
use label_base::OutOfMemory;
use std::alloc::Global;
use std::collections::BTreeMap;
use std::marker::Model;

/// What many records have in common.
#[derive(Clone, Copy)]
pub struct ProfileRef<'a> {
    pub device: u64,
    pub links: Option<u64>,
    pub label: &'a Label,
}

// Where the numbers of rows are found. Nothing is claimed of them: what they give is compared.
#[derive(Drop)]
struct RowNumbers {
    // In order, as those of spellings are.
    by_row: BTreeMap<ProfileRow, u32>,
    guesses: Guesses,
}

impl RowNumbers {
    // No numbers.
    fn new(alloc: Global) -> RowNumbers {
        RowNumbers {
            by_row: BTreeMap::new(alloc),
            guesses: Guesses::new(alloc),
        }
    }
}

// The devices, link counts and labels of records, seen as the list of what goes together. They are
// found by their number, from 0 on. So a record without a link count costs nothing for it.
#[derive(Drop)]
pub struct Profiles {
    labels: AllLabels,
    rows: Vec<ProfileRow>,
    numbers: RowNumbers,
}

impl Model for Profiles {
    ghost use Rattle.std.specs.Prelude.{List};
    ghost use Rattle.find_records.specs.Profiles.{AreProfileRows, Profile, profiles_in};

    ghost Value = { List Profile };

    ghost view = { λ m. profiles_in m.labels m.rows.items };

    ghost invariant = { λ m. AreProfileRows m.labels m.rows.items };
}

// The row with a number.
fn row_at(rows: &[ProfileRow], number: u32) -> ProfileRow
    requires { number < length rows.now }
    ensures { slice_get rows.now number ≡ Some result }
{
    rows[number as usize]
}

// Whether the row with a number is this one.
fn is_row(rows: &[ProfileRow], number: u32, row: ProfileRow) -> bool
    ensures { result ≡ true → slice_get rows.now number ≡ Some row }
{
    match rows.get(number as usize) {
        Some(found) => *found == row,
        None => false,
    }
}

// The number, if that row has it.
fn number_known(rows: &[ProfileRow], number: Option<u32>, row: ProfileRow) -> Option<u32>
    ensures { IfSome result (λ number. slice_get rows.now number ≡ Some row) }
{
    let number = number?;
    if is_row(rows, number, row) {
        return Some(number);
    }
    None
}

// The number of a row that is there, which mixes to this: one that is guessed, or one that is
// found.
fn number_in(rows: &[ProfileRow], numbers: &RowNumbers, mixed: u64, row: ProfileRow) -> Option<u32>
    ensures { IfSome result (λ number. slice_get rows.now number ≡ Some row) }
{
    let guess = numbers.guesses.get(mixed);
    if is_row(rows, guess, row) {
        return Some(guess);
    }
    number_known(rows, numbers.by_row.get(&row).copied(), row)
}

// Adds a row behind the others: its number. There is no memory for more than there are numbers.
fn add_row(rows: &mut Vec<ProfileRow>, row: ProfileRow) -> Result<u32, OutOfMemory>
    requires { length rows.old.items < 2 ^ 32 }
    ensures number { IfOk result (λ number. slice_get rows.new.items number ≡ Some row) }
    ensures added { OnOk result (rows.new.items ≡ rows.old.items ++ row ∷ []) }
    ensures few { length rows.new.items < 2 ^ 32 }
    ensures err { OnErr result (rows.new.items ≡ rows.old.items) }
{
    if rows.len() >= u32::MAX as usize {
        return Err(OutOfMemory);
    }
    let number = rows.len() as u32;
    rows.push(row)?;
    Ok(number)
}

// The number of a row, which is added unless it is the one that is guessed.
fn number_behind(
    rows: &mut Vec<ProfileRow>,
    guess: u32,
    row: ProfileRow,
) -> Result<u32, OutOfMemory>
    requires { length rows.old.items < 2 ^ 32 }
    ensures number { IfOk result (λ number. slice_get rows.new.items number ≡ Some row) }
    ensures with { IsWithRow rows.old.items row rows.new.items }
    ensures few { length rows.new.items < 2 ^ 32 }
    ensures err { OnErr result (rows.new.items ≡ rows.old.items) }
{
    if is_row(rows.as_slice(), guess, row) {
        return Ok(guess);
    }
    add_row(rows, row)
}

// The number of a row, which is added if no guess leads to it.
pub fn number_guessed(
    rows: &mut Vec<ProfileRow>,
    guesses: &mut Guesses,
    row: ProfileRow,
) -> Result<u32, OutOfMemory>
    requires { length rows.old.items < 2 ^ 32 }
    ensures number { IfOk result (λ number. slice_get rows.new.items number ≡ Some row) }
    ensures with { IsWithRow rows.old.items row rows.new.items }
    ensures few { length rows.new.items < 2 ^ 32 }
    ensures err { OnErr result (rows.new.items ≡ rows.old.items) }
{
    let mixed = row.mixed();
    let number = number_behind(rows, guesses.get(mixed), row)?;
    guesses.keep(mixed, number);
    Ok(number)
}

// The number of a row, which is added and noted if it is new.
fn number_of(
    alloc: Global,
    rows: &mut Vec<ProfileRow>,
    numbers: &mut RowNumbers,
    row: ProfileRow,
) -> Result<u32, OutOfMemory>
    requires { length rows.old.items < 2 ^ 32 }
    ensures number { IfOk result (λ number. slice_get rows.new.items number ≡ Some row) }
    ensures with { IsWithRow rows.old.items row rows.new.items }
    ensures few { length rows.new.items < 2 ^ 32 }
    ensures err { OnErr result (rows.new.items ≡ rows.old.items) }
{
    let mixed = row.mixed();
    if let Some(number) = number_in(rows.as_slice(), numbers, mixed, row) {
        numbers.guesses.keep(mixed, number);
        return Ok(number);
    }
    numbers.guesses.make_room(alloc)?;
    let number = rows.len() as u32;
    let _ = numbers.by_row.insert(row, number)?;
    numbers.guesses.keep(mixed, number);
    add_row(rows, row)
}

// The number of the device, the link count and the label that are told, which are added if they are
// new.
fn profile_number(
    alloc: Global,
    labels: &mut AllLabels,
    rows: &mut Vec<ProfileRow>,
    numbers: &mut RowNumbers,
    raw: &RawRecord<'_>,
) -> Result<u32, OutOfMemory>
    requires { AreProfileRows labels.old rows.old.items }
    ensures profiles { AreProfileRows labels.new rows.new.items }
    ensures number { IfOk result (λ number. slice_get (profiles_in labels.new rows.new.items) number
        ≡ Some (profile_of raw.now.device raw.now.links (label_of raw.now.label.now))) }
    ensures extends { Extends (profiles_in labels.old rows.old.items)
        (profiles_in labels.new rows.new.items) }
    ensures same { OnErr result (profiles_in labels.new rows.new.items
        ≡ profiles_in labels.old rows.old.items) }
{
    let label = labels.number_of(alloc, raw.label)?;
    let row = ProfileRow {
        device: raw.device,
        links: raw.links,
        label,
    };
    number_of(alloc, rows, numbers, row)
}

impl Profiles {
    // No records.
    pub fn new(alloc: Global) -> Profiles
        ensures { result ≡ [] }
    {
        Profiles {
            labels: AllLabels::new(alloc),
            rows: Vec::new(alloc),
            numbers: RowNumbers::new(alloc),
        }
    }

    // The profiles of these rows, whose labels are these.
    pub fn of_rows(alloc: Global, labels: Vec<Label>, rows: Vec<ProfileRow>) -> Profiles
        requires { AreProfileRows labels.items rows.items }
        ensures { result ≡ profiles_in labels.items rows.items }
    {
        Profiles {
            labels: AllLabels::of_given(alloc, labels),
            rows,
            numbers: RowNumbers::new(alloc),
        }
    }

    // The profile with a number.
    pub fn get(&self, number: u32) -> ProfileRef<'_>
        requires { number < length self.now }
        ensures { slice_get self.now number ≡ Some (profile_lent result) }
    {
        let row = row_at(self.rows.as_slice(), number);
        ProfileRef {
            device: row.device,
            links: row.links,
            label: self.labels.get(row.label),
        }
    }

    // Whether the labels with two numbers are the same.
    pub fn has_same_label(&self, first: u32, second: u32) -> bool
        requires first { first < length self.now }
        requires second { second < length self.now }
        ensures { result ≡ same_label (get_or self.now first no_profile).label
            (get_or self.now second no_profile).label }
    {
        let first = row_at(self.rows.as_slice(), first);
        let second = row_at(self.rows.as_slice(), second);
        self.labels.is_same(first.label, second.label)
    }

    // The number of the device, the link count and the label that are told, which are added if they
    // are new.
    pub fn number_of(&mut self, alloc: Global, raw: &RawRecord<'_>) -> Result<u32, OutOfMemory>
        ensures number { IfOk result (λ number. slice_get self.new number
            ≡ Some (profile_of raw.now.device raw.now.links (label_of raw.now.label.now))) }
        ensures extends { Extends self.old self.new }
        ensures same { OnErr result (self.new ≡ self.old) }
    {
        profile_number(
            alloc,
            &mut self.labels,
            &mut self.rows,
            &mut self.numbers,
            raw,
        )
    }
}
