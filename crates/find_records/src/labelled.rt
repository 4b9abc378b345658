ghost use Rattle.std.specs.Prelude.{◌≡◌, ◌<◌, ℕ, List, length, IfOk};
ghost use Rattle.std.specs.List.{AllByRecursion};
ghost use Rattle.context_syntax.specs.declared.label.Label.{Label};
ghost use Rattle.find_records.specs.Labelled.{ArePaired};
ghost use Rattle.find_records.specs.Places.{ArePlaces};
ghost use Rattle.find_records.specs.Rows.{AreWithin};

use crate::guesses::Guesses;
use crate::profile_row::ProfileRow;
use crate::profiles::{Profiles, number_guessed};
use crate::row::RecordRow;
use context_syntax::Label;
use label_base::{OutOfMemory, Row};
use std::alloc::Global;

/// Copies of labels.
pub fn copy_labels(alloc: Global, labels: &Row<Label>) -> Result<Vec<Label>, OutOfMemory>
    ensures { IfOk result (λ copies. copies.items ≡ labels.now) }
{
    let mut copies = Vec::with_capacity(alloc, labels.len())?;
    'labels: for i in 0..labels.len() {
        copies.push(labels.get(i).copy(alloc)?)?;
    }
    Ok(copies)
}

// Rows, and the profiles that they have.
#[derive(Drop)]
pub struct Profiled {
    pub profiles: Vec<ProfileRow>,
    pub rows: Vec<RecordRow>,
}

/// The rows as they are, but for their labels, of which each is that with this number.
pub fn profile_rows(
    alloc: Global,
    profiles: &Profiles,
    rows: &[RecordRow],
    numbers: &[u32],
) -> Result<Profiled, OutOfMemory>
    requires counted { length numbers.now ≡ length rows.now }
    requires known { AllByRecursion (λ row. row.profile < length profiles.now) rows.now }
    ensures { IfOk result (λ profiled. (texts : List ℕ) → (labels : List Label)
        → ArePlaces (length labels) numbers.now → AreWithin texts profiles.now rows.now
        → ArePaired texts profiles.now rows.now numbers.now labels profiled.profiles.items
        profiled.rows.items) }
{
    let mut profiled = Profiled {
        profiles: Vec::new(alloc),
        rows: Vec::with_capacity(alloc, rows.len())?,
    };
    let mut guesses = Guesses::new(alloc);
    guesses.make_room(alloc)?;
    'rows: for i in 0..rows.len() {
        let row = &rows[i];
        let given = profiles.get(row.profile);
        let own = ProfileRow {
            device: given.device,
            links: given.links,
            label: numbers[i],
        };
        let profile = number_guessed(&mut profiled.profiles, &mut guesses, own)?;
        profiled.rows.push(RecordRow { profile, ..*row })?;
    }
    Ok(profiled)
}
