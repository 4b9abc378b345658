ghost use Rattle.std.specs.Prelude.{◌≡◌, ◌++◌, ◌∷◌, [], List, true, ◌+◌, ◌≤◌, length, IfOk, OnOk};
ghost use Rattle.find_records.specs.Profiles.{Profile};
ghost use Rattle.find_records.specs.Places.{ArePlaces, records_at};
ghost use Rattle.find_records.specs.Record.{Record};
ghost use Rattle.find_records.specs.Rows.{AreLaid, AreWithin, Fit, moved_to, row_text};

use crate::row::{RecordRow, text_at};
use label_base::OutOfMemory;
use std::alloc::Global;

// Rows and the texts of their paths, which stand in the order of the rows.
#[derive(Drop)]
pub struct Laid {
    pub texts: Vec<u8>,
    pub rows: Vec<RecordRow>,
}

/// Whether the places are those of so many records, each in its turn.
pub fn is_given(count: usize, places: &[u32]) -> bool
    ensures { result ≡ true → (records : List Record) → length records ≡ count
        → records_at records places.now ≡ records }
{
    if places.len() != count {
        return false;
    }
    'each: for i in 0..places.len() {
        if places[i] as usize != i {
            return false;
        }
    }
    true
}

// Lays a row and its text behind the others.
fn lay_row(laid: &mut Laid, texts: &[u8], row: &RecordRow) -> Result<(), OutOfMemory>
    requires { row.now.at + row.now.size ≤ length texts.now }
    ensures texts { OnOk result (laid.new.texts.items
        ≡ laid.old.texts.items ++ row_text texts.now row.now) }
    ensures rows { OnOk result (laid.new.rows.items
        ≡ laid.old.rows.items ++ moved_to (length laid.old.texts.items) row.now ∷ []) }
{
    let at = laid.texts.len();
    laid.texts.extend_from_slice(text_at(texts, row))?;
    laid.rows.push(RecordRow { at, ..*row })?;
    Ok(())
}

/// Lays the rows at these places and their texts anew, in the order of the places.
pub fn lay(
    alloc: Global,
    texts: &[u8],
    rows: &[RecordRow],
    places: &[u32],
) -> Result<Laid, OutOfMemory>
    requires fit { Fit texts.now rows.now }
    requires known { ArePlaces (length rows.now) places.now }
    ensures { IfOk result (λ laid. (profiles : List Profile) → AreWithin texts.now profiles rows.now
        → AreLaid texts.now profiles rows.now places.now laid.texts.items laid.rows.items) }
{
    let mut laid = Laid {
        texts: Vec::with_capacity(alloc, texts.len())?,
        rows: Vec::with_capacity(alloc, places.len())?,
    };
    'each: for i in 0..places.len() {
        let place = places[i];
        let row = &rows[place as usize];
        lay_row(&mut laid, texts, row)?;
    }
    Ok(laid)
}
