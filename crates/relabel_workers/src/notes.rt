ghost use Rattle.std.specs.Prelude.{◌≡◌, ◌++◌, ◌∷◌, [], IfOk, OnOk};
ghost use Rattle.std.specs.List.{flat_map};

use crate::note::Note;
use label_base::OutOfMemory;
use std::alloc::Global;
use std::marker::Model;

/// What was found of entries, in the order in which it was noted. Contracts see the list of the
/// notes.
#[derive(Drop)]
pub struct Notes {
    // Behind one another; the last one follows them.
    pub(crate) full: Vec<Vec<Note>>,
    pub(crate) last: Vec<Note>,
}

impl Model for Notes {
    ghost use Rattle.std.specs.Prelude.{List, ◌++◌};
    ghost use Rattle.std.specs.List.{flat_map};
    ghost use Rattle.relabel_workers.specs.declared.note.Note.{Note};

    ghost Value = { List Note };

    ghost view = { λ n. flat_map (λ row. row.items) n.full.items ++ n.last.items };
}

// The rows behind others.
fn add_rows(rows: &mut Vec<Vec<Note>>, more: Vec<Vec<Note>>) -> Result<(), OutOfMemory>
    ensures { OnOk result (rows.new.items ≡ rows.old.items ++ more.items) }
{
    'rows: for row in more {
        rows.push(row)?;
    }
    Ok(())
}

// One note behind others. The look at its digest tells the check of a type that it would miss at
// the push.
fn add_note(notes: &mut Vec<Note>, note: Note) -> Result<(), OutOfMemory>
    ensures { OnOk result (notes.new.items ≡ notes.old.items ++ note ∷ []) }
{
    let _ = note.finding.digest.is_some();
    notes.push(note)?;
    Ok(())
}

impl Notes {
    /// Nothing is noted yet.
    pub fn new(alloc: Global) -> Notes
        ensures { result ≡ [] }
    {
        Notes {
            full: Vec::new(alloc),
            last: Vec::new(alloc),
        }
    }

    /// One note more.
    pub fn push(&mut self, note: Note) -> Result<(), OutOfMemory>
        ensures { OnOk result (self.new ≡ self.old ++ note ∷ []) }
    {
        add_note(&mut self.last, note)
    }

    /// The notes of the one, and behind them those of the other. No note is copied.
    pub fn with(self, more: Notes) -> Result<Notes, OutOfMemory>
        ensures { IfOk result (λ notes. notes ≡ self ++ more) }
    {
        let Notes { mut full, last } = self;
        let Notes {
            full: more_full,
            last: more_last,
        } = more;
        full.push(last)?;
        add_rows(&mut full, more_full)?;
        Ok(Notes {
            full,
            last: more_last,
        })
    }
}
