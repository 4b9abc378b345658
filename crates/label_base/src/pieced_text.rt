ghost use Rattle.std.specs.Prelude.{◌≡◌, ◌++◌, OnOk, OnErr, IfOk};
ghost use Rattle.std.specs.List.{concat};

use crate::bytes::Bytes;
use crate::memory::OutOfMemory;
use std::alloc::Global;
use std::marker::Model;

/// A text in pieces, which contracts see as one list: what several make needs no joining.
#[derive(Debug)]
pub struct PiecedText {
    pieces: Vec<Bytes>,
}

// By hand: one call for an owner, where a derived drop is a step for each field.
impl Drop for PiecedText {
    fn drop(self) {
        let PiecedText { pieces: _ } = self;
    }
}

impl Model for PiecedText {
    ghost use Rattle.std.specs.List.{concat};
    ghost use Rattle.std.specs.Prelude.{List, ℕ};

    ghost Value = { List ℕ };

    ghost view = { λ t. concat t.pieces.items };
}

impl PiecedText {
    /// A text of one piece.
    pub fn of(alloc: Global, piece: Bytes) -> Result<PiecedText, OutOfMemory>
        ensures { IfOk result (λ text. text ≡ piece) }
    {
        let mut pieces = Vec::new(alloc);
        pieces.push(piece)?;
        Ok(PiecedText { pieces })
    }

    /// Adds a piece at the end, and copies none of its bytes. After a refusal the text is
    /// unchanged, and the piece is dropped.
    pub fn push(&mut self, piece: Bytes) -> Result<(), OutOfMemory>
        ensures ok { OnOk result (self.new ≡ self.old ++ piece) }
        ensures err { OnErr result (self.new ≡ self.old) }
    {
        self.pieces.push(piece)?;
        Ok(())
    }

    /// All pieces, in order.
    pub fn pieces(&self) -> &[Bytes]
        ensures { concat result.now ≡ self.now }
    {
        self.pieces.as_slice()
    }

    /// A copy of the text, as one.
    pub fn joined(&self, alloc: Global) -> Result<Bytes, OutOfMemory>
        ensures { IfOk result (λ text. text ≡ self.now) }
    {
        let mut text = Bytes::new(alloc);
        let pieces = self.pieces.as_slice();
        'pieces: for piece in pieces {
            text.push(piece.as_slice())?;
        }
        Ok(text)
    }
}
