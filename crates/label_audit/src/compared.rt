ghost use Rattle.std.specs.Prelude.{◌≡◌, ◌∷◌, [], List, is_some};
ghost use Rattle.label_audit.specs.Compared.{next_behind};
ghost use Rattle.label_audit.specs.Pieces.{PlacedPiece, differing, piece_placed};

use run_faults::Piece;

/// A file that is compared with pieces, one after the other: the bytes behind those that stood, and
/// the first that didn't.
#[derive(Clone, Copy)]
pub struct Compared<'f> {
    left: &'f [u8],
    differs: Option<Piece>,
}

impl<'f> Compared<'f> {
    /// A file of these bytes, before its first piece.
    pub fn new(bytes: &'f [u8]) -> Compared<'f>
        ensures { (pieces : List PlacedPiece) → next_behind result pieces ≡ differing pieces
            bytes.now }
    {
        Compared {
            left: bytes,
            differs: None,
        }
    }

    /// Whether a piece didn't stand.
    pub fn has_differed(&self) -> bool
        ensures { result ≡ is_some self.now.differs }
    {
        self.differs.is_some()
    }

    /// Compares the next piece, unless one before it didn't stand.
    pub fn compare(&mut self, piece: Piece, text: &[u8])
        ensures { (pieces : List PlacedPiece)
            → next_behind self.new pieces ≡ next_behind self.old
            (piece_placed piece text.now ∷ pieces) }
    {
        if self.differs.is_some() {
            return;
        }
        match self.left.strip_prefix(text) {
            Some(left) => self.left = left,
            None => self.differs = Some(piece),
        }
    }

    /// The first piece that didn't stand, where all were compared: it is the end where bytes are
    /// left.
    pub fn end(&self) -> Option<Piece>
        ensures { result ≡ next_behind self.now [] }
    {
        if self.differs.is_some() {
            return self.differs;
        }
        if self.left.is_empty() {
            return None;
        }
        Some(Piece::End)
    }
}
