use std::marker::Model;

// The bytes of the void digest.
const VOID_BYTES: [u8; 20] = [0; 20];

/// The digest of a directory, seen by contracts as its bytes.
#[derive(Clone, Copy, Debug, PartialEq, Eq)]
pub struct Digest {
    pub(crate) bytes: [u8; 20],
}

impl Model for Digest {
    ghost use Rattle.std.specs.Prelude.{ℕ, List};

    ghost Value = { List ℕ };

    ghost view = { λ d. d.bytes };

    ghost inverse = { λ bytes. record { bytes = bytes } };
}

impl Digest {
    ghost use Rattle.std.specs.Prelude.{◌≡◌};

    /// The digest of a directory whose labels have changed since one was made: twenty zero bytes.
    pub const VOID: Digest = Digest { bytes: VOID_BYTES };

    /// Its bytes.
    pub fn as_bytes(&self) -> &[u8]
        ensures { result.now ≡ self.now }
    {
        &self.bytes
    }
}
