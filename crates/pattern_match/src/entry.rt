ghost use Rattle.std.specs.Prelude.{◌≡◌, ◌==◌};
ghost use Rattle.std.specs.List.{list_any};
ghost use Rattle.pattern_match.specs.Class.{class_bytes};
ghost use Rattle.pattern_match.specs.Passes.{is_barred, may_enter};

use crate::class::Class;

/// Which of the places that follow may be entered.
#[derive(Clone, Copy)]
pub enum EnteredPlaces {
    /// None.
    Barred,
    /// All.
    Free,
    /// Those that take this byte.
    By(u8),
    /// Those that take every byte that texts have.
    ByEach,
}

// Whether the byte is one of the class's.
fn has_byte(class: &Class, byte: u8) -> bool
    ensures { result ≡ list_any (λ c. c == byte) (class_bytes class.now) }
{
    class.has(byte)
}

impl EnteredPlaces {
    /// Whether no place may be entered.
    pub fn is_barred(&self) -> bool
        ensures { result ≡ is_barred self.now }
    {
        matches!(self, EnteredPlaces::Barred)
    }

    /// Whether a place of this class may be entered.
    pub fn admits(&self, class: &Class) -> bool
        ensures { result ≡ may_enter self.now (class_bytes class.now) }
    {
        match self {
            EnteredPlaces::Barred => false,
            EnteredPlaces::Free => true,
            EnteredPlaces::By(byte) => has_byte(class, *byte),
            EnteredPlaces::ByEach => class.has_each(),
        }
    }
}
