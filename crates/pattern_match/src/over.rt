ghost use Rattle.std.specs.Prelude.{◌≡◌, ℕ, length};
ghost use Rattle.pattern_match.specs.Operations.{AreOperationsOf, operations_tree};
ghost use Rattle.pattern_match.specs.Over.{HaveBits, ends_among, enters, operation_places};
ghost use Rattle.pattern_match.specs.States.{bit};

use crate::bits::{clear, has_bit};
use crate::entry::EnteredPlaces;
use crate::operation::Operation;
use crate::part::PatternPart;
use crate::passing::{PartStart, PassInput, pass};

/// How many places the automaton of the operations has, with that before the first byte.
pub fn place_count(operations: &[Operation]) -> usize
    requires { AreOperationsOf operations.now (operations_tree operations.now) }
    ensures { result ≡ length (operation_places operations.now) }
{
    PatternPart::of(operations).places() + 1
}

/// Makes the marks those of the places that follow a marked one and may be entered.
pub fn go_over(operations: &[Operation], entry: EnteredPlaces, from: &[u64], to: &mut [u64])
    requires bits { HaveBits operations.now (length from.now) }
    requires even { length to.old ≡ length from.now }
    ensures bits { (q : ℕ) → bit to.new q
        ≡ enters entry (operation_places operations.now) from.now q }
    ensures words { length to.new ≡ length to.old }
{
    clear(to);
    let part = PatternPart::of(operations);
    let turn = PartStart {
        start: 0,
        entered: has_bit(from, 0, part.places()),
    };
    pass(&PassInput { from, entry }, to, &part, turn);
}

/// Whether a text may end behind some marked place.
pub fn ends_over(operations: &[Operation], marks: &[u64]) -> bool
    requires { HaveBits operations.now (length marks.now) }
    ensures { result ≡ ends_among (operation_places operations.now) marks.now }
{
    let part = PatternPart::of(operations);
    let turn = PartStart {
        start: 0,
        entered: false,
    };
    let step = PassInput {
        from: marks,
        entry: EnteredPlaces::Barred,
    };
    let is_end = pass(&step, &mut [], &part, turn);
    is_end || (has_bit(marks, 0, part.places()) && part.holds_nothing())
}
