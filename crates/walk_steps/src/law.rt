ghost use Rattle.std.specs.Prelude.{◌≡◌, ℕ, Bool, List, ◌<◌, ◌≤◌, slice_index};
ghost use Rattle.walk_steps.specs.Constants.{ConstantsAreStated};
ghost use Rattle.walk_steps.specs.declared.machine.TheConstants.{NONE_WORD};
ghost use Rattle.walk_steps.specs.declared.machine.WalkState.{WalkState};
ghost use Rattle.walk_steps.specs.Shaped.{IsValid, entry_count};
ghost use Rattle.walk_steps.specs.Sound.{Sound, WordsAreLeast};
ghost use Rattle.walk_steps.specs.Ends.{LeadsToJob, HasEnded, IsTheEnd};

use crate::shape::Shape;

/// The law of ends. Whichever jobs are open and whichever entries wanted, a sound state in which
/// nothing is left to do is the one end: the taken jobs are the open ones, and each word is the
/// least wanted entry of its group. So it is the same however many workers there were, and whatever
/// each did when.
pub fn ends_are_one(shape: &Shape)
    requires { IsValid shape.now }
    ensures end { (open_job wanted : ℕ → Bool) (claimed : List ℕ) (state : WalkState)
        → LeadsToJob shape.now open_job wanted
        → Sound shape.now state → WordsAreLeast shape.now claimed state.words
        → HasEnded shape.now open_job wanted claimed state
        → IsTheEnd shape.now open_job wanted state }
    ensures one { (open_job wanted : ℕ → Bool) (a b : WalkState) → entry_count shape.now ≤ NONE_WORD
        → IsTheEnd shape.now open_job wanted a → IsTheEnd shape.now open_job wanted b
        → (group : ℕ) → group < shape.now.groups
        → slice_index a.words group ≡ slice_index b.words group }
{
    let _shape = shape;
}

/// A law: the constants are those of `specs/Constants.antt`. It does nothing.
pub fn constants_are_stated()
    ensures { ConstantsAreStated }
{}
