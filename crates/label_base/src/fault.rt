ghost use Rattle.std.specs.Prelude.{◌≡◌};
ghost use Rattle.std.specs.Option.{option_map};
ghost use Rattle.label_base.specs.Answers.{fault_cause};
ghost use Rattle.label_base.specs.declared.fault.Fault.TheVariants as faults;

use crate::memory;

/// Why a call gave nothing: a reason, or want of memory.
#[derive(Clone, Copy, Debug, PartialEq, Eq)]
pub enum Fault<W> {
    /// What was given is refused for this reason.
    Why(W),
    /// There was not enough memory.
    OutOfMemory,
}

impl<W> From<memory::OutOfMemory> for Fault<W> {
    ghost from_gives = { λ _ e. e ≡ faults.OutOfMemory };

    fn from(_refused: memory::OutOfMemory) -> Fault<W> {
        Fault::OutOfMemory
    }
}

impl<W: Copy> Fault<W> {
    /// The reason, or none where memory was wanting.
    pub fn why(&self) -> Option<W>
        ensures { result ≡ fault_cause self.now }
    {
        match self {
            Fault::Why(why) => Some(*why),
            Fault::OutOfMemory => None,
        }
    }

    /// The same for this reason; want of memory stays what it is.
    pub fn because<V: Copy>(&self, why: V) -> Fault<V>
        ensures { fault_cause result ≡ option_map (λ _. why) (fault_cause self.now) }
    {
        match self {
            Fault::Why(_) => Fault::Why(why),
            Fault::OutOfMemory => Fault::OutOfMemory,
        }
    }
}
