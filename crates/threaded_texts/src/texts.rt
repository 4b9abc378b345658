ghost use Rattle.std.specs.Prelude.{◌≡◌, ◌<◌, ◌++◌, ℕ, List, OnOk};

use label_base::{Bytes, OutOfMemory};
use std::alloc::Global;

/// Texts with numbers from 0 on, each of which is made by itself.
pub trait Texts {
    /// How many there are.
    ghost count: { Self → ℕ };

    /// The one with a number.
    ghost text: { Self → ℕ → List ℕ };

    /// Adds the text with a number at the end. A buffer is lent in which a part of it is made.
    fn add(
        &self,
        alloc: Global,
        number: u32,
        buffer: &mut Bytes,
        to: &mut Bytes,
    ) -> Result<(), OutOfMemory>
        requires { number < count self.now }
        ensures { OnOk result (to.new ≡ to.old ++ text self.now number) };
}
