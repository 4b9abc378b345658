ghost use Rattle.std.specs.Prelude.{◌≡◌};
ghost use Rattle.tree_model.specs.declared.fault.TreeFault.TheVariants.{OutOfMemory};

/// Why records make no tree. Records are numbered from 1.
#[derive(Clone, Copy, Debug, PartialEq, Eq)]
pub enum TreeFault {
    /// Two records have one path, and differ in kind, device, inode or label.
    Doubled {
        /// The least number with that path.
        first: u32,
        /// The least number whose path an earlier record has with another field.
        second: u32,
    },
    OutOfMemory,
}

impl From<label_base::OutOfMemory> for TreeFault {
    ghost from_gives = { λ _ e. e ≡ OutOfMemory };

    fn from(_refused: label_base::OutOfMemory) -> TreeFault {
        TreeFault::OutOfMemory
    }
}
