use crate::workspace::Workspace;
use std::marker::Model;

/// What look-ups in one [`RuleSet`](crate::RuleSet) work in, so that they take no memory: the
/// states in which its patterns are matched, and what earlier look-ups found out.
#[derive(Drop)]
pub struct Scratch {
    // It stands apart, so that a scratch is a word to whoever owns it.
    pub(crate) room: Box<Workspace>,
}

impl Model for Scratch {
    ghost use Rattle.spec_match.specs.Scratches.{ScratchParts};
    ghost use Rattle.spec_match.specs.Workspaces.{room_in};

    ghost Value = { ScratchParts };

    ghost view = { λ s. room_in s.room.value };
}

impl Scratch {
    /// How many specifications' states were looked at by all look-ups in this scratch, as far as a
    /// number of 64 bits goes.
    pub fn tried(&self) -> u64 {
        let by_tables = self.room.table.tried.saturating_add(self.room.whole.tried);
        self.room.trials.tried.saturating_add(by_tables)
    }
}
