ghost use Rattle.std.specs.Prelude.{◌≡◌, ◌<◌};
ghost use Rattle.inode_claims.specs.Answers.{group_count, winner_of};

use walk_steps::NONE_WORD;

/// The least position that was claimed for each group.
#[derive(Drop)]
pub struct Winners {
    // The word of group g at g.
    pub(crate) words: Vec<u64>,
    pub(crate) claims: u64,
}

impl Winners {
    /// The position that won a group, if anything claimed it.
    pub fn get(&self, group: u32) -> Option<u64>
        requires { group < group_count self.now }
        ensures { result ≡ winner_of self.now group }
    {
        let word = self.words[group as usize];
        if word == NONE_WORD { None } else { Some(word) }
    }

    /// How many calls the closing pass held, or `u64::MAX` where there were more.
    pub fn claims(&self) -> u64
        ensures { result ≡ self.now.claims }
    {
        self.claims
    }
}
