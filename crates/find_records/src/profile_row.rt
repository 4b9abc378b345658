use crate::guesses::mix;

/// What is kept of a profile: its device, its link count, if it has one, and its label's number.
#[derive(Clone, Copy, PartialEq, Eq, PartialOrd, Ord)]
pub struct ProfileRow {
    pub device: u64,
    pub links: Option<u64>,
    pub label: u32,
}

impl ProfileRow {
    /// Its fields, mixed to one word.
    pub fn mixed(&self) -> u64 {
        let front = mix(self.device, u64::from(self.label));
        match self.links {
            Some(links) => mix(front, links),
            None => front,
        }
    }
}
