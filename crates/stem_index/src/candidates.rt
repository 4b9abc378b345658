ghost use Rattle.std.specs.Prelude.{◌≡◌, ◌<◌, [], List, ℕ, Some, length};
ghost use Rattle.std.specs.Iterator.{YieldsFirst, item_count};
ghost use Rattle.label_base.specs.Bounded.{greater};
ghost use Rattle.stem_index.specs.Kept.{AreStemHeads, last_stem_with};
ghost use Rattle.stem_index.specs.Stems.{candidates_below};

use crate::stem_index::StemIndex;
use std::marker::Model;

/// Indices of texts that may stand for a path, seen as the list of those that are left, in
/// descending order.
#[derive(Drop)]
pub struct Candidates<'a> {
    index: &'a StemIndex,
    // The path's first name.
    name: &'a [u8],
    // All that are left are below it.
    bound: u32,
    // The last one below it without a stem, and the last one with the name for its stem.
    free: Option<u32>,
    own: Option<u32>,
}

impl<'a> Model for Candidates<'a> {
    ghost use Rattle.std.specs.Prelude.{List, ℕ};
    ghost use Rattle.stem_index.specs.Kept.{AreStemHeads};
    ghost use Rattle.stem_index.specs.Stems.{candidates_below};

    ghost Value = { List ℕ };

    ghost view = { λ c. candidates_below c.index.now c.bound c.name.now };

    ghost invariant = { λ c. AreStemHeads c.index.now c.name.now c.bound c.free c.own };
}

// The greater of two numbers.
fn greater(a: Option<u32>, b: Option<u32>) -> Option<u32>
    ensures { result ≡ greater a b }
{
    a.max(b)
}

// The last ones below the greatest that is left.
fn heads_below(
    index: &StemIndex,
    free: Option<u32>,
    own: Option<u32>,
    greatest: u32,
) -> (Option<u32>, Option<u32>)
    requires { greatest < length index.now }
    ensures { (name : List ℕ) (bound : ℕ) → AreStemHeads index.now name bound free own
        → greater free own ≡ Some greatest
        → AreStemHeads index.now name greatest result.0 result.1 }
{
    let earlier = index.before(greatest);
    if index.has_none(greatest) {
        (earlier, own)
    } else {
        (free, earlier)
    }
}

// The last text with a stem of this name; none where the name is empty.
fn last_own(index: &StemIndex, name: &[u8]) -> Option<u32>
    ensures { (free : _) → free ≡ last_stem_with index.now (length index.now) []
        → AreStemHeads index.now name.now (length index.now) free result }
{
    if name.is_empty() {
        return None;
    }
    index.last_with(name)
}

impl<'a> Candidates<'a> {
    // Those of all texts of an index.
    pub fn new(index: &'a StemIndex, name: &'a [u8]) -> Candidates<'a>
        ensures { result ≡ candidates_below index.now (length index.now) name.now }
    {
        let bound = index.len();
        let free = index.last_with(&[]);
        let own = last_own(index, name);
        Candidates {
            index,
            name,
            bound,
            free,
            own,
        }
    }
}

impl<'a> Iterator for Candidates<'a> {
    type Item = u32;

    ghost next_gives = { YieldsFirst (λ c. c) };

    ghost remaining = { item_count (λ c. c) };

    fn next(&mut self) -> Option<u32> {
        match greater(self.free, self.own) {
            Some(greatest) => {
                let (free, own) = heads_below(self.index, self.free, self.own, greatest);
                self.bound = greatest;
                self.free = free;
                self.own = own;
                Some(greatest)
            }
            None => None,
        }
    }
}
