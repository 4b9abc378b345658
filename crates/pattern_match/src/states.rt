ghost use Rattle.std.specs.Prelude.{◌≡◌, ◌≤◌, [], IfOk, length};
ghost use Rattle.pattern_syntax.specs.Tree.{Nothing, Tree};
ghost use Rattle.pattern_syntax.specs.Starts.{behind_start};
ghost use Rattle.pattern_match.specs.States.{AreStatesOf, StandsFor, progress};

use crate::marks::Marks;
use label_base::OutOfMemory;
use std::alloc::Global;
use std::marker::Model;

/// What a matcher knows behind a text: how many bytes of the pattern's literal start were read, and
/// then the marks of its automaton. One pattern after the other may be matched in them, where they
/// have room for its marks.
#[derive(Drop)]
pub struct States {
    pub(crate) seen: usize,
    pub(crate) marks: Marks,
}

impl Model for States {
    ghost use Rattle.pattern_match.specs.States.{Working, progress};

    ghost Value = { Working };

    ghost view = { λ s. record { known = progress s.seen s.marks.marks; room = s.marks.room } };
}

impl States {
    /// What is known before the first byte of a text, with room for so many words of marks. For
    /// none it takes no memory.
    pub fn with_room(alloc: Global, words: usize) -> Result<States, OutOfMemory>
        ensures known { IfOk result (λ states. states.known ≡ progress 0 []) }
        ensures room { IfOk result (λ states. states.room ≡ words) }
    {
        Ok(States {
            seen: 0,
            marks: Marks::with_room(alloc, words)?,
        })
    }

    /// How many bytes of the literal start were read.
    pub fn seen(&self) -> usize
        ensures { result ≡ self.now.known.seen }
    {
        self.seen
    }

    /// The marks of the automaton, as bits of words. For one pattern there are always equally many.
    pub fn marks(&self) -> &[u64]
        ensures { result.now ≡ self.now.known.marks }
    {
        self.marks.as_slice()
    }

    /// Takes over what was kept of other states.
    pub fn set(&mut self, seen: usize, marks: &[u64])
        requires { length marks.now ≤ self.old.room }
        ensures known { self.new.known ≡ progress seen marks.now }
        ensures room { self.new.room ≡ self.old.room }
    {
        self.seen = seen;
        self.marks.set(marks);
    }

    /// Goes back to before the first byte of a text, where the pattern is one text
    /// ([`is_one_text`](crate::is_one_text)).
    pub fn restart_text(&mut self)
        ensures known { self.new.known ≡ progress 0 [] }
        ensures made { (tree : Tree) → behind_start tree ≡ Nothing
            → AreStatesOf tree self.new.known }
        ensures stands { (tree : Tree) → behind_start tree ≡ Nothing
            → StandsFor tree self.new.known [] }
        ensures room { self.new.room ≡ self.old.room }
    {
        self.seen = 0;
        self.marks.empty();
    }
}
