ghost use Rattle.std.specs.Prelude.{◌∷◌, [], get_or, length};

use crate::{Texts, add_texts, text_for};
use label_base::{Bytes, OutOfMemory, PiecedText};
use std::alloc::Global;
use std::test::Fail;
use std::thread::Threads;

// Letters, each of which is a text.
#[derive(Drop)]
struct Letters<'a> {
    letters: &'a [u8],
}

impl Texts for Letters<'_> {
    ghost count = { λ l. length l.letters.now };

    ghost text = { λ l number. get_or l.letters.now number 0 ∷ [] };

    fn add(
        &self,
        _alloc: Global,
        number: u32,
        _buffer: &mut Bytes,
        to: &mut Bytes,
    ) -> Result<(), OutOfMemory> {
        let letters = self.letters;
        to.push_byte(letters[number as usize])
    }
}

// Seven letters behind a full stop, by so many workers.
fn made_by<R: Threads + Sync>(
    rt: &R,
    alloc: Global,
    workers: u32,
) -> Result<PiecedText, OutOfMemory> {
    let letters = Letters {
        letters: b"abcdefg".as_slice(),
    };
    let mut to = text_for(alloc, 8);
    to.push(b".")?;
    add_texts(rt, alloc, &letters, 7, workers, PiecedText::of(alloc, to)?)
}

#[test]
fn the_text_is_the_same_for_every_number_of_workers(rt: HostRuntime) -> Result<(), Fail> {
    for workers in [0, 1, 2, 3, 5, 64] {
        let made = made_by(&rt, rt.alloc(), workers)?.joined(rt.alloc())?;
        assert!(rt; made.as_slice() == b".abcdefg".as_slice(), "at {workers}");
    }
    Ok(())
}
