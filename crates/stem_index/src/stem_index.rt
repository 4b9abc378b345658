ghost use Rattle.std.specs.Prelude.{◌≡◌, ◌++◌, ◌∷◌, ◌<◌, ◌-◌, ◌^◌, [], length, OnErr, OnOk};
ghost use Rattle.std.specs.Prelude.{vec_len, vec_capacity};
ghost use Rattle.label_base.specs.NumberUnder.{number_under};
ghost use Rattle.file_paths.specs.PathRef.{path_of};
ghost use Rattle.stem_index.specs.Kept.{AreStemsKept, last_stem_with};
ghost use Rattle.stem_index.specs.Stems.{candidates_below, first_name, is_none, stem_at, stem_of};

use crate::candidates::Candidates;
use crate::stem::{first_name, stem_of};
use file_paths::PathRef;
use indexmap::IndexMap;
use label_base::{Bytes, OutOfMemory};
use std::alloc::Global;
use std::marker::Model;

/// Texts by their stems, seen as the list of the stems. The stem of a text that begins with `/`, a
/// nonempty name and `/` is that name; any other text has none, which is an empty stem.
#[derive(Drop)]
pub struct StemIndex {
    stems: Vec<Bytes>,
    // Under each stem the last text that has it, and under no bytes the last one without.
    last: IndexMap<Vec<u8>, u32>,
    // For each text the one before it that has the same stem.
    before: Vec<Option<u32>>,
}

impl Model for StemIndex {
    ghost use Rattle.std.specs.Prelude.{List, ℕ};
    ghost use Rattle.stem_index.specs.Kept.{AreStemsKept};

    ghost Value = { List (List ℕ) };

    ghost view = { λ s. s.stems.items };

    ghost invariant = { λ s. AreStemsKept s.stems.items s.last.entries s.before.items };
}

// Adds an item behind the others. There is room for it.
fn push_last<T: Drop>(items: &mut Vec<T>, item: T)
    requires { vec_len items.old < vec_capacity items.old }
    ensures { items.new.items ≡ items.old.items ++ item ∷ [] }
{
    match items.push(item) {
        Ok(()) => (),
        Err(_) => unreachable!(),
    }
}

// Adds a text with this stem behind the others.
fn add_stem(
    alloc: Global,
    stems: &mut Vec<Bytes>,
    last: &mut IndexMap<Vec<u8>, u32>,
    before: &mut Vec<Option<u32>>,
    stem: &[u8],
) -> Result<(), OutOfMemory>
    requires kept { AreStemsKept stems.old.items last.old.entries before.old.items }
    requires few { length stems.old.items < 2 ^ 32 - 1 }
    ensures kept { AreStemsKept stems.new.items last.new.entries before.new.items }
    ensures ok { OnOk result (stems.new.items ≡ stems.old.items ++ stem.now ∷ []) }
    ensures err { OnErr result (stems.new.items ≡ stems.old.items) }
{
    let kept = Bytes::copy_of(alloc, stem)?;
    let key = Vec::from_slice(alloc, stem)?;
    stems.reserve(1)?;
    before.reserve(1)?;
    let earlier = last.insert(key, stems.len() as u32)?;
    push_last(stems, kept);
    push_last(before, earlier);
    Ok(())
}

// The number under a text.
fn number_under(last: &IndexMap<Vec<u8>, u32>, text: &[u8]) -> Option<u32>
    ensures { result ≡ number_under text.now last.now.entries }
{
    match last.get(text) {
        Some(number) => Some(*number),
        None => None,
    }
}

impl StemIndex {
    /// No texts.
    pub fn new(alloc: Global) -> StemIndex
        ensures { result ≡ [] }
    {
        StemIndex {
            stems: Vec::new(alloc),
            last: IndexMap::new(alloc),
            before: Vec::new(alloc),
        }
    }

    /// Adds a text behind the others. After a refusal the index is as it was.
    pub fn push(&mut self, alloc: Global, start: &[u8]) -> Result<(), OutOfMemory>
        requires { length self.old < 2 ^ 32 - 1 }
        ensures ok { OnOk result (self.new ≡ self.old ++ stem_of start.now ∷ []) }
        ensures err { OnErr result (self.new ≡ self.old) }
    {
        add_stem(
            alloc,
            &mut self.stems,
            &mut self.last,
            &mut self.before,
            stem_of(start),
        )
    }

    // Whether a text has no stem.
    pub fn has_none(&self, i: u32) -> bool
        requires { i < length self.now }
        ensures { result ≡ is_none (stem_at self.now i) }
    {
        self.stems[i as usize].len() == 0
    }

    // The text before one that has the same stem.
    pub fn before(&self, i: u32) -> Option<u32>
        requires { i < length self.now }
        ensures { result ≡ last_stem_with self.now i (stem_at self.now i) }
    {
        self.before[i as usize]
    }

    // The last text with a stem.
    pub fn last_with(&self, stem: &[u8]) -> Option<u32>
        ensures { result ≡ last_stem_with self.now (length self.now) stem.now }
    {
        number_under(&self.last, stem)
    }

    // How many texts there are.
    pub fn len(&self) -> u32
        ensures { result ≡ length self.now }
    {
        self.stems.len() as u32
    }

    /// The indices of the texts without a stem and of those whose stem is the path's first name,
    /// each once, in descending order.
    pub fn candidates<'a>(&'a self, path: &PathRef<'a>) -> Candidates<'a>
        ensures { result
            ≡ candidates_below self.now (length self.now) (first_name (path_of path.now)) }
    {
        Candidates::new(self, first_name(path))
    }
}
