ghost use Rattle.std.specs.Prelude.{List, ℕ, length};
ghost use Rattle.stem_index.specs.Fitting.{AreCandidates};
ghost use Rattle.stem_index.specs.Stems.{candidates_below};

/// A law on all stems and names: the indices that
/// [`StemIndex::candidates`](crate::StemIndex::candidates) gives are those of the texts that have
/// no stem or the name for their stem, the last first. It does nothing.
pub fn candidates_fit()
    ensures { (stems : List (List ℕ)) (name : List ℕ)
        → AreCandidates stems name (candidates_below stems (length stems) name) }
{}
