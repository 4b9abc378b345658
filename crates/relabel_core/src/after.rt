ghost use Rattle.std.specs.Prelude.{◌≡◌, ◌<◌, false, is_some, true};
ghost use Rattle.std.specs.Option.{option_copied};
ghost use Rattle.relabel_core.specs.Changes.{digest_change, is_void, unless_stored};
ghost use Rattle.relabel_core.specs.DigestAfter.{after_by, digest_seen, void_if};
ghost use Rattle.relabel_core.specs.Swept.{renewal};
ghost use Rattle.relabel_core.specs.Walk.{digest_after, has_changed_name};
ghost use Rattle.relabel_core.specs.Walked.{walk_of};

use crate::input::WalkInput;
use dir_digest::Digest;

/// What becomes of the digest of a directory.
#[derive(Clone, Copy, Debug, PartialEq, Eq)]
pub enum DigestAfter {
    /// It stays, or there is none.
    Stays,
    /// [`Digest::VOID`] stands for it.
    Void,
    /// It is made anew.
    Anew(Digest),
}

// What becomes of a digest that isn't made anew.
fn void_if(is_void: bool) -> DigestAfter
    ensures { result ≡ void_if is_void }
{
    if is_void {
        return DigestAfter::Void;
    }
    DigestAfter::Stays
}

/// The digest, unless it is the stored one.
pub fn unless_stored(digest: Digest, stored: Option<&[u8]>) -> Option<Digest>
    ensures { result ≡ unless_stored digest (option_copied stored.entry) }
{
    match stored {
        None => Some(digest),
        Some(stored) => if digest.as_bytes() == stored {
            None
        } else {
            Some(digest)
        },
    }
}

// Whether the void digest stands for that of an entry, if it isn't made anew.
fn is_void(input: &WalkInput<'_>, d: u32, changed: bool) -> bool
    requires { (walk_of input.now).options.dry ≡ false
        → is_some ((walk_of input.now).stored d) ≡ true
        → changed ≡ has_changed_name (walk_of input.now) d }
    ensures { result ≡ is_void (walk_of input.now) d }
{
    !input.options.dry && (changed && input.stored.get(d).is_some())
}

/// What becomes of the digest of an entry, of which it is known which one is made anew, and whether
/// the label of an entry at or below it changes, in whichever place the name stands that decides
/// it. The latter counts only where a digest is stored and the run isn't dry.
pub fn digest_after(
    input: &WalkInput<'_>,
    d: u32,
    renewed: Option<Digest>,
    changed: bool,
) -> DigestAfter
    requires renewed { renewed ≡ renewal (walk_of input.now) d }
    requires changed { (walk_of input.now).options.dry ≡ false
        → is_some ((walk_of input.now).stored d) ≡ true
        → changed ≡ has_changed_name (walk_of input.now) d }
    ensures seen { digest_seen result ((walk_of input.now).stored d)
        ≡ digest_after (walk_of input.now) d }
    ensures kind { result ≡ after_by (renewal (walk_of input.now) d)
        (is_void (walk_of input.now) d) }
{
    match renewed {
        Some(digest) => DigestAfter::Anew(digest),
        None => void_if(is_void(input, d, changed)),
    }
}

/// The digest that an entry's changes to, if it changes, of which the same is known.
pub fn digest_change(
    input: &WalkInput<'_>,
    d: u32,
    renewed: Option<Digest>,
    changed: bool,
) -> Option<Digest>
    requires renewed { renewed ≡ renewal (walk_of input.now) d }
    requires changed { (walk_of input.now).options.dry ≡ false
        → is_some ((walk_of input.now).stored d) ≡ true
        → changed ≡ has_changed_name (walk_of input.now) d }
    ensures { result ≡ digest_change (walk_of input.now) d }
{
    match renewed {
        Some(digest) => unless_stored(digest, input.stored.get(d)),
        None => {
            if !is_void(input, d, changed) {
                return None;
            }
            unless_stored(Digest::VOID, input.stored.get(d))
        }
    }
}
