// Laws on the definitions: these functions do nothing, and their contracts are the laws.

ghost use Rattle.std.specs.Prelude.{◌≡◌, true};
ghost use Rattle.file_paths.specs.Path.{Path, are_names};
ghost use Rattle.dir_digest.specs.Alike.{AreAlike};
ghost use Rattle.dir_digest.specs.Constants.{ConstantsAreStated};
ghost use Rattle.dir_digest.specs.Listing.{Listing};
ghost use Rattle.dir_digest.specs.ListingBytes.{IsListing, listing_bytes};
ghost use Rattle.dir_digest.specs.Basis.{AreRead, Basis, listing_on};

/// A law: listings with the same bytes are the same in every field.
#[tactic(auto, using(crate::proofs::ListingLemmas::listing_same))]
pub fn listings_read_back()
    ensures { (a b : Listing) → IsListing a → IsListing b
        → listing_bytes a ≡ listing_bytes b → a ≡ b }
{}

/// A law: the listings of directories by accepted files are such listings.
pub fn accepted_files_give_listings()
    ensures { (t : Basis) → AreRead t → (dir : Path) → are_names dir ≡ true
        → IsListing (listing_on t dir) }
{}

/// A law: where the listings of a directory by accepted files have the same bytes, labels change
/// alike, and for each entry at or below the directory the same is decided: a context, `<<none>>`
/// or nothing. So a digest tells all that matters.
pub fn equal_listings_decide_alike()
    ensures { (t u : Basis) → AreRead t → AreRead u → (dir : Path) → are_names dir ≡ true
        → listing_bytes (listing_on t dir) ≡ listing_bytes (listing_on u dir) → AreAlike t u dir }
{}

/// A law: the constants are those of `specs/Constants.antt`. It does nothing.
pub fn constants_are_stated()
    ensures { ConstantsAreStated }
{}
