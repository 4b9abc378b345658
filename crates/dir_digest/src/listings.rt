ghost use Rattle.std.specs.Prelude.{◌≡◌, ◌++◌, ◌<◌, IfOk, IfSome, OnOk, Some, decimal, get_or};
ghost use Rattle.std.specs.Prelude.{length, [], map, option_map, slice_get};
ghost use Rattle.std.specs.List.{flat_map};
ghost use Rattle.file_paths.specs.PathRef.{path_of};
ghost use Rattle.context_syntax.specs.TypeNames.{names_in_order};
ghost use Rattle.path_subs.specs.Subs.{substituted};
ghost use Rattle.spec_match.specs.Scratches.{IsScratchOf};
ghost use Rattle.dir_digest.specs.Digest.{digest_at};
ghost use Rattle.dir_digest.specs.Listing.{listing_of, relevant};
ghost use Rattle.dir_digest.specs.ListingBytes.{AreCountable, IsNamesSub, field_bytes};
ghost use Rattle.dir_digest.specs.ListingBytes.{listing_bytes, shared_fields};
ghost use Rattle.dir_digest.specs.Spelled.{AreSpecsSpelled, nul_ended, text_itself, spec_bytes};
ghost use Rattle.dir_digest.specs.Spelled.{specs_bytes, texts_at};
ghost use Rattle.dir_digest.specs.Basis.{AreRead, IsReadSpec, is_whole_mode, basis_of};

use crate::fields::{add_count, add_field, add_shared, add_spec, listing_mark};
use crate::mode::Mode;
use crate::twenty_bytes::Digest;
use context_syntax::TypeNames;
use file_paths::PathRef;
use find_records::Format;
use label_base::{Bytes, OutOfMemory, Row};
use path_subs::Subs;
use sha1::Sha1;
use spec_match::{RuleSet, Scratch};
use std::alloc::Global;

/// What makes the listings of directories. All that they have in common is spelled once, so that a
/// listing costs no more than the specifications that are relevant for its own directory.
pub struct Listings<'a> {
    format: Format,
    mode: Mode,
    types: &'a TypeNames,
    subs: &'a Subs,
    rules: &'a RuleSet,
    // The fields between that of the path and those of the specifications.
    shared: Bytes,
    // The fields of each specification.
    specs: Row<Bytes>,
    ghost spelled: { AreSpecsSpelled (basis_of format mode types.now subs.now rules.now) shared
        specs },
}

// By hand: one call for an owner, where a derived drop is a step for each field.
impl Drop for Listings<'_> {
    fn drop(self) {
        let Listings {
            format: _,
            mode: _,
            types: _,
            subs: _,
            rules: _,
            shared: _,
            specs: _,
        } = self;
    }
}

fn shared_of(
    alloc: Global,
    mode: Mode,
    types: &TypeNames,
    subs: &Subs,
) -> Result<Bytes, OutOfMemory>
    ensures first { IfOk result (λ _. AreCountable IsNamesSub subs.now.first) }
    ensures second { IfOk result (λ _. AreCountable IsNamesSub subs.now.second) }
    ensures value { IfOk result (λ shared. shared ≡ field_bytes
        (shared_fields (is_whole_mode mode) (names_in_order types.now) subs.now.first
        subs.now.second)) }
{
    let mut shared = Bytes::new(alloc);
    add_shared(alloc, mode, types, subs, &mut shared)?;
    Ok(shared)
}

fn spec_of(alloc: Global, rules: &RuleSet, i: u32) -> Result<Bytes, OutOfMemory>
    requires { i < length rules.now }
    ensures read { IfOk result (λ _. IfSome (slice_get rules.now i) IsReadSpec) }
    ensures value { IfOk result (λ bytes. Some bytes
        ≡ option_map spec_bytes (slice_get rules.now i)) }
{
    let mut bytes = Bytes::new(alloc);
    add_spec(rules.spec(i), &mut bytes)?;
    Ok(bytes)
}

fn specs_of(alloc: Global, rules: &RuleSet) -> Result<Row<Bytes>, OutOfMemory>
    ensures read { IfOk result (λ _. AreCountable IsReadSpec rules.now) }
    ensures value { IfOk result (λ specs. specs ≡ map spec_bytes rules.now) }
{
    let mut specs = Row::with_capacity(alloc, rules.len() as usize)?;
    'specs: for i in 0..rules.len() {
        specs.push(spec_of(alloc, rules, i)?)?;
    }
    Ok(specs)
}

fn text_at(texts: &[Bytes], i: u32) -> &[u8]
    ensures { result.now ≡ get_or texts.now i [] }
{
    match texts.get(i as usize) {
        Some(text) => text.as_slice(),
        None => b"",
    }
}

// Adds the fields of all specifications, and how many there are.
fn add_all(alloc: Global, texts: &[Bytes], to: &mut Bytes) -> Result<(), OutOfMemory>
    ensures { OnOk result (to.new
        ≡ to.old ++ (nul_ended (decimal (length texts.now)) ++ flat_map text_itself texts.now)) }
{
    add_count(alloc, texts.len(), to)?;
    'texts: for text in texts {
        to.push(text.as_slice())?;
    }
    Ok(())
}

// Adds the fields of some specifications, and how many there are.
fn add_found(
    alloc: Global,
    texts: &[Bytes],
    found: &[u32],
    to: &mut Bytes,
) -> Result<(), OutOfMemory>
    ensures { OnOk result (to.new
        ≡ to.old ++ (nul_ended (decimal (length found.now)) ++ texts_at texts.now found.now)) }
{
    add_count(alloc, found.len(), to)?;
    'found: for i in found {
        to.push(text_at(texts, *i))?;
    }
    Ok(())
}

impl<'a> Listings<'a> {
    ghost use Rattle.dir_digest.specs.Listings.{basis_in};
    ghost use Rattle.dir_digest.specs.Basis.{digest_on, listing_on};

    /// Spells what all listings have in common. Whatever the types, substitutions and
    /// specifications are, their types keep what accepted files are, so that the laws on listings
    /// hold of these.
    pub fn new(
        alloc: Global,
        format: Format,
        mode: Mode,
        types: &'a TypeNames,
        subs: &'a Subs,
        rules: &'a RuleSet,
    ) -> Result<Listings<'a>, OutOfMemory>
        ensures terms { IfOk result (λ listings.
            basis_in listings ≡ basis_of format mode types.now subs.now rules.now) }
        ensures read { IfOk result (λ listings. AreRead (basis_in listings)) }
    {
        let _names = types.sorted().len();
        let shared = shared_of(alloc, mode, types, subs)?;
        let specs = specs_of(alloc, rules)?;
        Ok(Listings {
            format,
            mode,
            types,
            subs,
            rules,
            shared,
            specs,
        })
    }

    // Adds the fields of the specifications that are relevant for a directory, of which this is the
    // substituted path.
    fn add_relevant(
        &self,
        alloc: Global,
        dir: &PathRef<'_>,
        path: &PathRef<'_>,
        scratch: &mut Scratch,
        to: &mut Bytes,
    ) -> Result<(), OutOfMemory>
        requires own { IsScratchOf self.now.rules.now scratch.old }
        requires path { path_of path.now
            ≡ substituted self.now.subs.now.first self.now.subs.now.second (path_of dir.now) }
        ensures own { IsScratchOf self.now.rules.now scratch.new }
        ensures value { OnOk result (to.new ≡ to.old ++ specs_bytes
            (relevant self.now.subs.now.first self.now.subs.now.second self.now.rules.now
            (path_of dir.now))) }
    {
        let texts = self.specs.as_slice();
        if !self.subs.plain_at(dir) {
            return add_all(alloc, texts, to);
        }
        let found = self.rules.relevant(alloc, scratch, path)?;
        add_found(alloc, texts, found.as_slice(), to)
    }

    // Writes the listing of a directory, of which this is the substituted path.
    fn write_at(
        &self,
        alloc: Global,
        scratch: &mut Scratch,
        dir: &PathRef<'_>,
        path: &PathRef<'_>,
        to: &mut Bytes,
    ) -> Result<(), OutOfMemory>
        requires own { IsScratchOf self.now.rules.now scratch.old }
        requires path { path_of path.now
            ≡ substituted self.now.subs.now.first self.now.subs.now.second (path_of dir.now) }
        ensures own { IsScratchOf self.now.rules.now scratch.new }
        ensures value { OnOk result (to.new
            ≡ listing_bytes (listing_on (basis_in self.now) (path_of dir.now))) }
    {
        to.clear();
        add_field(listing_mark(self.format), to)?;
        add_field(path.as_text(), to)?;
        to.push(self.shared.as_slice())?;
        self.add_relevant(alloc, dir, path, scratch, to)
    }

    /// Writes the listing of a directory in place of what a buffer had. After want of memory the
    /// buffer has a front of it.
    ///
    /// The listing is fields, each with a NUL behind it: a mark of the records' format; the
    /// directory's substituted path; the mode, `F` or `T`; behind `T` the number of the
    /// customizable types and each of them, in byte order; the number of lines of
    /// file_contexts.subs, and the source and the target of each; the same of
    /// file_contexts.subs_dist; and the number of the relevant specifications, and of each its
    /// text, its type field and what it decides. Relevant are those whose language holds the
    /// substituted path or a text below it, where every path below the directory is substituted as
    /// the directory is; else all are.
    pub fn write(
        &self,
        alloc: Global,
        scratch: &mut Scratch,
        dir: &PathRef<'_>,
        to: &mut Bytes,
    ) -> Result<(), OutOfMemory>
        requires { IsScratchOf (basis_in self.now).specs scratch.old }
        ensures own { IsScratchOf (basis_in self.now).specs scratch.new }
        ensures value { OnOk result (to.new
            ≡ listing_bytes (listing_on (basis_in self.now) (path_of dir.now))) }
    {
        match self.subs.changed(alloc, dir)? {
            None => {
                let path = *dir;
                self.write_at(alloc, scratch, dir, &path, to)
            }
            Some(path) => self.write_at(alloc, scratch, dir, &path.path(), to),
        }
    }

    #[tactic(auto, unfolding(crate::specs::Digest::digest_at))]
    /// The digest of a directory: the SHA-1 (FIPS 180-4) of its listing, which is written into a
    /// buffer.
    pub fn digest(
        &self,
        alloc: Global,
        scratch: &mut Scratch,
        dir: &PathRef<'_>,
        buffer: &mut Bytes,
    ) -> Result<Digest, OutOfMemory>
        requires { IsScratchOf (basis_in self.now).specs scratch.old }
        ensures own { IsScratchOf (basis_in self.now).specs scratch.new }
        ensures value { IfOk result (λ digest.
            digest ≡ digest_on (basis_in self.now) (path_of dir.now)) }
    {
        self.write(alloc, scratch, dir, buffer)?;
        Ok(Digest {
            bytes: Sha1::digest(buffer.as_slice()),
        })
    }
}

/// The listing of one directory, where no others are asked for. [`Listings::write`] says what it
/// is.
pub fn listing(
    alloc: Global,
    dir: &PathRef<'_>,
    format: Format,
    mode: Mode,
    types: &TypeNames,
    subs: &Subs,
    rules: &RuleSet,
) -> Result<Bytes, OutOfMemory>
    ensures { IfOk result (λ bytes. bytes ≡ listing_bytes
        (listing_of format (is_whole_mode mode) (names_in_order types.now) subs.now.first
        subs.now.second rules.now
        (path_of dir.now))) }
{
    let mut scratch = Scratch::new(alloc, rules)?;
    let listings = Listings::new(alloc, format, mode, types, subs, rules)?;
    let mut bytes = Bytes::new(alloc);
    listings.write(alloc, &mut scratch, dir, &mut bytes)?;
    Ok(bytes)
}

/// The digest of one directory, where no others are asked for: the SHA-1 (FIPS 180-4) of its
/// listing.
#[tactic(auto, unfolding(crate::specs::Digest::digest_at))]
pub fn digest(
    alloc: Global,
    dir: &PathRef<'_>,
    format: Format,
    mode: Mode,
    types: &TypeNames,
    subs: &Subs,
    rules: &RuleSet,
) -> Result<Digest, OutOfMemory>
    ensures { IfOk result
        (λ digest. digest ≡ digest_at format (is_whole_mode mode) (names_in_order types.now)
        subs.now.first subs.now.second rules.now (path_of dir.now)) }
{
    let bytes = listing(alloc, dir, format, mode, types, subs, rules)?;
    Ok(Digest {
        bytes: Sha1::digest(bytes.as_slice()),
    })
}
