ghost use Rattle.std.specs.Prelude.{◌≡◌, ℕ, ◌<◌, ◌^◌, ◌∷◌, [], IfOk, None, OnOk, Some, false};
ghost use Rattle.std.specs.Prelude.{◌↔◌, IsTrue, get_or, length};
ghost use Rattle.std.specs.Option.{option_copied};
ghost use Rattle.file_paths.specs.PathRef.{path_of};
ghost use Rattle.tree_model.specs.Extents.{is_directory};
ghost use Rattle.relabel_core.specs.Stored.{AddsDigest, Keeps, KeepsAmong, KeepsFrom, digests_by};
ghost use Rattle.relabel_core.specs.Stored.{digests_in, digests_listed, digests_of, directory_at};
ghost use Rattle.relabel_core.specs.Stored.{if_directory, is_digest_attr, no_digests};

use file_paths::PathRef;
use label_base::{Bytes, EntryKind, OutOfMemory, Row};
use setfattr_dump::{Attr, DIGEST_KEY, Dump, Section};
use std::alloc::Global;
use std::collections::BTreeMap;
use tree_model::Tree;

/// The digests that are stored for the directories of a tree, by the indices of their entries. It
/// takes memory for these alone.
pub struct Stored {
    by_directory: BTreeMap<u32, Bytes>,
}

// By hand: one call for an owner, where a derived drop is a step for each field.
impl Drop for Stored {
    fn drop(self) {
        let Stored { by_directory: _ } = self;
    }
}

// Keeps a digest of a directory, in the place of the one that is stored of it.
fn keep(
    alloc: Global,
    stored: &mut BTreeMap<u32, Bytes>,
    d: u32,
    value: &[u8],
) -> Result<(), OutOfMemory>
    ensures { OnOk result (Keeps stored.old stored.new d value.now) }
{
    let _ = stored.insert(d, Bytes::copy_of(alloc, value)?)?;
    Ok(())
}

fn is_digest(attr: &Attr) -> bool
    ensures { result ≡ is_digest_attr attr.now }
{
    attr.key.as_slice() == DIGEST_KEY
}

// Keeps what an attribute of a directory has, if it is a digest.
fn keep_attr(
    alloc: Global,
    stored: &mut BTreeMap<u32, Bytes>,
    d: u32,
    attr: &Attr,
) -> Result<(), OutOfMemory>
    ensures { OnOk result (KeepsAmong stored.old stored.new d (attr.now ∷ [])) }
{
    if !is_digest(attr) {
        return Ok(());
    }
    keep(alloc, stored, d, attr.value.as_slice())
}

// Keeps the last digest among the attributes of a directory.
#[tactic(auto, using(crate::proofs::StoredLemmas::none_among))]
fn keep_attrs(
    alloc: Global,
    stored: &mut BTreeMap<u32, Bytes>,
    d: u32,
    attrs: &[Attr],
) -> Result<(), OutOfMemory>
    ensures { OnOk result (KeepsAmong stored.old stored.new d attrs.now) }
{
    'attrs: for attr in attrs {
        keep_attr(alloc, stored, d, attr)?;
    }
    Ok(())
}

/// Whether an entry is a directory.
pub fn is_directory(tree: &Tree, e: u32) -> bool
    requires { e < length tree.now }
    ensures { result ≡ is_directory tree.now e }
{
    tree.entry(e).kind == EntryKind::Directory
}

fn if_directory(tree: &Tree, e: u32) -> Option<u32>
    requires { e < length tree.now }
    ensures { result ≡ if_directory tree.now (Some e) }
{
    if is_directory(tree, e) {
        return Some(e);
    }
    None
}

// The index of the directory with a path.
fn directory_at(tree: &Tree, path: &PathRef<'_>) -> Option<u32>
    ensures { result ≡ directory_at tree.now (path_of path.now) }
{
    match tree.find(path) {
        None => None,
        Some(e) => if_directory(tree, e),
    }
}

// Keeps the last digest of a section, where a directory of the tree has its name.
#[tactic(auto, using(crate::proofs::StoredLemmas::section_of_directory, crate::proofs::StoredLemmas::section_of_none))]
fn keep_section(
    alloc: Global,
    stored: &mut BTreeMap<u32, Bytes>,
    tree: &Tree,
    section: &Section,
) -> Result<(), OutOfMemory>
    ensures { OnOk result (KeepsFrom stored.old stored.new tree.now (section.now ∷ [])) }
{
    match directory_at(tree, &section.name.path()) {
        None => Ok(()),
        Some(d) => keep_attrs(alloc, stored, d, section.attrs.as_slice()),
    }
}

#[tactic(auto, using(crate::proofs::StoredLemmas::none_from))]
fn keep_sections(
    alloc: Global,
    stored: &mut BTreeMap<u32, Bytes>,
    tree: &Tree,
    sections: &[Section],
) -> Result<(), OutOfMemory>
    ensures { OnOk result (KeepsFrom stored.old stored.new tree.now sections.now) }
{
    'sections: for section in sections {
        keep_section(alloc, stored, tree, section)?;
    }
    Ok(())
}

// Keeps the digest of a directory that has none yet, if there is one.
fn keep_given(
    alloc: Global,
    stored: &mut BTreeMap<u32, Bytes>,
    d: u32,
    digest: &Option<Bytes>,
) -> Result<(), OutOfMemory>
    requires { digests_in stored.old d ≡ None }
    ensures { OnOk result (AddsDigest stored.old stored.new d digest.now) }
{
    match digest {
        None => Ok(()),
        Some(value) => keep(alloc, stored, d, value.as_slice()),
    }
}

fn keep_listed(alloc: Global, digests: &[Option<Bytes>]) -> Result<Stored, OutOfMemory>
    requires { length digests.now < 2 ^ 32 }
    ensures { IfOk result (λ stored. digests_of stored ≡ digests_listed digests.now) }
{
    let mut stored = BTreeMap::new(alloc);
    'digests: for d in 0..digests.len() as u32 {
        keep_given(alloc, &mut stored, d, &digests[d as usize])?;
    }
    Ok(Stored {
        by_directory: stored,
    })
}

impl Stored {
    /// No digest of any directory.
    pub fn none(alloc: Global) -> Stored
        ensures { digests_of result ≡ no_digests }
    {
        Stored {
            by_directory: BTreeMap::new(alloc),
        }
    }

    /// The digests that a dump has for the directories of a tree: for each the last value of
    /// `security.sehash` under its path. Other names and other attributes are passed over.
    pub fn new(alloc: Global, tree: &Tree, dump: &Dump) -> Result<Stored, OutOfMemory>
        ensures { IfOk result (λ stored.
            digests_of stored ≡ digests_by dump.now.sections tree.now) }
    {
        let mut stored = BTreeMap::new(alloc);
        keep_sections(alloc, &mut stored, tree, dump.sections.as_slice())?;
        Ok(Stored {
            by_directory: stored,
        })
    }

    /// These digests, one item for each entry of a tree, which is none where the entry is no
    /// directory.
    pub fn of(
        alloc: Global,
        tree: &Tree,
        digests: &Row<Option<Bytes>>,
    ) -> Result<Stored, OutOfMemory>
        requires each_entry { length digests.now ≡ length tree.now }
        requires directories { (e : ℕ) → is_directory tree.now e ≡ false
            → get_or digests.now e None ≡ None }
        ensures { IfOk result (λ stored. digests_of stored ≡ digests_listed digests.now) }
    {
        let _ = tree.len();
        keep_listed(alloc, digests.as_slice())
    }

    /// The digest that is stored for an entry, if one is. Only directories have one.
    pub fn get(&self, e: u32) -> Option<&[u8]>
        ensures { option_copied result ≡ digests_of self.now e }
    {
        match self.by_directory.get(&e) {
            None => None,
            Some(value) => Some(value.as_slice()),
        }
    }

    /// Whether no digest is stored.
    pub fn is_empty(&self) -> bool
        ensures { IsTrue result ↔ (digests_of self.now ≡ no_digests) }
    {
        self.by_directory.is_empty()
    }
}
