ghost use Rattle.std.specs.Prelude.{◌≡◌, ◌++◌, ◌<◌, OnOk, option_map};
ghost use Rattle.file_paths.specs.PathRef.{path_of};
ghost use Rattle.context_syntax.specs.ContextRef.{context_lent};
ghost use Rattle.setfattr_dump.specs.Texts.{attrs_text, dump_text};
ghost use Rattle.relabel_core.specs.Answer.{walk_in};
ghost use Rattle.relabel_core.specs.Changes.{changes, does_change, given_attrs, optional_section};
ghost use Rattle.relabel_core.specs.Changes.{renewed_attrs, section_at, section_by};
ghost use Rattle.relabel_core.specs.Digests.{walk_before};
ghost use Rattle.relabel_core.specs.Walk.{walk_count};

use crate::digests::Digests;
use crate::walked::Walked;
use context_syntax::ContextRef;
use dir_digest::Digest;
use file_paths::PathRef;
use label_base::{Bytes, OutOfMemory};
use setfattr_dump::{DIGEST_KEY, LABEL_KEY, add_attr, add_name, end_section};
use std::alloc::Global;

// Adds the attribute of a label that changes to a context.
#[tactic(auto, using(crate::proofs::DumpLemmas::no_attrs, crate::proofs::DumpLemmas::one_attr))]
fn add_label(
    change: &Option<ContextRef<'_>>,
    spelled: &mut Bytes,
    to: &mut Bytes,
) -> Result<(), OutOfMemory>
    ensures { OnOk result (to.new
        ≡ to.old ++ attrs_text (given_attrs (option_map context_lent change.now))) }
{
    match change {
        None => Ok(()),
        Some(context) => {
            spelled.clear();
            context.add(spelled)?;
            add_attr(LABEL_KEY, spelled.as_slice(), to)?;
            Ok(())
        }
    }
}

// Adds the attribute of a digest that changes to this one.
#[tactic(auto, using(crate::proofs::DumpLemmas::no_attrs, crate::proofs::DumpLemmas::one_attr))]
fn add_digest(change: &Option<Digest>, to: &mut Bytes) -> Result<(), OutOfMemory>
    ensures { OnOk result (to.new ≡ to.old ++ attrs_text (renewed_attrs change.now)) }
{
    match change {
        None => Ok(()),
        Some(digest) => {
            add_attr(DIGEST_KEY, digest.as_bytes(), to)?;
            Ok(())
        }
    }
}

fn does_change(change: &Option<ContextRef<'_>>, digest: &Option<Digest>) -> bool
    ensures { result ≡ does_change (option_map context_lent change.now) digest.now }
{
    match change {
        None => digest.is_some(),
        Some(_) => true,
    }
}

/// What the label and the digest of a path change to, where they change.
#[derive(Clone, Copy)]
pub struct PathChanges<'s, 'a> {
    pub path: &'s PathRef<'a>,
    pub label: &'s Option<ContextRef<'a>>,
    pub digest: &'s Option<Digest>,
}

/// Adds at the end the section of a path whose label or whose digest changes; nothing where neither
/// does. A buffer is lent in which the context is spelled.
pub fn add_section_of(
    alloc: Global,
    changes: &PathChanges<'_, '_>,
    spelled: &mut Bytes,
    to: &mut Bytes,
) -> Result<(), OutOfMemory>
    ensures { OnOk result (to.new ≡ to.old
        ++ optional_section (section_by (path_of changes.now.path.now)
        (option_map context_lent changes.now.label.now) changes.now.digest.now)) }
{
    if !does_change(changes.label, changes.digest) {
        return Ok(());
    }
    add_name(alloc, changes.path, to)?;
    add_label(changes.label, spelled, to)?;
    add_digest(changes.digest, to)?;
    end_section(to)?;
    Ok(())
}

impl<'w, 'a> Digests<'w, 'a> {
    /// Adds at the end the section of an entry, if its label or its digest changes, the label
    /// before the digest. A buffer is lent in which the context is spelled.
    pub fn add_section(
        &self,
        alloc: Global,
        e: u32,
        spelled: &mut Bytes,
        to: &mut Bytes,
    ) -> Result<(), OutOfMemory>
        requires { e < walk_count (walk_before self.now) }
        ensures { OnOk result (to.new
            ≡ to.old ++ optional_section (section_at (walk_before self.now) e)) }
    {
        let walked = self.walked();
        let changes = PathChanges {
            path: &walked.path(e),
            label: &walked.change_at(e),
            digest: &self.change_at(e),
        };
        add_section_of(alloc, &changes, spelled, to)?;
        Ok(())
    }
}

impl<'a> Walked<'a> {
    /// Adds at the end the dump of what the walk changes, as setfattr(1) takes it: in the order of
    /// the paths a section for each entry whose label or digest changes, the label before the
    /// digest. After want of memory a front of it may have been added.
    pub fn add_dump(&self, alloc: Global, to: &mut Bytes) -> Result<(), OutOfMemory>
        ensures { OnOk result (to.new ≡ to.old ++ dump_text (changes (walk_in self.now))) }
    {
        let digests = self.digests(alloc)?;
        let mut spelled = Bytes::new(alloc);
        'entries: for e in 0..self.len() {
            digests.add_section(alloc, e, &mut spelled, to)?;
        }
        Ok(())
    }
}
