ghost use Rattle.std.specs.Prelude.{◌≡◌, ℕ, ◌<◌, IfOk, None, Some, false, get_or, map};
ghost use Rattle.label_base.specs.Bounded.{all_numbers};
ghost use Rattle.tree_model.specs.Groups.{groups_in};
ghost use Rattle.relabel_core.specs.Answer.{walk_in};
ghost use Rattle.label_rules.specs.LabelAfter.{label_seen};
ghost use Rattle.relabel_core.specs.DigestAfter.{digest_seen};
ghost use Rattle.relabel_core.specs.Digests.{walk_before};
ghost use Rattle.relabel_core.specs.Walk.{walk_count, digest_after, digests, new_label};
ghost use Rattle.tree_model.specs.Extents.{is_directory};
ghost use Rattle.std.specs.Option.{option_copied};

use crate::after::DigestAfter;
use crate::digests::Digests;
use crate::walked::Walked;
use context_syntax::Label;
use dir_digest::Digest;
use label_base::{Bytes, OutOfMemory, Row};
use label_rules::LabelAfter;
use std::alloc::Global;

/// A label of its own, in place of one that is lent.
pub fn label_of(alloc: Global, label: &LabelAfter<'_>) -> Result<Label, OutOfMemory>
    ensures { IfOk result (λ copied. copied ≡ label_seen label.now) }
{
    match label {
        LabelAfter::Kept(label) => label.copy(alloc),
        LabelAfter::Given(context) => {
            let given = context.rest.with_kind_of(alloc, context.kind)?;
            Ok(Label::Is(given))
        }
    }
}

/// The labels that a walk leaves, one for each group of names of one inode, in the order of the
/// groups. The same tree with these labels is what the next run walks over.
pub fn next_labels(alloc: Global, walked: &Walked<'_>) -> Result<Row<Label>, OutOfMemory>
    ensures { IfOk result (λ labels. labels ≡ map (new_label (walk_in walked.now))
        (all_numbers (groups_in (walk_in walked.now).entries))) }
{
    let mut labels = Row::with_capacity(alloc, walked.groups() as usize)?;
    'groups: for g in 0..walked.groups() {
        labels.push(label_of(alloc, &walked.new_label(g))?)?;
    }
    Ok(labels)
}

fn copied(alloc: Global, bytes: &[u8]) -> Result<Option<Bytes>, OutOfMemory>
    ensures { IfOk result (λ copied. copied ≡ Some bytes.now) }
{
    Ok(Some(Bytes::copy_of(alloc, bytes)?))
}

fn stored_copy(alloc: Global, stored: Option<&[u8]>) -> Result<Option<Bytes>, OutOfMemory>
    ensures { IfOk result (λ copied. copied ≡ option_copied stored.entry) }
{
    match stored {
        None => Ok(None),
        Some(bytes) => copied(alloc, bytes),
    }
}

// The digest of a directory after a walk, where this one is stored.
fn digest_of(
    alloc: Global,
    after: &DigestAfter,
    stored: Option<&[u8]>,
) -> Result<Option<Bytes>, OutOfMemory>
    ensures { IfOk result (λ digest.
        digest ≡ digest_seen after.now (option_copied stored.entry)) }
{
    match after {
        DigestAfter::Stays => stored_copy(alloc, stored),
        DigestAfter::Void => copied(alloc, Digest::VOID.as_bytes()),
        DigestAfter::Anew(digest) => copied(alloc, digest.as_bytes()),
    }
}

// The digest of an entry after a walk.
fn digest_at(alloc: Global, after: &Digests<'_, '_>, d: u32) -> Result<Option<Bytes>, OutOfMemory>
    requires { d < walk_count (walk_before after.now) }
    ensures { IfOk result (λ digest. digest ≡ digest_after (walk_before after.now) d) }
{
    let walked = after.walked();
    let digest = digest_of(alloc, &after.at(d), walked.input.stored.get(d))?;
    Ok(digest)
}

/// The digests after a walk, one item for each entry, which is none where the entry has none.
/// Stored beside the same tree with the labels of [`next_labels`], they are what the next run
/// begins with.
pub fn next_digests(alloc: Global, walked: &Walked<'_>) -> Result<Row<Option<Bytes>>, OutOfMemory>
    ensures digests { IfOk result (λ row. row ≡ digests (walk_in walked.now)) }
    ensures directories { ((e : ℕ) → is_directory (walk_in walked.now).entries e ≡ false
        → (walk_in walked.now).stored e ≡ None)
        → IfOk result (λ row. (e : ℕ)
        → is_directory (walk_in walked.now).entries e ≡ false → get_or row e None ≡ None) }
{
    let after = walked.digests(alloc)?;
    let mut row = Row::with_capacity(alloc, walked.len() as usize)?;
    'entries: for d in 0..walked.len() {
        row.push(digest_at(alloc, &after, d)?)?;
    }
    Ok(row)
}
