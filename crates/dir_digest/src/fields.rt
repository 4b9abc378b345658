ghost use Rattle.std.specs.Prelude.{◌≡◌, ◌++◌, ◌∷◌, [], OnOk, decimal};
ghost use Rattle.context_syntax.specs.Context.{IsContext, context_text};
ghost use Rattle.context_syntax.specs.TypeNames.{names_in_order};
ghost use Rattle.dir_digest.specs.ListingBytes.{AreCountable, IsContextDecision, IsNamesSub};
ghost use Rattle.dir_digest.specs.ListingBytes.{counted, decision_field, field_bytes, kind_field};
ghost use Rattle.dir_digest.specs.ListingBytes.{listing_mark, mode_fields, name_field};
ghost use Rattle.dir_digest.specs.ListingBytes.{shared_fields, sub_fields};
ghost use Rattle.dir_digest.specs.Spelled.{spec_bytes};
ghost use Rattle.dir_digest.specs.Basis.{IsReadSpec, is_whole_mode};

use crate::mode::Mode;
use context_syntax::{Context, TypeNames};
use find_records::Format;
use label_base::{Bytes, EntryKind, OutOfMemory};
use path_subs::{Sub, Subs};
use spec_reader::{Decision, NO_CONTEXT, Spec};
use std::alloc::Global;

// The first field of a listing for records without link counts.
const MARK_ONE: &[u8] = b"relabel-listing-1";

// The first field of a listing for records with link counts.
const MARK_TWO: &[u8] = b"relabel-listing-2";

// The mode in which labels are given whole.
const FORCE_FIELD: &[u8] = b"F";

// The mode in which labels change by type alone.
const TYPE_FIELD: &[u8] = b"T";

// After a refusal of these functions the text has a front of what was to be added.

/// Adds a field and the NUL behind it.
pub(crate) fn add_field(field: &[u8], to: &mut Bytes) -> Result<(), OutOfMemory>
    ensures { OnOk result (to.new ≡ to.old ++ (field.now ++ 0 ∷ [])) }
{
    to.push(field)?;
    to.push_byte(0)
}

/// The first field of a listing.
pub(crate) fn listing_mark(format: Format) -> &'static [u8]
    ensures { result.now ≡ listing_mark format }
{
    match format {
        Format::One => MARK_ONE,
        Format::Two => MARK_TWO,
    }
}

/// Adds a number in decimal digits as a field.
pub(crate) fn add_count(alloc: Global, count: usize, to: &mut Bytes) -> Result<(), OutOfMemory>
    ensures { OnOk result (to.new ≡ to.old ++ (decimal count ++ 0 ∷ [])) }
{
    add_field(format!(in alloc; "{count}")?.as_bytes(), to)
}

fn add_names(alloc: Global, names: &[Bytes], to: &mut Bytes) -> Result<(), OutOfMemory>
    ensures { OnOk result (to.new ≡ to.old ++ field_bytes (counted name_field names.now)) }
{
    add_count(alloc, names.len(), to)?;
    'names: for name in names {
        add_field(name.as_slice(), to)?;
    }
    Ok(())
}

fn add_mode(alloc: Global, mode: Mode, types: &TypeNames, to: &mut Bytes) -> Result<(), OutOfMemory>
    ensures { OnOk result (to.new
        ≡ to.old ++ field_bytes (mode_fields (is_whole_mode mode) (names_in_order types.now))) }
{
    match mode {
        Mode::Whole => add_field(FORCE_FIELD, to),
        Mode::KindOnly => {
            add_field(TYPE_FIELD, to)?;
            add_names(alloc, types.sorted().as_slice(), to)
        }
    }
}

fn add_sub(sub: &Sub, to: &mut Bytes) -> Result<(), OutOfMemory>
    ensures named { OnOk result (IsNamesSub sub.now) }
    ensures added { OnOk result (to.new ≡ to.old ++ field_bytes (sub_fields sub.now)) }
{
    add_field(sub.source.path().as_text(), to)?;
    add_field(sub.target.path().as_text(), to)
}

fn add_subs(alloc: Global, subs: &[Sub], to: &mut Bytes) -> Result<(), OutOfMemory>
    ensures named { OnOk result (AreCountable IsNamesSub subs.now) }
    ensures added { OnOk result (to.new ≡ to.old ++ field_bytes (counted sub_fields subs.now)) }
{
    add_count(alloc, subs.len(), to)?;
    'subs: for sub in subs {
        add_sub(sub, to)?;
    }
    Ok(())
}

/// Adds the fields that the listings of all directories have in common.
pub(crate) fn add_shared(
    alloc: Global,
    mode: Mode,
    types: &TypeNames,
    subs: &Subs,
    to: &mut Bytes,
) -> Result<(), OutOfMemory>
    ensures first { OnOk result (AreCountable IsNamesSub subs.now.first) }
    ensures second { OnOk result (AreCountable IsNamesSub subs.now.second) }
    ensures added { OnOk result (to.new ≡ to.old ++ field_bytes
        (shared_fields (is_whole_mode mode) (names_in_order types.now) subs.now.first
        subs.now.second)) }
{
    add_mode(alloc, mode, types, to)?;
    add_subs(alloc, subs.first.lines().as_slice(), to)?;
    add_subs(alloc, subs.second.lines().as_slice(), to)
}

fn kind_field(kind: Option<EntryKind>) -> &'static [u8]
    ensures { result.now ≡ kind_field kind }
{
    match kind {
        None => b"",
        Some(kind) => kind.type_field(),
    }
}

fn add_context(context: &Context, to: &mut Bytes) -> Result<(), OutOfMemory>
    ensures is_one { OnOk result (IsContext context.now) }
    ensures added { OnOk result (to.new ≡ to.old ++ (context_text context.now ++ 0 ∷ [])) }
{
    to.push(context.as_text())?;
    to.push_byte(0)
}

fn add_decision(decision: &Decision, to: &mut Bytes) -> Result<(), OutOfMemory>
    ensures given { OnOk result (IsContextDecision decision.now) }
    ensures added { OnOk result (to.new ≡ to.old ++ (decision_field decision.now ++ 0 ∷ [])) }
{
    match decision {
        Decision::Leave => add_field(NO_CONTEXT, to),
        Decision::Give(context) => add_context(context, to),
    }
}

/// Adds the fields of a specification.
pub(crate) fn add_spec(spec: &Spec, to: &mut Bytes) -> Result<(), OutOfMemory>
    ensures read { OnOk result (IsReadSpec spec.now) }
    ensures added { OnOk result (to.new ≡ to.old ++ spec_bytes spec.now) }
{
    add_field(spec.text(), to)?;
    add_field(kind_field(spec.kind), to)?;
    add_decision(&spec.decision, to)
}
