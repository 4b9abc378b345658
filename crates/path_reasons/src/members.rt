ghost use Rattle.std.specs.Prelude.{◌≡◌, ◌++◌, ◌∷◌, ◌≤◌, [], IfOk, OnOk, filter, length, map};
ghost use Rattle.std.specs.Prelude.{Some};
ghost use Rattle.std.specs.Option.{option_copied};
ghost use Rattle.file_paths.specs.Path.{path_text};
ghost use Rattle.file_paths.specs.PathRef.{path_of};
ghost use Rattle.label_base.specs.Kind.{applies};
ghost use Rattle.label_base.specs.declared.kind.Asked.TheVariants.{Of};
ghost use Rattle.path_reasons.specs.Members.{applies_to, decided_in, does_speak, members, place_in};
ghost use Rattle.path_reasons.specs.Members.{spec_seen, specs_seen};

use file_paths::PathRef;
use label_base::{Asked, EntryKind, OutOfMemory};
use spec_match::find_last;
use spec_reader::Spec;
use std::alloc::Global;

/// A specification whose pattern matches.
#[derive(Clone, Copy)]
pub struct Member<'a> {
    pub spec: &'a Spec,
}

// Whether a specification's language holds the path's text, whatever its kind.
fn does_speak(alloc: Global, spec: &Spec, path: &PathRef<'_>) -> Result<bool, OutOfMemory>
    ensures { IfOk result (λ speaks. speaks
        ≡ does_speak (path_text (path_of path.now)) spec.now) }
{
    let found = find_last(alloc, std::slice::from_ref(spec), path, Asked::Any)?;
    Ok(found.is_some())
}

// Adds a specification whose language holds the path's text.
fn add_member<'a>(
    alloc: Global,
    spec: &'a Spec,
    path: &PathRef<'_>,
    to: &mut Vec<Member<'a>>,
) -> Result<(), OutOfMemory>
    ensures { OnOk result (specs_seen to.new.items ≡ specs_seen to.old.items
        ++ filter (does_speak (path_text (path_of path.now))) (spec.now ∷ [])) }
{
    if does_speak(alloc, spec, path)? {
        to.push(Member { spec })?;
    }
    Ok(())
}

// Those whose language holds the path's text, in their order.
fn in_order<'a>(
    alloc: Global,
    specs: &'a [Spec],
    path: &PathRef<'_>,
) -> Result<Vec<Member<'a>>, OutOfMemory>
    ensures { IfOk result (λ found. specs_seen found.items
        ≡ filter (does_speak (path_text (path_of path.now))) specs.now) }
{
    let mut found = Vec::new(alloc);
    'specs: for spec in specs {
        add_member(alloc, spec, path, &mut found)?;
    }
    Ok(found)
}

/// The specifications whose language holds the path's text, whatever their kind, the latest first.
/// Each is tested once.
#[tactic(auto, using(crate::proofs::ListLemmas::map_reversed))]
pub fn members_of<'a>(
    alloc: Global,
    specs: &'a [Spec],
    path: &PathRef<'_>,
) -> Result<Vec<Member<'a>>, OutOfMemory>
    ensures { IfOk result (λ found. specs_seen found.items
        ≡ members (path_text (path_of path.now)) specs.now) }
{
    let mut found = in_order(alloc, specs, path)?;
    found.reverse();
    Ok(found)
}

fn is_of(kind: EntryKind, asked: EntryKind) -> bool
    ensures { result ≡ applies (Some kind) (Of asked) }
{
    kind.is_same(asked)
}

/// Whether a specification with this kind, or with none, applies to entries of the other.
pub(crate) fn does_apply(kind: Option<EntryKind>, asked: EntryKind) -> bool
    ensures { result ≡ applies kind (Of asked) }
{
    match kind {
        None => true,
        Some(kind) => is_of(kind, asked),
    }
}

fn applies_to(member: &Member<'_>, asked: EntryKind) -> bool
    ensures { result ≡ applies_to asked (spec_seen member.now) }
{
    let spec = member.spec;
    does_apply(spec.kind, asked)
}

/// At which place among the members the first stands that applies to entries of a kind, or how many
/// there are.
pub fn place_for(members: &[Member<'_>], asked: EntryKind) -> usize
    ensures value { result ≡ place_in asked (specs_seen members.now) }
    ensures within { result ≤ length members.now }
{
    let mut count = 0;
    'members: for member in members {
        if applies_to(member, asked) {
            return count;
        }
        count += 1;
    }
    count
}

/// The member that decides for entries of a kind: the first that applies to them.
pub fn decided_by<'a>(members: &[Member<'a>], asked: EntryKind) -> Option<&'a Spec>
    ensures { option_copied result ≡ decided_in asked (specs_seen members.now) }
{
    let place = place_for(members, asked);
    match members.get(place) {
        Some(member) => Some(member.spec),
        None => None,
    }
}
