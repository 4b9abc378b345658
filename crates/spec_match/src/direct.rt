ghost use Rattle.std.specs.Prelude.{◌≡◌, ◌<◌, ◌^◌, IfOk, IfSome, length};
ghost use Rattle.file_paths.specs.Path.{path_text};
ghost use Rattle.file_paths.specs.PathRef.{path_of};
ghost use Rattle.pattern_syntax.specs.Language.{holds};
ghost use Rattle.spec_match.specs.LastMatch.{fits, last_index};

use crate::answering::Query;
use crate::compiled_spec::does_apply;
use crate::membership::Membership;
use file_paths::PathRef;
use label_base::{Asked, OutOfMemory};
use pattern_match::{States, may_hold};
use spec_reader::Spec;
use std::alloc::Global;

// Whether the language of a specification holds the text, by a test that is made for it alone.
fn does_hold(alloc: Global, spec: &Spec, text: &[u8]) -> Result<bool, OutOfMemory>
    ensures { IfOk result (λ held. held ≡ holds spec.now.pattern text.now) }
{
    let test = Membership::new(alloc, &spec.pattern)?;
    let mut states = States::with_room(alloc, test.words(&spec.pattern))?;
    Ok(test.passes(&spec.pattern, &mut states, text))
}

// Whether a specification applies and its language holds the text. Most are told by their kind or
// by the first bytes of their pattern.
fn does_fit(alloc: Global, spec: &Spec, query: &Query<'_>) -> Result<bool, OutOfMemory>
    ensures { IfOk result (λ fit. fit ≡ fits query.now.asked query.now.text.now spec.now) }
{
    if !does_apply(spec.kind, query.asked) {
        return Ok(false);
    }
    if !may_hold(&spec.pattern, query.text) {
        return Ok(false);
    }
    does_hold(alloc, spec, query.text)
}

/// The index of the last specification whose kind applies to what is asked and whose language holds
/// the path's text, or none where there is no such specification.
///
/// Nothing is made ready before: the list is gone through from its end, which for a few paths costs
/// less than a [`RuleSet`](crate::RuleSet) of all of it.
pub fn find_last(
    alloc: Global,
    specs: &[Spec],
    path: &PathRef<'_>,
    asked: Asked,
) -> Result<Option<u32>, OutOfMemory>
    requires { length specs.now < 2 ^ 32 }
    ensures within { IfOk result (λ found. IfSome found (λ i. i < length specs.now)) }
    ensures index { IfOk result (λ found.
        found ≡ last_index asked (path_text (path_of path.now)) specs.now) }
{
    let query = Query {
        text: path.as_text(),
        asked,
    };
    let mut left = specs.len();
    'specs: while left > 0 {
        let i = left - 1;
        if does_fit(alloc, &specs[i], &query)? {
            return Ok(Some(i as u32));
        }
        left = i;
    }
    Ok(None)
}
