ghost use Rattle.std.specs.Prelude.{◌≡◌, is_some, option_and_then, slice_get};
ghost use Rattle.std.specs.Option.{option_copied};
ghost use Rattle.label_rules.specs.LookUp.{context_in, given_at, given_by};

use crate::rules::Rules;
use context_syntax::Context;
use spec_reader::{Decision, Spec};

/// The specification at an index, if there is one.
pub fn spec_at(rules: &Rules, found: Option<u32>) -> Option<&Spec>
    ensures { option_copied result ≡ option_and_then (slice_get rules.now.rules) found }
{
    match found {
        Some(i) if i < rules.rules.len() => Some(rules.rules.spec(i)),
        _ => None,
    }
}

fn context_in(decision: &Decision) -> Option<&Context>
    ensures { option_copied result ≡ context_in decision.now }
{
    match decision {
        Decision::Leave => None,
        Decision::Give(context) => Some(context),
    }
}

/// The context that a specification gives.
pub fn given_by(spec: &Spec) -> Option<&Context>
    ensures { option_copied result ≡ given_by spec.now }
{
    context_in(&spec.decision)
}

/// The context that the specification at an index gives.
pub fn given_at(rules: &Rules, found: Option<u32>) -> Option<&Context>
    ensures { option_copied result ≡ given_at rules.now.rules found }
{
    match spec_at(rules, found) {
        Some(spec) => given_by(spec),
        None => None,
    }
}

/// Whether the specification at an index gives a context.
pub fn does_give(rules: &Rules, found: Option<u32>) -> bool
    ensures { result ≡ is_some (given_at rules.now.rules found) }
{
    given_at(rules, found).is_some()
}
