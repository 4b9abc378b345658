ghost use Rattle.std.specs.Prelude.{◌≡◌, false};
ghost use Rattle.label_rules.specs.Decide.{is_change, label_by, type_verdict, verdict_for};
ghost use Rattle.label_rules.specs.Decide.{verdict_on, whole_verdict};
ghost use Rattle.label_rules.specs.Verdicts.{verdict_of};

use context_syntax::{Context, ContextRef, Label, TypeNames};

/// What becomes of a label.
#[derive(Clone, Copy, Debug)]
pub enum Verdict<'a> {
    /// It stays.
    Keep,
    /// It stays, since an administrator may have chosen its type.
    Customized,
    /// It gives way to a context.
    Change(ContextRef<'a>),
}

// By force, the whole context.
fn decide_whole<'a>(current: &Context, wanted: &'a Context) -> Verdict<'a>
    ensures { verdict_of result ≡ whole_verdict current.now wanted.now }
{
    if *current == *wanted {
        return Verdict::Keep;
    }
    Verdict::Change(ContextRef::whole(wanted))
}

// Without force, the type alone.
fn decide_type<'a>(current: &'a Context, wanted: &'a Context, types: &TypeNames) -> Verdict<'a>
    ensures { verdict_of result ≡ type_verdict types.now current.now wanted.now }
{
    if current.kind() == wanted.kind() {
        return Verdict::Keep;
    }
    if types.has(current.kind()) {
        return Verdict::Customized;
    }
    Verdict::Change(ContextRef {
        rest: current,
        kind: wanted,
    })
}

fn decide_context<'a>(
    current: &'a Context,
    wanted: &'a Context,
    force: bool,
    types: &TypeNames,
) -> Verdict<'a>
    ensures { verdict_of result ≡ verdict_on force types.now current.now wanted.now }
{
    if force {
        return decide_whole(current, wanted);
    }
    decide_type(current, wanted, types)
}

/// What becomes of a label where a context is wanted, as restorecon(8) decides it. With `force` the
/// whole context is given, and customizable types give way too; without it the type alone is given
/// to a label that is a context. It takes no memory.
///
/// A second decision on the label that the first one leaves changes nothing.
#[tactic(auto, using(crate::proofs::Settled::settled))]
pub fn decide<'a>(
    current: &'a Label,
    wanted: &'a Context,
    force: bool,
    types: &TypeNames,
) -> Verdict<'a>
    ensures value { verdict_of result ≡ verdict_for current.now wanted.now force types.now }
    ensures settles { is_change (verdict_for
        (label_by (verdict_for current.now wanted.now force types.now) current.now)
        wanted.now force types.now) ≡ false }
{
    match current {
        Label::Absent | Label::Odd(_) => Verdict::Change(ContextRef::whole(wanted)),
        Label::Is(context) => decide_context(context, wanted, force, types),
    }
}
