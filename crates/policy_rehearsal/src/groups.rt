ghost use Rattle.std.specs.Prelude.{◌≡◌, IfOk, map};
ghost use Rattle.std.specs.Option.{option_copied};
ghost use Rattle.label_base.specs.Bounded.{all_numbers};
ghost use Rattle.context_syntax.specs.Context.{same_context, same_option};
ghost use Rattle.context_syntax.specs.ContextRef.{context_lent};
ghost use Rattle.tree_model.specs.Groups.{groups_in, label_in};
ghost use Rattle.label_rules.specs.Decide.{label_by, type_verdict, verdict_for, verdict_on};
ghost use Rattle.label_rules.specs.Decide.{whole_verdict};
ghost use Rattle.label_rules.specs.LabelAfter.{label_seen};
ghost use Rattle.label_rules.specs.Verdicts.{verdict_of};

use context_syntax::{Context, ContextRef, TypeNames};
use label_base::{OutOfMemory, Row};
use label_rules::{LabelAfter, Verdict, decide};
use std::alloc::Global;
use tree_model::Tree;

/// The labels of the groups of a tree.
pub fn first_labels<'a>(alloc: Global, tree: &'a Tree) -> Result<Row<LabelAfter<'a>>, OutOfMemory>
    ensures { IfOk result (λ labels. map label_seen labels
        ≡ map (label_in tree.now) (all_numbers (groups_in tree.now))) }
{
    let mut labels = Row::with_capacity(alloc, tree.groups() as usize)?;
    'groups: for g in 0..tree.groups() {
        labels.push(LabelAfter::Kept(tree.label(g)))?;
    }
    Ok(labels)
}

fn is_same_range(range: Option<&[u8]>, other: Option<&[u8]>) -> bool
    ensures { result ≡ same_option (option_copied range.entry) (option_copied other.entry) }
{
    match (range, other) {
        (None, None) => true,
        (Some(range), Some(other)) => range == other,
        _ => false,
    }
}

fn is_same(current: &ContextRef<'_>, wanted: &Context) -> bool
    ensures { result ≡ same_context (context_lent current.now) wanted.now }
{
    let rest = current.rest;
    let kind = current.kind;
    rest.user() == wanted.user()
        && rest.role() == wanted.role()
        && kind.kind() == wanted.kind()
        && is_same_range(rest.range(), wanted.range())
}

// By force, the whole context.
fn decide_whole<'a>(current: &ContextRef<'a>, wanted: &'a Context) -> Verdict<'a>
    ensures { verdict_of result ≡ whole_verdict (context_lent current.now) wanted.now }
{
    if is_same(current, wanted) {
        return Verdict::Keep;
    }
    Verdict::Change(ContextRef::whole(wanted))
}

// Without force, the type alone.
fn decide_type<'a>(current: &ContextRef<'a>, wanted: &'a Context, types: &TypeNames) -> Verdict<'a>
    ensures { verdict_of result ≡ type_verdict types.now (context_lent current.now) wanted.now }
{
    let kind = current.kind;
    if kind.kind() == wanted.kind() {
        return Verdict::Keep;
    }
    if types.has(kind.kind()) {
        return Verdict::Customized;
    }
    Verdict::Change(ContextRef {
        rest: current.rest,
        kind: wanted,
    })
}

// What becomes of a context that an earlier version gave.
fn decide_given<'a>(
    current: &ContextRef<'a>,
    wanted: &'a Context,
    force: bool,
    types: &TypeNames,
) -> Verdict<'a>
    ensures { verdict_of result
        ≡ verdict_on force types.now (context_lent current.now) wanted.now }
{
    if force {
        return decide_whole(current, wanted);
    }
    decide_type(current, wanted, types)
}

/// What becomes of a label that is lent, as [`decide`] says it of one that isn't.
pub fn decide_lent<'a>(
    current: &LabelAfter<'a>,
    wanted: &'a Context,
    force: bool,
    types: &TypeNames,
) -> Verdict<'a>
    ensures { verdict_of result
        ≡ verdict_for (label_seen current.now) wanted.now force types.now }
{
    match current {
        LabelAfter::Kept(label) => decide(label, wanted, force, types),
        LabelAfter::Given(context) => decide_given(context, wanted, force, types),
    }
}

/// The label after a verdict.
pub fn label_by<'a>(verdict: &Verdict<'a>, label: &LabelAfter<'a>) -> LabelAfter<'a>
    ensures { label_seen result ≡ label_by (verdict_of verdict.now) (label_seen label.now) }
{
    match verdict {
        Verdict::Keep | Verdict::Customized => *label,
        Verdict::Change(context) => LabelAfter::Given(*context),
    }
}
