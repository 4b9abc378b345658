ghost use Rattle.std.specs.Prelude.{◌≡◌, ◌<◌, ◌≤◌, ◌^◌, None, IfOk, length};
ghost use Rattle.find_records.specs.Record.{AreOfFormat};
ghost use Rattle.find_records.specs.declared.format.Format.TheVariants.{One};
ghost use Rattle.report_text.specs.Message.{message_of};
ghost use Rattle.relabel_core.specs.Answer.{walk_in};
ghost use Rattle.relabel_core.specs.Stored.{digests_listed, no_digests};
ghost use Rattle.relabel_core.specs.Walk.{walk_count, digests, line, one_if};
ghost use Rattle.relabel_core.specs.Walked.{IsFit, walk_of};
ghost use Rattle.relabel_core.specs.Stored as stored_digests;
ghost use Rattle.tree_model.specs.Labelled.{DifferInLabels, labelled};
ghost use Rattle.sample_tree.specs.Choice.{sample_choice, sample_options};
ghost use Rattle.sample_tree.specs.declared.walks.LineKind.TheVariants as kinds;
ghost use Rattle.sample_tree.specs.Walks.{first_walk, has_line_of, is_of, labels_after};
ghost use Rattle.sample_tree.specs.Walks.{lines_of_kind, sample_summary, sample_walk, summary_of};
ghost use Rattle.sample_tree.specs.Walks.{sample_ending, walk_after};

use crate::choice::{sample_choice, sample_options};
use crate::summary::Summary;
use label_base::{OutOfMemory, PiecedText, Steps};
use label_rules::Rules;
use relabel_core::{Stored, WalkInput, Walked, next_digests, next_labels, walk, walk_input};
use report_text::Message;
use run_endings::{End, Ending};
use std::alloc::Global;
use std::marker::Brand;
use std::sync::ledger::{Blank, Ledger};
use tree_model::{Choice, Tree};

/// The lines of entries that a summary counts.
#[derive(Clone, Copy)]
pub enum LineKind {
    /// A label changes.
    Relabelled,
    /// Two names of one inode are given different contexts.
    Conflicting,
    /// A directory is skipped.
    Skipping,
}

fn is_of(kind: LineKind, message: &Message<'_>) -> bool
    ensures { result ≡ is_of kind (message_of message.now) }
{
    match message {
        Message::Relabel { .. } => match kind {
            LineKind::Relabelled => true,
            LineKind::Conflicting | LineKind::Skipping => false,
        },
        Message::Conflict { .. } => match kind {
            LineKind::Conflicting => true,
            LineKind::Relabelled | LineKind::Skipping => false,
        },
        Message::Skipped { .. } => match kind {
            LineKind::Skipping => true,
            LineKind::Relabelled | LineKind::Conflicting => false,
        },
        _ => false,
    }
}

// One where an entry has a line of a kind, and else nothing.
fn line_at(kind: LineKind, walked: &Walked<'_>, e: u32) -> u32
    requires { e < walk_count (walk_in walked.now) }
    ensures value { result ≡ one_if (has_line_of kind (line (walk_in walked.now) e)) }
    ensures few { result ≤ 1 }
{
    match walked.message_at(e) {
        None => 0,
        Some(message) => { if is_of(kind, &message) { 1 } else { 0 } }
    }
}

// How many entries have a line of a kind.
#[tactic(auto, using(crate::proofs::WalkLemmas::one_more_line), unfolding(crate::specs::Walks::lines_of_kind))]
fn lines_of(kind: LineKind, walked: &Walked<'_>) -> u32
    ensures { result ≡ lines_of_kind kind (walk_in walked.now) }
{
    let mut lines = 0;
    'entries: for e in 0..walked.len() {
        lines += line_at(kind, walked, e);
    }
    lines
}

// The walk over this input, whose look-ups nobody counts.
fn walk_by<'a, L: Ledger>(
    alloc: Global,
    input: &WalkInput<'a>,
    blank: Blank,
) -> Result<Walked<'a>, OutOfMemory>
    requires fit { IsFit input.now }
    requires name { blank.name ≡ L.name }
    requires parts { blank.parts ≡ L.parts }
    requires some { 0 < blank.parts }
    ensures { IfOk result (λ walked. walk_in walked ≡ walk_of input.now) }
{
    let mut steps = Steps::<L>::open(blank);
    walk(alloc, input, &mut steps)
}

// Counts the lines of two kinds of a walk over this input.
fn walk_counted(alloc: Global, input: &WalkInput<'_>) -> Result<(u32, u32), OutOfMemory>
    requires { IsFit input.now }
    ensures skipped { IfOk result (λ lines. lines.0
        ≡ lines_of_kind kinds.Skipping (walk_of input.now)) }
    ensures relabelled { IfOk result (λ lines. lines.1
        ≡ lines_of_kind kinds.Relabelled (walk_of input.now)) }
{
    let walked = walk_by::<Brand>(alloc, input, Blank::new(1))?;
    Ok((
        lines_of(LineKind::Skipping, &walked),
        lines_of(LineKind::Relabelled, &walked),
    ))
}

// Walks over a tree that has these digests, and counts the lines of two kinds.
fn walk_again(
    alloc: Global,
    choice: &Choice,
    rules: &Rules,
    tree: &Tree,
    stored: &Stored,
) -> Result<(u32, u32), OutOfMemory>
    requires choice { choice.now ≡ sample_choice }
    requires tree { length tree.now < 2 ^ 31 }
    requires format { AreOfFormat One tree.now }
    ensures skipped { IfOk result (λ lines. lines.0
        ≡ lines_of_kind kinds.Skipping
        (sample_walk rules.now tree.now (stored_digests.digests_of stored.now))) }
    ensures relabelled { IfOk result (λ lines. lines.1
        ≡ lines_of_kind kinds.Relabelled
        (sample_walk rules.now tree.now (stored_digests.digests_of stored.now))) }
{
    let chosen = tree.select(alloc, choice)?;
    let options = sample_options();
    let input = walk_input(tree, choice, &chosen, rules, options, stored);
    walk_counted(alloc, &input)
}

// The tree that a walk over a tree leaves, with its labels.
#[tactic(auto, using(tree_model::proofs::FormatLemmas::relabelled_of))]
fn tree_after(alloc: Global, tree: &Tree, first: &Walked<'_>) -> Result<Tree, OutOfMemory>
    requires walk { (walk_in first.now).entries ≡ tree.now }
    requires format { AreOfFormat One tree.now }
    ensures value { IfOk result (λ next. next
        ≡ labelled (labels_after (walk_in first.now)) tree.now) }
    ensures same { IfOk result (λ next. DifferInLabels tree.now next) }
    ensures format { IfOk result (λ next. AreOfFormat One next) }
{
    let labels = next_labels(alloc, first)?;
    tree.with_labels(alloc, &labels)
}

// The digests that a walk before which none was stored leaves for the tree that it leaves.
fn stored_after(alloc: Global, next: &Tree, first: &Walked<'_>) -> Result<Stored, OutOfMemory>
    requires stored { (walk_in first.now).stored ≡ no_digests }
    requires same { DifferInLabels (walk_in first.now).entries next.now }
    ensures { IfOk result (λ stored. stored_digests.digests_of stored
        ≡ digests_listed (digests (walk_in first.now))) }
{
    let digests = next_digests(alloc, first)?;
    Stored::of(alloc, next, &digests)
}

// Walks over the tree that a walk leaves, with its digests.
fn walk_next(
    alloc: Global,
    choice: &Choice,
    rules: &Rules,
    next: &Tree,
    first: &Walked<'_>,
) -> Result<(u32, u32), OutOfMemory>
    requires choice { choice.now ≡ sample_choice }
    requires tree { length next.now < 2 ^ 31 }
    requires format { AreOfFormat One next.now }
    requires stored { (walk_in first.now).stored ≡ no_digests }
    requires same { DifferInLabels (walk_in first.now).entries next.now }
    ensures skipped { IfOk result (λ lines. lines.0
        ≡ lines_of_kind kinds.Skipping
        (sample_walk rules.now next.now (digests_listed (digests (walk_in first.now))))) }
    ensures relabelled { IfOk result (λ lines. lines.1
        ≡ lines_of_kind kinds.Relabelled
        (sample_walk rules.now next.now (digests_listed (digests (walk_in first.now))))) }
{
    let stored = stored_after(alloc, next, first)?;
    walk_again(alloc, choice, rules, next, &stored)
}

// Walks over the tree that a walk leaves, with its labels and its digests. Each function from here
// inwards owns one value.
fn walk_after(
    alloc: Global,
    choice: &Choice,
    rules: &Rules,
    tree: &Tree,
    first: &Walked<'_>,
) -> Result<(u32, u32), OutOfMemory>
    requires choice { choice.now ≡ sample_choice }
    requires tree { length tree.now < 2 ^ 31 }
    requires format { AreOfFormat One tree.now }
    requires walk { (walk_in first.now).entries ≡ tree.now }
    requires stored { (walk_in first.now).stored ≡ no_digests }
    ensures skipped { IfOk result (λ lines. lines.0
        ≡ lines_of_kind kinds.Skipping (walk_after rules.now (walk_in first.now))) }
    ensures relabelled { IfOk result (λ lines. lines.1
        ≡ lines_of_kind kinds.Relabelled (walk_after rules.now (walk_in first.now))) }
{
    let next = tree_after(alloc, tree, first)?;
    walk_next(alloc, choice, rules, &next, first)
}

// The summary of the first walk, and of the second one by how many lines of two kinds it has.
#[tactic(auto, unfolding(crate::specs::Walks::summary_of))]
fn summary_of(first: &Walked<'_>, skipped_again: u32, relabelled_again: u32) -> Summary
    ensures { result ≡ summary_of (walk_in first.now) skipped_again relabelled_again }
{
    Summary {
        entries: first.len(),
        relabelled: lines_of(LineKind::Relabelled, first),
        conflicts: lines_of(LineKind::Conflicting, first),
        errors: first.errors(),
        skipped_again,
        relabelled_again,
    }
}

// Summarizes the walk over this input, and the second one.
#[tactic(auto, unfolding(crate::specs::Walks::first_walk))]
fn summarize_walks(
    alloc: Global,
    choice: &Choice,
    rules: &Rules,
    tree: &Tree,
    input: &WalkInput<'_>,
) -> Result<Summary, OutOfMemory>
    requires fit { IsFit input.now }
    requires choice { choice.now ≡ sample_choice }
    requires tree { length tree.now < 2 ^ 31 }
    requires format { AreOfFormat One tree.now }
    requires walk { walk_of input.now ≡ first_walk rules.now tree.now }
    ensures { IfOk result (λ summary. summary ≡ sample_summary rules.now tree.now) }
{
    let first = walk_by::<Brand>(alloc, input, Blank::new(1))?;
    let (skipped_again, relabelled_again) = walk_after(alloc, choice, rules, tree, &first)?;
    Ok(summary_of(&first, skipped_again, relabelled_again))
}

// Summarizes two walks over a tree, of what a choice means there.
#[tactic(auto, unfolding(crate::specs::Walks::first_walk))]
fn summarize_chosen(
    alloc: Global,
    choice: &Choice,
    rules: &Rules,
    tree: &Tree,
    stored: &Stored,
) -> Result<Summary, OutOfMemory>
    requires choice { choice.now ≡ sample_choice }
    requires tree { length tree.now < 2 ^ 31 }
    requires format { AreOfFormat One tree.now }
    requires stored { stored_digests.digests_of stored.now ≡ no_digests }
    ensures { IfOk result (λ summary. summary ≡ sample_summary rules.now tree.now) }
{
    let chosen = tree.select(alloc, choice)?;
    let options = sample_options();
    let input = walk_input(tree, choice, &chosen, rules, options, stored);
    summarize_walks(alloc, choice, rules, tree, &input)
}

// Walks over a tree twice.
fn summarize(alloc: Global, rules: &Rules, tree: &Tree) -> Result<Summary, OutOfMemory>
    requires tree { length tree.now < 2 ^ 31 }
    requires format { AreOfFormat One tree.now }
    ensures { IfOk result (λ summary. summary ≡ sample_summary rules.now tree.now) }
{
    let choice = sample_choice(alloc)?;
    let stored = Stored::none(alloc);
    summarize_chosen(alloc, &choice, rules, tree, &stored)
}

/// What a sample writes, by the rules of its file and the tree of its records: the summary of two
/// walks, of which the second goes over the labels and digests that the first leaves. It fails for
/// want of memory alone.
#[tactic(auto, unfolding(crate::specs::Walks::sample_ending))]
pub fn sample_ending(alloc: Global, rules: &Rules, tree: &Tree) -> Result<Ending, OutOfMemory>
    requires tree { length tree.now < 2 ^ 31 }
    requires format { AreOfFormat One tree.now }
    ensures { IfOk result (λ ending. ending ≡ sample_ending rules.now tree.now) }
{
    let summary = summarize(alloc, rules, tree)?;
    Ok(Ending {
        report: PiecedText::of(alloc, summary.text(alloc)?)?,
        end: End::Done,
        saved: None,
    })
}
