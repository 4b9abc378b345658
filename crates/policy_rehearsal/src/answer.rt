ghost use Rattle.std.specs.Prelude.{◌≡◌, ◌<◌, ◌^◌, IfOk, length};
ghost use Rattle.find_records.specs.Record.{AreOfFormat};
ghost use Rattle.tree_model.specs.Selection.{selected_by};
ghost use Rattle.policy_rehearsal.specs.Answer.{absent_by, rehearsal_of, end_by, rehearse_ending};
ghost use Rattle.policy_rehearsal.specs.Lent.{rehearsed_lent};
ghost use Rattle.policy_rehearsal.specs.Words.{AreFew};

use crate::rehearsal::{RehearsalInput, rehearse};
use crate::rehearsed::Rehearsed;
use crate::texts::add_text;
use crate::words::RehearseWords;
use label_base::{Bytes, OutOfMemory, PiecedText, Row};
use label_rules::Rules;
use relabel_core::add_absent_of;
use run_endings::{End, Ending};
use std::alloc::Global;
use tree_model::{Selected, Tree};

fn end_by(absent: u32) -> End
    ensures { result ≡ end_by absent }
{
    if absent == 0 {
        End::Done
    } else {
        End::WalkErrors { count: absent }
    }
}

// The operands without an entry, unless they are ignored.
fn absent_in<'w>(words: &RehearseWords, chosen: &'w Selected) -> &'w [u32]
    ensures { result.now ≡ absent_by words.now chosen.now.absent }
{
    if words.options.ignore_absent {
        return &[];
    }
    chosen.absent().as_slice()
}

// What is written of a rehearsal.
fn ending_of(
    alloc: Global,
    words: &RehearseWords,
    tree: &Tree,
    absent: &[u32],
    rehearsed: &Rehearsed<'_>,
) -> Result<Ending, OutOfMemory>
    requires { length absent.now < 2 ^ 32 }
    ensures { IfOk result (λ ending. ending ≡ rehearse_ending words.now tree.now absent.now
        (rehearsed_lent rehearsed.now).turns) }
{
    let mut report = Bytes::new(alloc);
    add_absent_of(alloc, words.choice.operands.as_slice(), absent, &mut report)?;
    add_text(alloc, tree, &words.bases, rehearsed, &mut report)?;
    Ok(Ending {
        report: PiecedText::of(alloc, report)?,
        end: end_by(absent.len() as u32),
        saved: None,
    })
}

// What rehearse writes where a choice means this.
fn answer_chosen(
    alloc: Global,
    words: &RehearseWords,
    policies: &Row<Rules>,
    tree: &Tree,
    chosen: &Selected,
) -> Result<Ending, OutOfMemory>
    requires words { AreFew words.now }
    requires tree { length tree.now < 2 ^ 31 }
    requires format { AreOfFormat words.now.options.format tree.now }
    requires chosen { chosen.now ≡ selected_by words.now.choice tree.now }
    ensures { IfOk result (λ ending. ending ≡ rehearsal_of words.now policies.now tree.now) }
{
    let asked = RehearsalInput {
        tree,
        choice: &words.choice,
        chosen,
        options: words.options,
    };
    let rehearsed = rehearse(alloc, &asked, policies)?;
    ending_of(alloc, words, tree, absent_in(words, chosen), &rehearsed)
}

/// What rehearse writes: the operands without an entry, and the text of what each version does. It
/// fails for want of memory alone.
pub fn answer_of(
    alloc: Global,
    words: &RehearseWords,
    policies: &Row<Rules>,
    tree: &Tree,
) -> Result<Ending, OutOfMemory>
    requires words { AreFew words.now }
    requires tree { length tree.now < 2 ^ 31 }
    requires format { AreOfFormat words.now.options.format tree.now }
    ensures { IfOk result (λ ending. ending ≡ rehearsal_of words.now policies.now tree.now) }
{
    let chosen = tree.select(alloc, &words.choice)?;
    answer_chosen(alloc, words, policies, tree, &chosen)
}
