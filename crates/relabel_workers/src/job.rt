ghost use Rattle.std.specs.Prelude.{◌≡◌, ◌<◌, ◌≤◌, ◌∷◌, [], List, ℕ, length, IfOk, OnOk, true};
ghost use Rattle.walk_steps.specs.Lists.{times};
ghost use Rattle.inode_claims.specs.Answers.{IsPassOf, claim_view, groups_of};
ghost use Rattle.dir_queue.specs.Answers.{IsQueuePassOf, queue_view, queue_shape};
ghost use Rattle.tree_model.specs.Groups.{group_of};
ghost use Rattle.tree_model.specs.Jobs.{directories_in, entries_of_job, entry_home, job_of};
ghost use Rattle.relabel_core.specs.Walk.{walk_count, skippable};
ghost use Rattle.relabel_core.specs.Walked.{walk_of};
ghost use Rattle.relabel_workers.specs.Alone.{decided_alone, gives_alone};
ghost use Rattle.relabel_workers.specs.Held.{AreDone, HasWorked, IsShareOf, IsSite, IsWorkerFor};
ghost use Rattle.relabel_workers.specs.Held.{StandFor, common};
ghost use Rattle.relabel_workers.specs.Worked.{AddsCall, given_with, is_to_be_given, jobs_given};

use crate::gate::Gate;
use crate::note::note_of;
use crate::share::Share;
use crate::site::{Site, Worker};
use dir_queue::QueuePass;
use inode_claims::ClaimPass;
use label_base::OutOfMemory;
use label_rules::does_give;
use relabel_core::WalkInput;
use std::sync::Wait;

/// Whether the job of an entry is to be given: it is a directory, and isn't skipped by itself.
fn is_to_be_given(input: &WalkInput<'_>, e: u32, skipped: bool) -> bool
    requires entry { e < walk_count (walk_of input.now) }
    requires skipped { skipped ≡ skippable (walk_of input.now) e }
    ensures { result ≡ is_to_be_given (walk_of input.now) e }
{
    input.tree.is_directory(e) && !skipped
}

// Gives the job of an entry, if it is to be given. It answers whether it is.
fn give_job<R: Wait, G>(
    site: &Site<'_, '_, R, G>,
    pass: &mut QueuePass,
    e: u32,
    skipped: bool,
) -> bool
    requires site { IsSite (common site.now) }
    requires entry { e < walk_count (walk_of site.now.input.now) }
    requires skipped { skipped ≡ skippable (walk_of site.now.input.now) e }
    requires pass { IsQueuePassOf site.now.queue.now pass.old }
    requires home { 0 < times (entry_home site.now.input.now.tree.now e)
        (queue_view pass.old).taken }
    requires new { is_to_be_given (walk_of site.now.input.now) e ≡ true
        → times (job_of site.now.input.now.tree.now e) (queue_view pass.old).given ≡ 0 }
    ensures pass { IsQueuePassOf site.now.queue.now pass.new }
    ensures taken { (queue_view pass.new).taken ≡ (queue_view pass.old).taken }
    ensures stands { (queue_view pass.new).stands_for ≡ (queue_view pass.old).stands_for }
    ensures given { (queue_view pass.new).given
        ≡ given_with (is_to_be_given (walk_of site.now.input.now) e)
        (queue_view pass.old).given (job_of site.now.input.now.tree.now e) }
    ensures gives { result ≡ is_to_be_given (walk_of site.now.input.now) e }
{
    let input = site.input;
    if !is_to_be_given(input, e, skipped) {
        return false;
    }
    input.tree.rises();
    site.queue.offer(site.rt, pass, input.tree.job_of(e));
    true
}

// Claims an entry for its inode, if what decides it says a context.
fn claim_entry<R, G: Gate>(
    site: &Site<'_, '_, R, G>,
    worker: u32,
    pass: &mut ClaimPass,
    e: u32,
    decided: Option<u32>,
)
    requires site { IsSite (common site.now) }
    requires entry { e < walk_count (walk_of site.now.input.now) }
    requires decided { decided ≡ decided_alone (walk_of site.now.input.now) e }
    requires pass { IsPassOf site.now.claims.now pass.old }
    ensures pass { IsPassOf site.now.claims.now pass.new }
    ensures stands { (claim_view pass.new).stands_for ≡ (claim_view pass.old).stands_for }
    ensures called { AddsCall (gives_alone (walk_of site.now.input.now) e)
        (group_of site.now.input.now.tree.now e) e
        (claim_view pass.old).calls (claim_view pass.new).calls }
{
    let input = site.input;
    if !does_give(input.rules, decided) {
        return;
    }
    let before = site.claims.claim(pass, input.tree.group(e), u64::from(e));
    site.gate.claimed(worker, e, before);
}

// Does what is to be done for one entry of a job that was taken. It answers whether a job was
// given.
fn do_entry<R: Wait, G: Gate>(
    site: &Site<'_, '_, R, G>,
    worker: &mut Worker<'_>,
    e: u32,
    share: &mut Share,
) -> Result<bool, OutOfMemory>
    requires site { IsSite (common site.now) }
    requires entry { e < walk_count (walk_of site.now.input.now) }
    requires home { 0 < times (entry_home site.now.input.now.tree.now e)
        (queue_view share.old.queue).taken }
    requires new { is_to_be_given (walk_of site.now.input.now) e ≡ true
        → times (job_of site.now.input.now.tree.now e) (queue_view share.old.queue).given ≡ 0 }
    requires worker { IsWorkerFor site.now.input.now worker.old }
    requires share { IsShareOf (common site.now) share.old }
    ensures worker { IsWorkerFor site.now.input.now worker.new }
    ensures number { worker.new.number ≡ worker.old.number }
    ensures gives { IfOk result (λ gives.
        gives ≡ is_to_be_given (walk_of site.now.input.now) e) }
    ensures taken { OnOk result
        ((queue_view share.new.queue).taken ≡ (queue_view share.old.queue).taken) }
    ensures share { OnOk result (IsShareOf (common site.now) share.new) }
    ensures done { (rest : List ℕ) → AreDone (walk_of site.now.input.now) (e ∷ rest) share.old
        → OnOk result (AreDone (walk_of site.now.input.now) rest share.new) }
    ensures stands { OnOk result (StandFor share.old 0 share.new) }
{
    let note = note_of(
        site.alloc,
        site.input,
        e,
        &worker.listings,
        &mut worker.buffers,
    )?;
    let given = give_job(site, &mut share.queue, e, note.finding.skippable);
    claim_entry(site, worker.number, &mut share.claims, e, note.decided);
    share.notes.push(note)?;
    Ok(given)
}

/// Tells the gate of a job that was taken, and does what is to be done for its entries. It answers
/// how many jobs were given.
pub fn do_entries<R: Wait, G: Gate>(
    site: &Site<'_, '_, R, G>,
    worker: &mut Worker<'_>,
    job: u32,
    share: &mut Share,
) -> Result<u32, OutOfMemory>
    requires site { IsSite (common site.now) }
    requires job { job ≤ length (directories_in site.now.input.now.tree.now) }
    requires worker { IsWorkerFor site.now.input.now worker.old }
    requires share { IsShareOf (common site.now) share.old }
    requires left { AreDone (walk_of site.now.input.now)
        (entries_of_job site.now.input.now.tree.now job) share.old }
    ensures worker { IsWorkerFor site.now.input.now worker.new }
    ensures number { worker.new.number ≡ worker.old.number }
    ensures gives { IfOk result (λ given.
        given ≡ jobs_given (walk_of site.now.input.now) job) }
    ensures taken { OnOk result
        ((queue_view share.new.queue).taken ≡ (queue_view share.old.queue).taken) }
    ensures worked { OnOk result (HasWorked (common site.now) share.old 0 share.new) }
{
    site.gate.enter(worker.number, job);
    let mut given = 0u32;
    let input = site.input;
    let mut entries = input.tree.entries_of_job(job);
    'entries: while let Some(e) = entries.next() {
        let one = do_entry(site, worker, e, share)?;
        given = given.saturating_add(u32::from(one));
    }
    Ok(given)
}
