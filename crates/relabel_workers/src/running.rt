ghost use Rattle.std.specs.Prelude.{◌≡◌, ◌+◌, length, IfOk};
ghost use Rattle.std.specs.Thread.{IsSync};
ghost use Rattle.relabel_workers.specs.Held.{AreFreshPasses, HasHandWorked, HasWorked};
ghost use Rattle.relabel_workers.specs.Held.{IsHandReady, IsReady, IsSite, claims_stand, common};
ghost use Rattle.relabel_workers.specs.Held.{common_of, input_of, queue_stands};

use crate::gate::Gate;
use crate::share::{Hand, Share, join_shares, next_share};
use crate::site::{CALLER, Passes, Site};
use crate::work::{work, work_anew};
use label_base::OutOfMemory;
use relabel_core::WalkInput;
use std::sync::Wait;
use std::thread::{Threads, join};

/// Runs the worker of a number on the caller's thread by what is in the hand, and at once one more
/// for each pass that is left. It answers what all of them did.
#[cycle(rows)]
pub fn run_all<R: Threads + Wait + Sync, G: Gate + Sync>(
    site: &Site<'_, '_, R, G>,
    number: u32,
    mut passes: Passes,
    hand: Hand,
) -> Result<Hand, OutOfMemory>
    requires site { IsSite (common site.now) }
    requires rows { AreFreshPasses (common site.now) passes.queue passes.claims }
    requires ready { IsHandReady (common site.now) hand }
    ensures { IfOk result (λ after.
        HasHandWorked (common site.now) hand (length passes.queue) after) }
{
    let Some(next) = next_share(site, &mut passes) else {
        return work(site, CALLER, hand);
    };
    run_both(site, number, passes, hand, next)
}

// Runs a worker on a thread of its own, and at once those that are left. Each thread is lent the
// parts of the site and of the input: of one that is lent a struct of references it isn't known
// what it answers.
#[cycle(rows)]
fn run_both<R: Threads + Wait + Sync, G: Gate + Sync>(
    site: &Site<'_, '_, R, G>,
    number: u32,
    passes: Passes,
    hand: Hand,
    next: Share,
) -> Result<Hand, OutOfMemory>
    requires site { IsSite (common site.now) }
    requires rows { AreFreshPasses (common site.now) passes.queue passes.claims }
    requires ready { IsHandReady (common site.now) hand }
    requires next { IsReady (common site.now) next }
    ensures ready { IfOk result (λ after. IsHandReady (common site.now) after) }
    ensures queue_stands { IfOk result (λ after. queue_stands after.share
        ≡ queue_stands hand.share + queue_stands next + length passes.queue) }
    ensures claims_stand { IfOk result (λ after. claims_stand after.share
        ≡ claims_stand hand.share + claims_stand next + length passes.queue) }
{
    let Site {
        rt,
        alloc,
        input,
        queue,
        claims,
        gate,
    } = *site;
    let WalkInput {
        tree,
        chosen,
        operands,
        rules,
        options,
        stored,
    } = *input;
    let (other, mine) = join(
        rt,
        || -> Result<Share, OutOfMemory>
            requires { IsSite (common_of (input_of tree chosen operands rules options stored)
                queue.now claims.now)
                × IsReady (common_of (input_of tree chosen operands rules options stored)
                queue.now claims.now) next }
            ensures { IfOk result (λ after. HasWorked (common_of
                (input_of tree.entry chosen.entry operands.entry rules.entry options stored.entry)
                queue.entry.now claims.entry.now) next 0 after) }
        {
            let input = WalkInput {
                tree,
                chosen,
                operands,
                rules,
                options,
                stored,
            };
            let site = Site {
                rt,
                alloc,
                input: &input,
                queue,
                claims,
                gate,
            };
            work_anew(&site, number, next)
        },
        || -> Result<Hand, OutOfMemory>
            requires { IsSync R.row × IsSync G.row
                × IsSite (common_of (input_of tree chosen operands rules options stored)
                queue.now claims.now)
                × AreFreshPasses (common_of (input_of tree chosen operands rules options stored)
                queue.now claims.now) passes.queue passes.claims
                × IsHandReady (common_of (input_of tree chosen operands rules options stored)
                queue.now claims.now) hand }
            ensures { IfOk result (λ after. HasHandWorked (common_of
                (input_of tree.entry chosen.entry operands.entry rules.entry options stored.entry)
                queue.entry.now claims.entry.now) hand (length passes.queue) after) }
        {
            let input = WalkInput {
                tree,
                chosen,
                operands,
                rules,
                options,
                stored,
            };
            let site = Site {
                rt,
                alloc,
                input: &input,
                queue,
                claims,
                gate,
            };
            run_all(&site, number.saturating_add(1), passes, hand)
        },
    );
    add_share(site, mine?, other?)
}

// What a worker did, added to what is in the hand.
fn add_share<R: Wait, G>(
    site: &Site<'_, '_, R, G>,
    hand: Hand,
    other: Share,
) -> Result<Hand, OutOfMemory>
    requires into { IsHandReady (common site.now) hand }
    requires from { IsReady (common site.now) other }
    ensures ready { IfOk result (λ after. IsHandReady (common site.now) after) }
    ensures stands { IfOk result (λ after.
        (queue_stands after.share ≡ queue_stands hand.share + queue_stands other)
        × (claims_stand after.share ≡ claims_stand hand.share + claims_stand other)) }
{
    let Hand { share, buffers } = hand;
    let share = join_shares(site, share, other)?;
    Ok(Hand { share, buffers })
}

// Joins the passes of workers that aren't started.
fn join_rest<R: Wait, G>(
    site: &Site<'_, '_, R, G>,
    mut passes: Passes,
    mut share: Share,
) -> Result<Share, OutOfMemory>
    requires rows { AreFreshPasses (common site.now) passes.queue passes.claims }
    requires ready { IsReady (common site.now) share }
    ensures { IfOk result (λ after.
        HasWorked (common site.now) share (length passes.queue) after) }
{
    'rows: while let Some(next) = next_share(site, &mut passes) {
        share = join_shares(site, share, next)?;
    }
    Ok(share)
}

// The same in a hand.
fn rest_joined<R: Wait, G>(
    site: &Site<'_, '_, R, G>,
    passes: Passes,
    hand: Hand,
) -> Result<Hand, OutOfMemory>
    requires rows { AreFreshPasses (common site.now) passes.queue passes.claims }
    requires ready { IsHandReady (common site.now) hand }
    ensures { IfOk result (λ after.
        HasHandWorked (common site.now) hand (length passes.queue) after) }
{
    let Hand { share, buffers } = hand;
    let share = join_rest(site, passes, share)?;
    Ok(Hand { share, buffers })
}

/// Runs all workers, if a job waits, and else none. It answers what all of them did.
pub fn run_if_any<R: Threads + Wait + Sync, G: Gate + Sync>(
    site: &Site<'_, '_, R, G>,
    waiting: u32,
    passes: Passes,
    hand: Hand,
) -> Result<Hand, OutOfMemory>
    requires site { IsSite (common site.now) }
    requires rows { AreFreshPasses (common site.now) passes.queue passes.claims }
    requires ready { IsHandReady (common site.now) hand }
    ensures { IfOk result (λ after.
        HasHandWorked (common site.now) hand (length passes.queue) after) }
{
    if waiting == 0 {
        return rest_joined(site, passes, hand);
    }
    run_all(site, CALLER + 1, passes, hand)
}
