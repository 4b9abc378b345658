ghost use Rattle.std.specs.Prelude.{◌≡◌, ◌+◌, ◌++◌, ◌∷◌, [], length, IfOk, IfSome, MatchOption};
ghost use Rattle.inode_claims.specs.Answers.{claim_view};
ghost use Rattle.inode_claims.specs.Claiming.{claims_joined};
ghost use Rattle.dir_queue.specs.Answers.{queue_view};
ghost use Rattle.dir_queue.specs.Passes.{queues_joined};
ghost use Rattle.relabel_workers.specs.Held.{AreFreshPasses, IsReady, claims_stand, common};
ghost use Rattle.relabel_workers.specs.Held.{queue_stands};

use crate::notes::Notes;
use crate::site::{Passes, Site};
use dir_queue::QueuePass;
use inode_claims::ClaimPass;
use label_base::OutOfMemory;
use relabel_core::Buffers;
use std::sync::Wait;

/// What a worker holds, and brings back: its two passes, and what it found of the entries of the
/// jobs that it took.
#[derive(Drop)]
pub struct Share {
    pub queue: QueuePass,
    pub claims: ClaimPass,
    pub notes: Notes,
}

/// What the worker on the caller's thread holds, and the buffers by which it works, so that it goes
/// on with what it learned.
#[derive(Drop)]
pub struct Hand {
    pub share: Share,
    pub buffers: Buffers,
}

/// The passes of one more worker, if there are any left.
pub fn next_share<R, G>(site: &Site<'_, '_, R, G>, passes: &mut Passes) -> Option<Share>
    requires { AreFreshPasses (common site.now) passes.old.queue passes.old.claims }
    ensures rows { AreFreshPasses (common site.now) passes.new.queue passes.new.claims }
    ensures ready { IfSome result (λ share. IsReady (common site.now) share) }
    ensures stands { IfSome result (λ share.
        (queue_stands share ≡ 1) × (claims_stand share ≡ 1)) }
    ensures left { MatchOption result (length passes.old.queue ≡ 0)
        (λ _. length passes.old.queue ≡ length passes.new.queue + 1) }
    ensures queue { MatchOption result (passes.new.queue ≡ passes.old.queue)
        (λ share. passes.old.queue ≡ passes.new.queue ++ share.queue ∷ []) }
    ensures claims { MatchOption result (passes.new.claims ≡ passes.old.claims)
        (λ share. passes.old.claims ≡ passes.new.claims ++ share.claims ∷ []) }
    ensures notes { IfSome result (λ share. share.notes ≡ []) }
{
    let queue_pass = passes.queue.pop()?;
    let Some(claim_pass) = passes.claims.pop() else {
        unreachable!()
    };
    Some(Share {
        queue: queue_pass,
        claims: claim_pass,
        notes: Notes::new(site.alloc),
    })
}

/// What two workers did, by one.
pub fn join_shares<R: Wait, G>(
    site: &Site<'_, '_, R, G>,
    into: Share,
    from: Share,
) -> Result<Share, OutOfMemory>
    requires into { IsReady (common site.now) into }
    requires from { IsReady (common site.now) from }
    ensures ready { IfOk result (λ share. IsReady (common site.now) share) }
    ensures stands { IfOk result (λ share.
        (queue_stands share ≡ queue_stands into + queue_stands from)
        × (claims_stand share ≡ claims_stand into + claims_stand from)) }
    ensures queue { IfOk result (λ share. queue_view share.queue
        ≡ queues_joined (queue_view into.queue) (queue_view from.queue)) }
    ensures claims { IfOk result (λ share. claim_view share.claims
        ≡ claims_joined (claim_view into.claims) (claim_view from.claims)) }
    ensures notes { IfOk result (λ share. share.notes ≡ into.notes ++ from.notes) }
{
    let Share {
        queue: mut queue_pass,
        claims: mut claim_pass,
        notes,
    } = into;
    let Share {
        queue: other_queue,
        claims: other_claims,
        notes: other_notes,
    } = from;
    site.queue.join(site.rt, &mut queue_pass, other_queue);
    site.claims.join(&mut claim_pass, other_claims);
    Ok(Share {
        queue: queue_pass,
        claims: claim_pass,
        notes: notes.with(other_notes)?,
    })
}
