use atomic_table::{Join, Play, Split, TableRule};
use std::collections::LinkedList;

/// A call of `claim`: the group, the position claimed for it, and the word that was there before.
/// It stands in proofs alone, and no value of it is made.
pub struct Call {
    pub group: u32,
    pub position: u64,
    pub answer: u64,
}

/// What a pass shows: its calls, and how many passes it stands for. No value of it is made.
pub struct ClaimView {
    pub calls: LinkedList<Call>,
    pub stands_for: u32,
}

/// How many groups and passes the claims were made for.
#[derive(Drop)]
pub struct ClaimsPlan {
    pub groups: u32,
    pub passes: u32,
}

/// The rule of the words: each is the least position that was claimed for its group.
pub(crate) struct Least;

impl TableRule<u8, ClaimView, ClaimsPlan> for Least {
    ghost use Rattle.inode_claims.specs.Rule.{LeastIsKept};
    ghost use Rattle.inode_claims.specs.Claiming.{fresh_claims};

    ghost holds = { λ plan table. LeastIsKept plan table.words table.views };

    ghost first = { λ plan. fresh_claims plan.passes };
}

/// One claim.
pub(crate) struct Claiming;

impl Play<u8, ClaimView> for Claiming {
    ghost use Rattle.inode_claims.specs.Rule.{IsClaimOf};

    ghost then = { IsClaimOf };
}

/// One pass more, cut from a pass that stands for several.
pub(crate) struct CutOne;

impl Split<ClaimView> for CutOne {
    ghost use Rattle.inode_claims.specs.Claiming.{fresh_claims, claims_for_one_less};

    ghost left = { claims_for_one_less };

    ghost right = { λ _. fresh_claims 1 };
}

/// Two passes made one.
pub(crate) struct Joining;

impl Join<ClaimView> for Joining {
    ghost use Rattle.inode_claims.specs.Claiming.{fresh_claims, claims_joined};

    ghost both = { claims_joined };

    ghost spent = { fresh_claims 0 };
}
