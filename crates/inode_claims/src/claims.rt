ghost use Rattle.std.specs.Prelude.{◌≡◌, ℕ, ◌+◌, ◌-◌, ◌<◌, ◌≤◌, [], All, IfOk, length, min};
ghost use Rattle.std.specs.Prelude.{vec_capacity, replicate};
ghost use Rattle.walk_steps.specs.declared.machine.TheConstants.{NONE_WORD};
ghost use Rattle.inode_claims.specs.Claiming.{fresh_claims, claims_joined, with_call, IsClaimed};

use crate::rule::{ClaimView, Claiming, ClaimsPlan, CutOne, Joining, Least};
use crate::winners::Winners;
use atomic_table::{Seat, Table};
use label_base::{OutOfMemory, Row};
use std::alloc::{AllocError, Global};
use walk_steps::NONE_WORD;

/// The right to claim, one for each thread. When the program runs it is the number of its calls
/// alone.
#[derive(Drop)]
pub struct ClaimPass {
    seat: Seat<u8, ClaimView>,
    count: u64,
    pub ghost live: { 0 < seat.me.0.stands_for },
    pub ghost bare: { seat.me.1 ≡ [] },
    pub ghost counted: { count ≡ min (length seat.me.0.calls) NONE_WORD },
    pub ghost possible: { All (λ call. call.position < NONE_WORD) seat.me.0.calls },
}

/// The words of all groups, which threads share by reference.
#[derive(Drop)]
pub struct Claims {
    // The word of group g stands at g + 1, since a cut and a join of passes read the first one.
    table: Table<u8, ClaimView, ClaimsPlan, Least, Global>,
    groups: usize,
    // What the words were laid from. It has room for them, so that `close` takes no memory.
    room: Vec<u64>,
    pub ghost sized: { table.shared.table_id.words ≡ table.shared.key.groups + 1 },
    pub ghost bare: { table.shared.table_id.slots ≡ 0 },
    pub ghost counted: { groups ≡ table.shared.key.groups },
    pub ghost reserved: { (room.items ≡ []) × (groups ≤ vec_capacity room) },
}

impl Claims {
    ghost use Rattle.inode_claims.specs.Answers.{
      IsPassOf,
      passes_of_claims,
      groups_of,
      claim_view,
      Wins,
      AnswersAll,
    };

    /// Words for so many groups, nothing claimed, and so many passes, at least one. Each stands for
    /// one pass.
    pub fn new(
        alloc: Global,
        groups: u32,
        passes: u32,
    ) -> Result<(Claims, Row<ClaimPass>), OutOfMemory>
        requires { 0 < passes }
        ensures groups { IfOk result (λ made. groups_of made.0 ≡ groups) }
        ensures passes { IfOk result (λ made. (passes_of_claims made.0 ≡ passes)
            × (length made.1 ≡ passes)) }
        ensures each { IfOk result
            (λ made. All (λ p. IsPassOf made.0 p × (claim_view p ≡ fresh_claims 1)) made.1) }
    {
        let (claims, seat) = Claims::open(alloc, groups, passes)?;
        let all = claims.deal(alloc, seat, passes)?;
        Ok((claims, all))
    }

    fn open(
        alloc: Global,
        groups: u32,
        passes: u32,
    ) -> Result<(Claims, Seat<u8, ClaimView>), AllocError>
        requires { 0 < passes }
        ensures made { IfOk result (λ r.
            (groups_of r.0 ≡ groups) × (passes_of_claims r.0 ≡ passes)) }
        ensures seat { IfOk result
            (λ r. (r.1.table_id ≡ r.0.table.shared.table_id)
            × (r.1.me ≡ (fresh_claims passes, []))) }
    {
        let words = Vec::from_elem(alloc, NONE_WORD, groups as usize + 1)?;
        Claims::over(alloc, groups, passes, words)
    }

    fn over(
        alloc: Global,
        groups: u32,
        passes: u32,
        mut words: Vec<u64>,
    ) -> Result<(Claims, Seat<u8, ClaimView>), AllocError>
        requires some { 0 < passes }
        requires words { words.items ≡ replicate (groups + 1) NONE_WORD }
        ensures made { IfOk result (λ r.
            (groups_of r.0 ≡ groups) × (passes_of_claims r.0 ≡ passes)) }
        ensures seat { IfOk result
            (λ r. (r.1.table_id ≡ r.0.table.shared.table_id)
            × (r.1.me ≡ (fresh_claims passes, []))) }
    {
        let plan = ClaimsPlan { groups, passes };
        let (table, seat) = Table::of_words(alloc, words.as_slice(), &plan)?;
        words.clear();
        let claims = Claims {
            table,
            groups: groups as usize,
            room: words,
        };
        Ok((claims, seat))
    }

    fn deal(
        &self,
        alloc: Global,
        mut seat: Seat<u8, ClaimView>,
        passes: u32,
    ) -> Result<Row<ClaimPass>, OutOfMemory>
        requires some { 0 < passes }
        requires seat { (seat.table_id ≡ self.now.table.shared.table_id)
            × (seat.me ≡ (fresh_claims passes, [])) }
        ensures len { IfOk result (λ all. length all ≡ passes) }
        ensures each { IfOk result
            (λ all. All (λ p. IsPassOf self.now p × (claim_view p ≡ fresh_claims 1)) all) }
    {
        let mut all = Row::new(alloc);
        for _ in 1..passes {
            all.push(self.another(&mut seat))?;
        }
        all.push(self.last(seat))?;
        Ok(all)
    }

    fn last(&self, seat: Seat<u8, ClaimView>) -> ClaimPass
        requires { (seat.table_id ≡ self.now.table.shared.table_id)
            × (seat.me ≡ (fresh_claims 1, [])) }
        ensures { IsPassOf self.now result × (claim_view result ≡ fresh_claims 1) }
    {
        ClaimPass { seat, count: 0 }
    }

    fn another(&self, seat: &mut Seat<u8, ClaimView>) -> ClaimPass
        requires table { seat.old.table_id ≡ self.now.table.shared.table_id }
        requires view { (1 < seat.old.me.0.stands_for) × (seat.old.me.0.calls ≡ [])
            × (seat.old.me.1 ≡ []) }
        ensures table { seat.new.table_id ≡ seat.old.table_id }
        ensures view { seat.new.me ≡ (fresh_claims (seat.old.me.0.stands_for - 1), []) }
        ensures pass { IsPassOf self.now result × (claim_view result ≡ fresh_claims 1) }
    {
        let seat = self.table.shared.split_seat::<CutOne>(seat);
        ClaimPass { seat, count: 0 }
    }

    /// Claims a position for a group in one step, and answers the word that was there before.
    pub fn claim(&self, pass: &mut ClaimPass, group: u32, position: u64) -> u64
        requires pass { IsPassOf self.now pass.old }
        requires group { group < groups_of self.now }
        requires position { position < NONE_WORD }
        ensures pass { IsPassOf self.now pass.new }
        ensures call { claim_view pass.new ≡ with_call (claim_view pass.old) group position result }
        ensures least { (p : ℕ) → IsClaimed group p (claim_view pass.old).calls → result ≤ p }
    {
        let found = self
            .table
            .shared
            .fetch_min::<Claiming>(&mut pass.seat, group as usize + 1, position);
        pass.count = pass.count.saturating_add(1);
        found
    }

    /// Adds the calls of one pass to those of another, which then stands for both.
    pub fn join(&self, into: &mut ClaimPass, from: ClaimPass)
        requires { IsPassOf self.now into.old × IsPassOf self.now from }
        ensures pass { IsPassOf self.now into.new }
        ensures view { claim_view into.new ≡ claims_joined (claim_view into.old) (claim_view from) }
    {
        let ClaimPass { seat, count } = from;
        self.table.shared.join_seat::<Joining>(&mut into.seat, seat);
        into.count = into.count.saturating_add(count);
    }

    /// The winner of each group. They are final where the pass stands for all passes of these
    /// claims.
    pub fn close(self, pass: ClaimPass) -> Winners
        requires { IsPassOf self pass }
        ensures wins { Wins (groups_of self) (claim_view pass).calls result }
        ensures all { (claim_view pass).stands_for ≡ passes_of_claims self
            → AnswersAll (groups_of self) (claim_view pass).calls result }
        ensures claims { result.claims ≡ min (length (claim_view pass).calls) NONE_WORD }
    {
        let Claims {
            table,
            groups,
            mut room,
        } = self;
        let ClaimPass { seat, count } = pass;
        let closed = table.close_with(seat);
        for group in 0..groups {
            room.push_reserved(closed.word(group + 1));
        }
        closed.free();
        Winners {
            words: room,
            claims: count,
        }
    }
}
