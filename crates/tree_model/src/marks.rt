ghost use Rattle.std.specs.Prelude.{◌≡◌, ◌+◌, ◌-◌, ◌<◌, ◌≤◌, ◌^◌, ◌&&◌, false, length, get_or};
ghost use Rattle.std.specs.Prelude.{nat_lt, IfOk};
ghost use Rattle.tree_model.specs.LiveLists.{AreDead, IsBehindDead, IsDead, IsFilled};

use label_base::OutOfMemory;
use std::alloc::Global;

/// Makes the flags from one place up to another the given one.
#[tactic(auto, using(crate::proofs::LiveLemmas::filled_none, crate::proofs::LiveLemmas::filled_more))]
pub fn fill(live: &mut Vec<bool>, from: u32, to: u32, flag: bool)
    requires order { from ≤ to }
    requires within { to ≤ length live.old.items }
    ensures { IsFilled from to flag live.old.items live.new.items }
{
    'entries: for e in from..to {
        live[e as usize] = flag;
    }
}

// Whether the place before has a flag.
fn has_flag_before(live: &[bool], place: usize) -> bool
    requires { place ≤ length live.now }
    ensures { result ≡ (nat_lt 0 place && get_or live.now (place - 1) false) }
{
    place > 0 && live[place - 1]
}

// The least place from an entry on without a flag, by that of the next entry.
#[tactic(auto, using(crate::proofs::LiveLemmas::dead_here, crate::proofs::LiveLemmas::dead_behind))]
fn dead_at(live: &[bool], e: u32, next: u32) -> u32
    requires within { e < length live.now }
    requires next { IsDead live.now (e + 1) next }
    ensures { IsDead live.now e result }
{
    if live[e as usize] { next } else { e }
}

// One more than the last place without a flag, or 0.
fn behind_dead(live: &[bool]) -> usize
    ensures { IsBehindDead live.now result }
{
    let mut place = live.len();
    'places: while has_flag_before(live, place) {
        place -= 1;
    }
    place
}

/// For each entry up to the last place without a flag the least such place from it on.
#[tactic(auto, using(crate::proofs::LiveLemmas::dead_none, crate::proofs::LiveLemmas::dead_end, crate::proofs::LiveLemmas::dead_put))]
pub fn all_dead(alloc: Global, live: &[bool]) -> Result<Vec<u32>, OutOfMemory>
    requires { length live.now < 2 ^ 32 }
    ensures { IfOk result (λ dead. AreDead live.now 0 dead.items) }
{
    let mut place = behind_dead(live);
    let mut dead = vec![in alloc; 0u32; place]?;
    let mut next = live.len() as u32;
    'entries: while place > 0 {
        place -= 1;
        next = dead_at(live, place as u32, next);
        dead[place] = next;
    }
    Ok(dead)
}
