ghost use Rattle.std.specs.Prelude.{◌<◌};
ghost use Rattle.inode_claims.specs.Answers.{IsPassOf, groups_of};

use crate::{ClaimPass, Claims, NONE_WORD};
use std::test::Fail;
use std::thread::join;

// Claims 1,000 positions for the group 0, upwards from `first`.
fn claimed_up(claims: &Claims, mut pass: ClaimPass, first: u32) -> ClaimPass
    requires { IsPassOf claims.now pass × (0 < groups_of claims.now) }
    ensures { IsPassOf claims.now result }
{
    'positions: for i in 0..1000u64 {
        claims.claim(&mut pass, 0, u64::from(first) + i);
    }
    pass
}

// The same downwards from `last`.
fn claimed_down(claims: &Claims, mut pass: ClaimPass, last: u32) -> ClaimPass
    requires { IsPassOf claims.now pass × (0 < groups_of claims.now) × (1000 < last) }
    ensures { IsPassOf claims.now result }
{
    'positions: for i in 0..1000u64 {
        claims.claim(&mut pass, 0, u64::from(last) - i);
    }
    pass
}

#[test]
fn the_least_of_two_passes_wins(rt: HostRuntime) -> Result<(), Fail> {
    let (claims, mut passes) = Claims::new(rt.alloc(), 2, 2)?;
    let (Some(mut first), Some(mut second)) = (passes.pop(), passes.pop()) else {
        unreachable!()
    };
    let answers = [
        claims.claim(&mut first, 0, 7),
        claims.claim(&mut second, 0, 3),
        claims.claim(&mut first, 0, 5),
    ];
    claims.join(&mut first, second);
    let winners = claims.close(first);
    assert!(rt; answers == [NONE_WORD, 7, 3]);
    assert!(rt; winners.get(0) == Some(3) && winners.get(1) == None && winners.claims() == 3);
    Ok(())
}

#[test]
fn two_threads_find_the_least(rt: HostRuntime) -> Result<(), Fail> {
    let (claims, mut passes) = Claims::new(rt.alloc(), 1, 2)?;
    let (Some(up), Some(down)) = (passes.pop(), passes.pop()) else {
        unreachable!()
    };
    let shared = &claims;
    let (mut up, down) = join(
        &rt,
        || -> ClaimPass
            requires { IsPassOf shared.now up × (0 < groups_of shared.now) }
            ensures { IsPassOf shared.entry.now result }
        { claimed_up(shared, up, 1000) },
        || -> ClaimPass
            requires { IsPassOf shared.now down × (0 < groups_of shared.now) }
            ensures { IsPassOf shared.entry.now result }
        { claimed_down(shared, down, 2999) },
    );
    shared.join(&mut up, down);
    let winners = claims.close(up);
    assert!(rt; winners.get(0) == Some(1000) && winners.claims() == 2000);
    Ok(())
}
