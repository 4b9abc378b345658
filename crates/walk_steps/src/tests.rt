ghost use Rattle.std.specs.Prelude.{◌≡◌, IfOk, [], ◌∷◌};
ghost use Rattle.walk_steps.specs.Shaped.{IsValid};

use crate::{Shape, Step, StepsFault, WalkState, ends_are_one, run};
use label_base::{OutOfMemory, Row};
use std::alloc::Global;
use std::test::Fail;

fn two_of(alloc: Global, first: u32, second: u32) -> Result<Row<u32>, OutOfMemory>
    ensures { IfOk result (λ row. row ≡ first ∷ second ∷ []) }
{
    let mut row = Row::new(alloc);
    row.push(first)?;
    row.push(second)?;
    Ok(row)
}

// The root with two directories, and an entry in each. The entries are one group.
#[tactic(auto, using(crate::proofs::SmallShape::small_is_valid))]
fn small_shape(alloc: Global) -> Result<Shape, OutOfMemory>
    ensures { IfOk result (λ shape. IsValid shape) }
{
    Ok(Shape {
        parents: two_of(alloc, 0, 0)?,
        homes: two_of(alloc, 1, 2)?,
        group_of: two_of(alloc, 0, 0)?,
        groups: 1,
    })
}

fn refused_index(ended: Result<WalkState, StepsFault>) -> Option<u32> {
    match ended {
        Err(StepsFault::NotAllowed { index }) => Some(index),
        _ => None,
    }
}

#[test]
fn two_workers_share_a_tree(rt: HostRuntime) -> Result<(), Fail> {
    let shape = small_shape(rt.alloc())?;
    let steps = [
        Step::Take { worker: 0 },
        Step::Offer { worker: 0, job: 1 },
        Step::Offer { worker: 0, job: 2 },
        Step::Take { worker: 1 },
        Step::Take { worker: 0 },
        Step::Claim {
            worker: 0,
            entry: 1,
        },
        Step::Claim {
            worker: 1,
            entry: 0,
        },
    ];
    let Ok(end) = run(rt.alloc(), &shape, 2, steps.as_slice()) else {
        panic!(rt; "a step was refused")
    };
    assert!(rt; end.taken.len() == 2 && end.given.len() == 2);
    assert!(rt; end.queue.as_slice() == [].as_slice());
    assert!(rt; end.taken.get(0).as_slice() == [0, 2].as_slice());
    assert!(rt; end.taken.get(1).as_slice() == [1].as_slice());
    assert!(rt; end.given.get(0).as_slice() == [1, 2].as_slice());
    assert!(rt; end.words.as_slice() == [0].as_slice());
    Ok(())
}

#[test]
fn the_first_step_that_is_not_allowed_is_named(rt: HostRuntime) -> Result<(), Fail> {
    let shape = small_shape(rt.alloc())?;
    ends_are_one(&shape);
    let steps = [Step::Take { worker: 0 }, Step::Take { worker: 0 }];
    let found = refused_index(run(rt.alloc(), &shape, 2, steps.as_slice()));
    assert_eq!(rt; found, Some(1));
    Ok(())
}
