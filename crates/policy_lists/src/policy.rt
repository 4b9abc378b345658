ghost use Rattle.std.specs.Prelude.{◌≡◌, ◌≤◌, IfOk, length, map};
ghost use Rattle.policy_lists.specs.Lines.{HaveRoomTo, spec_of};

use crate::line::Line;
use label_base::{OutOfMemory, Row};
use spec_reader::Spec;
use std::alloc::Global;

/// Makes the lines of a policy ready.
pub fn lines_of(alloc: Global, specs: Row<Spec>) -> Result<Vec<Line>, OutOfMemory>
    ensures { IfOk result (λ lines. map spec_of lines.items ≡ specs) }
{
    let specs = specs.into_vec();
    let mut lines = Vec::with_capacity(alloc, specs.len())?;
    'specs: for spec in specs {
        lines.push(Line::new(alloc, spec)?)?;
    }
    Ok(lines)
}

fn wider(one: usize, other: usize) -> usize
    ensures one { one ≤ result }
    ensures other { other ≤ result }
{
    if one < other { other } else { one }
}

/// For how many words of marks states must have room in which each line is gone on with.
pub fn widest(lines: &[Line]) -> usize
    ensures { HaveRoomTo lines.now (length lines.now) result }
{
    let mut most = 0;
    'lines: for line in lines {
        most = wider(most, line.words());
    }
    most
}
