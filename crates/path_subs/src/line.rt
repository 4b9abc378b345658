ghost use Rattle.std.specs.Prelude.{Ok};
ghost use Rattle.label_base.specs.Answers.{Answers, fault_cause};
ghost use Rattle.path_subs.specs.SubLines.{sub_in, with_paths};

use crate::sub::Sub;
use crate::sub_fault::NoSub;
use file_paths::NormPath;
use label_base::{Fault, LineReader, next_field};
use std::alloc::Global;

fn make_sub(source: NormPath, target: NormPath) -> Result<Sub, Fault<NoSub>>
    ensures { Answers (λ sub. sub) fault_cause result (with_paths (Ok source) (Ok target)) }
{
    if source.names() == 0 {
        return Err(Fault::Why(NoSub));
    }
    Ok(Sub { source, target })
}

/// Reads the lines of a substitution file.
pub struct SubReader;

impl LineReader for SubReader {
    type Value = Sub;

    type Why = NoSub;

    ghost meaning = { λ _ _ fields. sub_in fields };

    fn read_line(
        &self,
        alloc: Global,
        _number: u32,
        first: &[u8],
        more: Option<&[u8]>,
    ) -> Result<Sub, Fault<NoSub>> {
        let Some((second, _)) = next_field(more) else {
            return Err(Fault::Why(NoSub));
        };
        let source = NormPath::read_or(alloc, first, NoSub)?;
        let target = NormPath::read_or(alloc, second, NoSub)?;
        make_sub(source, target)
    }
}
