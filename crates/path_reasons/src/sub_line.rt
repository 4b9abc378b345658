ghost use Rattle.std.specs.Prelude.{◌≡◌, ◌∷◌, ◌<◌, ◌^◌, Ok, length};
ghost use Rattle.std.specs.Option.{option_copied};
ghost use Rattle.label_base.specs.Answers.{Answers, fault_cause};
ghost use Rattle.label_base.specs.Lines.{fields_left};
ghost use Rattle.path_subs.specs.SubLines.{sub_in, with_paths};
ghost use Rattle.path_reasons.specs.SubLines.{sub_line_in, sub_lines_of};

use file_paths::NormPath;
use label_base::{Fault, LineReader, Row, next_field, read_lines};
use path_subs::{NoSub, Sub, SubFault};
use std::alloc::Global;

/// A line of a substitution file, with its number.
#[derive(Debug, Drop)]
pub struct SubLine {
    pub sub: Sub,
    /// The line's number, from 1.
    pub line: u32,
}

// Reads the lines of a substitution file.
struct SubLineReader;

fn made_of(source: NormPath, target: NormPath) -> Result<Sub, Fault<NoSub>>
    ensures { Answers (λ sub. sub) fault_cause result (with_paths (Ok source) (Ok target)) }
{
    if source.names() == 0 {
        return Err(Fault::Why(NoSub));
    }
    Ok(Sub { source, target })
}

// Reads the source and the target of a line.
fn read_sub(alloc: Global, first: &[u8], more: Option<&[u8]>) -> Result<Sub, Fault<NoSub>>
    ensures { Answers (λ sub. sub) fault_cause result
        (sub_in (first.now ∷ fields_left (option_copied more.entry))) }
{
    let Some((second, _)) = next_field(more) else {
        return Err(Fault::Why(NoSub));
    };
    let source = NormPath::read_or(alloc, first, NoSub)?;
    let target = NormPath::read_or(alloc, second, NoSub)?;
    made_of(source, target)
}

impl LineReader for SubLineReader {
    type Value = SubLine;

    type Why = NoSub;

    ghost meaning = { λ _ number fields. sub_line_in number fields };

    fn read_line(
        &self,
        alloc: Global,
        number: u32,
        first: &[u8],
        more: Option<&[u8]>,
    ) -> Result<SubLine, Fault<NoSub>> {
        match read_sub(alloc, first, more) {
            Ok(sub) => Ok(SubLine { sub, line: number }),
            Err(fault) => Err(fault),
        }
    }
}

/// Reads the lines of a substitution file (selabel_file(5)) in their order, each with its number.
///
/// They are the lines that [`read_subs`](path_subs::read_subs) reads, and it refuses the same.
pub fn read_sub_lines(alloc: Global, bytes: &[u8]) -> Result<Row<SubLine>, SubFault>
    requires { length bytes.now < 2 ^ 32 }
    ensures { Answers (λ lines. lines) fault_cause result (sub_lines_of bytes.now) }
{
    read_lines(alloc, &SubLineReader, bytes)
}
