ghost use Rattle.std.specs.Prelude.{◌≡◌, ◌∷◌, ◌<◌, ◌≤◌, ◌^◌, ℕ, List, Result, length, IfErr, IfOk};
ghost use Rattle.std.specs.Prelude.{OnOk};
ghost use Rattle.std.specs.Option.{option_copied};
ghost use Rattle.label_base.specs.Answers.{Answers, fault_cause};
ghost use Rattle.label_base.specs.Lines.{Adds, Stops, fields_left, is_comment, line_said};
ghost use Rattle.label_base.specs.Lines.{lines_read, lines_within};

use crate::cut::{next_field, next_line};
use crate::fault::Fault;
use crate::row::Row;
use std::alloc::Global;

/// A line whose first field begins with this byte is a comment.
pub const COMMENT_MARK: u8 = b'#';

/// What the lines of a file say, for [`read_lines`].
pub trait LineReader {
    /// What a line gives.
    type Value: Drop;

    /// Why a line is refused.
    type Why: Copy;

    /// What a line of these fields says, or why it is refused; the number is the line's, from 1.
    ghost meaning: { Self → ℕ → List (List ℕ) → Result Self.Value Self.Why };

    /// Reads a line from its first field and what is left behind that.
    fn read_line(
        &self,
        alloc: Global,
        number: u32,
        first: &[u8],
        more: Option<&[u8]>,
    ) -> Result<Self::Value, Fault<Self::Why>>
        requires { length first.now < 2 ^ 32 }
        ensures { Answers (λ value. value) fault_cause result
            (meaning self.now number (first.now ∷ fields_left (option_copied more.entry))) };
}

/// The first line of a file that was refused.
#[derive(Clone, Copy, Debug, PartialEq, Eq)]
pub struct RefusedLine<W> {
    /// Its number, from 1.
    pub number: u32,
    pub why: W,
}

/// Why the lines of a file were refused, where their values have a limit.
#[derive(Clone, Copy, Debug, PartialEq, Eq)]
pub enum LinesWhy<W> {
    /// A line was refused, before any that gives a value too many.
    Refused(RefusedLine<W>),
    /// The lines give more values than there is room for.
    TooMany,
}

fn begins_comment(field: &[u8]) -> bool
    ensures { result ≡ is_comment field.now }
{
    match field {
        [first, ..] => *first == COMMENT_MARK,
        [] => false,
    }
}

// Adds what a line says.
fn add_line<R: LineReader>(
    reader: &R,
    alloc: Global,
    number: u32,
    line: &[u8],
    room: u32,
    values: &mut Row<R::Value>,
) -> Result<(), Fault<LinesWhy<R::Why>>>
    requires size { length line.now < 2 ^ 32 }
    requires room { length values.old ≤ room }
    ensures ok { OnOk result
        (Adds (line_said (R.meaning reader.now) number line.now) values.old values.new) }
    ensures within { OnOk result (length values.new ≤ room) }
    ensures err { IfErr result (λ fault. Stops number room (length values.old) (fault_cause fault)
        (line_said (R.meaning reader.now) number line.now)) }
{
    let Some((first, more)) = next_field(Some(line)) else {
        return Ok(());
    };
    if begins_comment(first) {
        return Ok(());
    }
    match reader.read_line(alloc, number, first, more) {
        Ok(value) => {
            if values.len() >= room as usize {
                return Err(Fault::Why(LinesWhy::TooMany));
            }
            Ok(values.push(value)?)
        }
        Err(Fault::Why(why)) => Err(Fault::Why(LinesWhy::Refused(RefusedLine { number, why }))),
        Err(Fault::OutOfMemory) => Err(Fault::OutOfMemory),
    }
}

/// Reads the lines of a file in order, as [`read_lines`] does, into at most `room` values.
///
/// The first line that would give one more answers [`LinesWhy::TooMany`], unless it is refused
/// itself.
pub fn read_lines_within<R: LineReader>(
    alloc: Global,
    reader: &R,
    bytes: &[u8],
    room: u32,
) -> Result<Row<R::Value>, Fault<LinesWhy<R::Why>>>
    requires { length bytes.now < 2 ^ 32 }
    ensures read { Answers (λ values. values) fault_cause result
        (lines_within room (R.meaning reader.now) bytes.now) }
    ensures within { IfOk result (λ values. length values ≤ room) }
{
    let mut values = Row::new(alloc);
    let mut left = bytes;
    let mut number = 0u32;
    'lines: while let Some((line, rest)) = next_line(left) {
        number += 1;
        add_line(reader, alloc, number, line, room, &mut values)?;
        left = rest;
    }
    Ok(values)
}

/// Reads the lines of a file in order, and gives what they say.
///
/// Blank lines, and those whose first byte other than a blank is `#`, say nothing, as in the files
/// of selabel_file(5). Lines count from 1, and the first that is refused is told.
pub fn read_lines<R: LineReader>(
    alloc: Global,
    reader: &R,
    bytes: &[u8],
) -> Result<Row<R::Value>, Fault<RefusedLine<R::Why>>>
    requires { length bytes.now < 2 ^ 32 }
    ensures { Answers (λ values. values) fault_cause result
        (lines_read (R.meaning reader.now) bytes.now) }
{
    match read_lines_within(alloc, reader, bytes, u32::MAX) {
        Ok(values) => Ok(values),
        Err(Fault::Why(LinesWhy::Refused(refused))) => Err(Fault::Why(refused)),
        Err(Fault::Why(LinesWhy::TooMany)) => unreachable!(),
        Err(Fault::OutOfMemory) => Err(Fault::OutOfMemory),
    }
}
