ghost use Rattle.std.specs.Prelude.{◌≡◌, ◌++◌, OnOk, IfOk, if◌then◌else◌};
ghost use Rattle.std.specs.Fmt.{decimal};
ghost use Rattle.label_base.specs.Escape.{escaped};
ghost use Rattle.run_faults.specs.Faults.{dump_reason, fault_line, limit_text, path_reason};
ghost use Rattle.run_faults.specs.Faults.{pattern_reason, place_text, record_reason, reason_text};
ghost use Rattle.run_faults.specs.Faults.{spec_reason, status_of, usage_reason};

use crate::cause::{Cause, LimitKind};
use file_paths::PathWhy;
use file_roles::{FileList, FileRole, Part};
use find_records::RecordWhy;
use label_base::{Bytes, OutOfMemory, write_escaped};
use pattern_syntax::PatternWhy;
use setfattr_dump::DumpWhy;
use spec_reader::SpecWhy;
use std::alloc::Global;
use tool_words::UsageWhy;

const PROGRAM: &str = "relabel: ";

const USAGE_WORD: &str = "usage: word ";

const LINE: &str = ": line ";

const COLON: &str = ": ";

const LINE_FEED: &str = "\n";

const NOT_FOUND: &str = ": not found";

const NOT_A_SUBSTITUTION: &str = ": not a substitution";

const LIMIT_BYTES: &str = "limit: bytes of ";

const LIMIT_SPECS: &str = "limit: specifications";

const LIMIT_RECORDS: &str = "limit: records";

const LIMIT_RECORD_BYTES: &str = "limit: bytes of input";

const NOT_A_TYPE: &str = ": not a type";

const NOT_A_USER: &str = ": not a user";

const RECORD: &str = "record ";

const NOT_ENDED: &str = ": not ended";

const RECORDS: &str = "records ";

const AND: &str = " and ";

const TWO_ENTRIES: &str = ": one path, two entries";

const MISSING_FIELD: &str = "missing field";

const BAD_NUMBER: &str = "bad number";

const PATH_EMPTY: &str = "path: empty";

const PATH_TOO_LONG: &str = "path: too long";

const PATH_HAS_NUL: &str = "path: has NUL";

const PATH_NOT_ABSOLUTE: &str = "path: not absolute";

const PATH_DOT_PART: &str = "path: dot part";

const READ_FAILED: &str = "read failed";

const WRITE_FAILED: &str = "write failed";

const OUT_OF_MEMORY: &str = "out of memory";

const UNKNOWN_TOOL: &str = "unknown tool";

const UNKNOWN_OPTION: &str = "unknown option";

const MISSING_VALUE: &str = "missing value";

const BAD_PATH: &str = "bad path";

const MISSING_OPERAND: &str = "missing operand";

const NO_OUTPUT: &str = "needs -n or -o";

const MISSING_CONTEXT: &str = "missing context";

const BAD_TYPE: &str = "bad type";

const BAD_CONTEXT: &str = "bad context";

const NO_SECTION: &str = "no section";

const BAD_NAME: &str = "bad name";

const NO_VALUE: &str = "no value";

const BAD_VALUE: &str = "bad value";

const PATTERN_SYNTAX: &str = "pattern: syntax at ";

const PATTERN_UNSUPPORTED: &str = "pattern: unsupported at ";

const PATTERN_TOO_DEEP: &str = "pattern: too deep at ";

const PATTERN_TOO_MANY_POSITIONS: &str = "pattern: too many positions";

fn errors_status(soft: bool) -> u8
    ensures { result ≡ (if soft then 1 else 255) }
{
    if soft { 1 } else { 255 }
}

/// The exit status of a run that ended so, where errors of a walk are soft or not.
pub fn status(cause: &Cause, soft: bool) -> u8
    ensures { result ≡ status_of soft cause.now }
{
    match cause {
        Cause::Done => 0,
        Cause::WalkErrors { .. } => errors_status(soft),
        Cause::Differs { .. } | Cause::Denied { .. } => 1,
        Cause::ReadFault => 253,
        Cause::WriteFault => 252,
        Cause::OutOfMemory => 254,
        _ => 255,
    }
}

fn add(words: &str, text: &mut Bytes) -> Result<(), OutOfMemory>
    ensures { OnOk result (text.new ≡ text.old ++ words.now) }
{
    text.push(words.as_bytes())
}

fn add_number(alloc: Global, number: u32, text: &mut Bytes) -> Result<(), OutOfMemory>
    ensures { OnOk result (text.new ≡ text.old ++ decimal number) }
{
    text.push(format!(in alloc; "{number}")?.as_bytes())
}

fn add_name(alloc: Global, name: &str, text: &mut Bytes) -> Result<(), OutOfMemory>
    ensures { OnOk result (text.new ≡ text.old ++ escaped name.now) }
{
    write_escaped(alloc, name.as_bytes(), text)
}

// Adds a line's place in a file.
fn add_place(alloc: Global, name: &str, line: u32, text: &mut Bytes) -> Result<(), OutOfMemory>
    ensures { OnOk result (text.new ≡ text.old ++ place_text name.now line) }
{
    add_name(alloc, name, text)?;
    add(LINE, text)?;
    add_number(alloc, line, text)
}

fn add_pattern(alloc: Global, why: PatternWhy, text: &mut Bytes) -> Result<(), OutOfMemory>
    ensures { OnOk result (text.new ≡ text.old ++ pattern_reason why) }
{
    let (words, place) = match why {
        PatternWhy::Syntax { at } => (PATTERN_SYNTAX, at),
        PatternWhy::UnsupportedPattern { at } => (PATTERN_UNSUPPORTED, at),
        PatternWhy::TooDeep { at } => (PATTERN_TOO_DEEP, at),
        PatternWhy::TooManyPositions => return add(PATTERN_TOO_MANY_POSITIONS, text),
    };
    add(words, text)?;
    add_number(alloc, place, text)
}

fn add_why(alloc: Global, why: SpecWhy, text: &mut Bytes) -> Result<(), OutOfMemory>
    ensures { OnOk result (text.new ≡ text.old ++ spec_reason why) }
{
    match why {
        SpecWhy::MissingContext => add(MISSING_CONTEXT, text),
        SpecWhy::BadKind => add(BAD_TYPE, text),
        SpecWhy::BadContext => add(BAD_CONTEXT, text),
        SpecWhy::BadPattern(why) => add_pattern(alloc, why, text),
    }
}

fn usage_words(why: UsageWhy) -> &'static str
    ensures { result.now ≡ usage_reason why }
{
    match why {
        UsageWhy::UnknownTool => UNKNOWN_TOOL,
        UsageWhy::UnknownOption => UNKNOWN_OPTION,
        UsageWhy::MissingValue => MISSING_VALUE,
        UsageWhy::BadNumber => BAD_NUMBER,
        UsageWhy::BadPath => BAD_PATH,
        UsageWhy::BadKind => BAD_TYPE,
        UsageWhy::MissingOperand => MISSING_OPERAND,
        UsageWhy::NoOutput => NO_OUTPUT,
    }
}

fn dump_words(why: DumpWhy) -> &'static str
    ensures { result.now ≡ dump_reason why }
{
    match why {
        DumpWhy::NoSection => NO_SECTION,
        DumpWhy::BadName => BAD_NAME,
        DumpWhy::NoValue => NO_VALUE,
        DumpWhy::BadValue => BAD_VALUE,
    }
}

fn path_words(why: PathWhy) -> &'static str
    ensures { result.now ≡ path_reason why }
{
    match why {
        PathWhy::Empty => PATH_EMPTY,
        PathWhy::PathTooLong => PATH_TOO_LONG,
        PathWhy::HasNul => PATH_HAS_NUL,
        PathWhy::NotAbsolute => PATH_NOT_ABSOLUTE,
        PathWhy::DotPart => PATH_DOT_PART,
    }
}

fn record_words(why: RecordWhy) -> &'static str
    ensures { result.now ≡ record_reason why }
{
    match why {
        RecordWhy::MissingField => MISSING_FIELD,
        RecordWhy::BadType => BAD_TYPE,
        RecordWhy::BadNumber => BAD_NUMBER,
        RecordWhy::BadPath(why) => path_words(why),
    }
}

fn add_file_limit(alloc: Global, name: &str, text: &mut Bytes) -> Result<(), OutOfMemory>
    ensures { OnOk result (text.new ≡ text.old ++ (LIMIT_BYTES.now ++ escaped name.now)) }
{
    add(LIMIT_BYTES, text)?;
    add_name(alloc, name, text)
}

fn add_limit(
    alloc: Global,
    files: &FileList,
    which: LimitKind,
    text: &mut Bytes,
) -> Result<(), OutOfMemory>
    ensures { OnOk result (text.new ≡ text.old ++ limit_text files.now which) }
{
    match which {
        LimitKind::File(role) => add_file_limit(alloc, files.name_of(role), text),
        LimitKind::Specs => add(LIMIT_SPECS, text),
        LimitKind::Records => add(LIMIT_RECORDS, text),
        LimitKind::RecordBytes => add(LIMIT_RECORD_BYTES, text),
    }
}

fn add_usage(alloc: Global, index: u32, why: UsageWhy, text: &mut Bytes) -> Result<(), OutOfMemory>
    ensures { OnOk result (text.new ≡ text.old
        ++ (USAGE_WORD.now ++ decimal index ++ COLON.now ++ usage_reason why)) }
{
    add(USAGE_WORD, text)?;
    add_number(alloc, index, text)?;
    add(COLON, text)?;
    add(usage_words(why), text)
}

// Adds a line of a file of specifications that is none.
fn add_line_why(
    alloc: Global,
    name: &str,
    line: u32,
    why: SpecWhy,
    text: &mut Bytes,
) -> Result<(), OutOfMemory>
    ensures { OnOk result (text.new ≡ text.old
        ++ (place_text name.now line ++ COLON.now ++ spec_reason why)) }
{
    add_place(alloc, name, line, text)?;
    add(COLON, text)?;
    add_why(alloc, why, text)
}

// Adds a line of the file of stored digests that is refused.
fn add_dump_why(
    alloc: Global,
    name: &str,
    line: u32,
    why: DumpWhy,
    text: &mut Bytes,
) -> Result<(), OutOfMemory>
    ensures { OnOk result (text.new ≡ text.old
        ++ (place_text name.now line ++ COLON.now ++ dump_reason why)) }
{
    add_place(alloc, name, line, text)?;
    add(COLON, text)?;
    add(dump_words(why), text)
}

// Adds a line of a file, and what it is not.
fn add_line_not(
    alloc: Global,
    name: &str,
    line: u32,
    words: &str,
    text: &mut Bytes,
) -> Result<(), OutOfMemory>
    ensures { OnOk result (text.new ≡ text.old ++ (place_text name.now line ++ words.now)) }
{
    add_place(alloc, name, line, text)?;
    add(words, text)
}

fn add_record(
    alloc: Global,
    number: u32,
    why: RecordWhy,
    text: &mut Bytes,
) -> Result<(), OutOfMemory>
    ensures { OnOk result (text.new ≡ text.old
        ++ (RECORD.now ++ decimal number ++ COLON.now ++ record_reason why)) }
{
    add(RECORD, text)?;
    add_number(alloc, number, text)?;
    add(COLON, text)?;
    add(record_words(why), text)
}

fn add_unended(alloc: Global, number: u32, text: &mut Bytes) -> Result<(), OutOfMemory>
    ensures { OnOk result (text.new ≡ text.old ++ (RECORD.now ++ decimal number ++ NOT_ENDED.now)) }
{
    add(RECORD, text)?;
    add_number(alloc, number, text)?;
    add(NOT_ENDED, text)
}

fn add_doubled(alloc: Global, first: u32, second: u32, text: &mut Bytes) -> Result<(), OutOfMemory>
    ensures { OnOk result (text.new ≡ text.old
        ++ (RECORDS.now ++ decimal first ++ AND.now ++ decimal second ++ TWO_ENTRIES.now)) }
{
    add(RECORDS, text)?;
    add_number(alloc, first, text)?;
    add(AND, text)?;
    add_number(alloc, second, text)?;
    add(TWO_ENTRIES, text)
}

fn add_reason(
    alloc: Global,
    files: &FileList,
    cause: &Cause,
    text: &mut Bytes,
) -> Result<(), OutOfMemory>
    ensures { OnOk result (text.new ≡ text.old ++ reason_text files.now cause.now) }
{
    match cause {
        Cause::Done | Cause::WalkErrors { .. } | Cause::Differs { .. } | Cause::Denied { .. } => Ok(
            (),
        ),
        Cause::Usage { index, why } => add_usage(alloc, *index, *why, text),
        Cause::Missing { name } => {
            add_name(alloc, name.as_str(), text)?;
            add(NOT_FOUND, text)
        }
        Cause::SpecRefused { role, line, why } => {
            add_line_why(alloc, files.name_of(*role), *line, *why, text)
        }
        Cause::SubRefused { role, line } => {
            let name = files.name_of(*role);
            add_line_not(alloc, name, *line, NOT_A_SUBSTITUTION, text)
        }
        Cause::CustomRefused { line } => {
            let name = files.name_of(FileRole::alone(Part::Customizable));
            add_line_not(alloc, name, *line, NOT_A_TYPE, text)
        }
        Cause::DumpRefused { line, why } => {
            add_dump_why(
                alloc,
                files.name_of(FileRole::alone(Part::Stored)),
                *line,
                *why,
                text,
            )
        }
        Cause::TemplateRefused { line, why } => {
            let name = files.name_of(FileRole::alone(Part::Template));
            add_line_why(alloc, name, *line, *why, text)
        }
        Cause::UsersRefused { line } => {
            let name = files.name_of(FileRole::alone(Part::Users));
            add_line_not(alloc, name, *line, NOT_A_USER, text)
        }
        Cause::RecordRefused { number, why } => add_record(alloc, *number, *why, text),
        Cause::Unended { number } => add_unended(alloc, *number, text),
        Cause::Doubled { first, second } => add_doubled(alloc, *first, *second, text),
        Cause::Limit { which } => add_limit(alloc, files, *which, text),
        Cause::ReadFault => add(READ_FAILED, text),
        Cause::WriteFault => add(WRITE_FAILED, text),
        Cause::OutOfMemory => add(OUT_OF_MEMORY, text),
    }
}

/// The fault line of a cause, with its line feed; the names in it are escaped. It fails for want of
/// memory alone.
pub fn fault_line(alloc: Global, files: &FileList, cause: &Cause) -> Result<Bytes, OutOfMemory>
    ensures { IfOk result (λ line. line ≡ fault_line files.now cause.now) }
{
    let mut text = Bytes::new(alloc);
    add(PROGRAM, &mut text)?;
    add_reason(alloc, files, cause, &mut text)?;
    add(LINE_FEED, &mut text)?;
    Ok(text)
}
