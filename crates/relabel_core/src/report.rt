ghost use Rattle.std.specs.Prelude.{◌≡◌, ◌<◌, ◌++◌, [], IfOk, None, OnOk, Some, false, get_or};
ghost use Rattle.std.specs.Prelude.{if◌then◌else◌, length, option_map, replicate, slice_get};
ghost use Rattle.file_paths.specs.PathRef.{path_of};
ghost use Rattle.report_text.specs.Message.{message_of};
ghost use Rattle.report_text.specs.Texts.{report_of};
ghost use Rattle.relabel_core.specs.Answer.{walk_in};
ghost use Rattle.relabel_core.specs.Report.{AreRaised, absent_text, optional_text, raised_at};
ghost use Rattle.relabel_core.specs.Report.{text_below, unflagged_line};
ghost use Rattle.relabel_core.specs.Walk.{absent_lines, walk_count, entry_lines, line};
ghost use Rattle.relabel_core.specs.Walk.{line_of_spec, messages, unmatched_lines};
ghost use Rattle.relabel_core.specs.Walked.{walk_of};

use crate::input::WalkInput;
use crate::walked::Walked;
use file_paths::{NormPath, PathRef};
use label_base::{Bytes, OutOfMemory};
use label_rules::{Rules, given_by, spec_at};
use report_text::{Message, add_line};
use std::alloc::Global;

fn add_message(
    alloc: Global,
    message: &Option<Message<'_>>,
    to: &mut Bytes,
) -> Result<(), OutOfMemory>
    ensures { OnOk result (to.new ≡ to.old ++ optional_text (option_map message_of message.now)) }
{
    match message {
        None => Ok(()),
        Some(message) => add_line(alloc, message, to),
    }
}

/// The operand with an index, or the empty path.
pub fn operand_at<'a>(operands: &'a [NormPath], i: u32) -> PathRef<'a>
    ensures { path_of result ≡ get_or operands.now i [] }
{
    match operands.get(i as usize) {
        Some(path) => path.path(),
        None => PathRef::of_text(b""),
    }
}

/// Adds the lines of the operands with these indices, which have no entry.
pub fn add_absent_of(
    alloc: Global,
    operands: &[NormPath],
    indices: &[u32],
    to: &mut Bytes,
) -> Result<(), OutOfMemory>
    ensures { OnOk result (to.new ≡ to.old ++ absent_text operands.now indices.now) }
{
    'operands: for i in indices {
        let message = Message::Absent {
            path: operand_at(operands, *i),
        };
        add_line(alloc, &message, to)?;
    }
    Ok(())
}

// The lines of the operands without an entry.
fn add_absent(alloc: Global, input: &WalkInput<'_>, to: &mut Bytes) -> Result<(), OutOfMemory>
    ensures { OnOk result (to.new ≡ to.old ++ report_of (absent_lines (walk_of input.now))) }
{
    if input.options.ignore_absent {
        return Ok(());
    }
    add_absent_of(
        alloc,
        input.operands.as_slice(),
        input.chosen.absent().as_slice(),
        to,
    )
}

// The lines of the entries.
fn add_entries(alloc: Global, walked: &Walked<'_>, to: &mut Bytes) -> Result<(), OutOfMemory>
    ensures { OnOk result (to.new ≡ to.old ++ report_of (entry_lines (walk_in walked.now))) }
{
    'entries: for e in 0..walked.len() {
        walked.add_entry(alloc, e, to)?;
    }
    Ok(())
}

/// So many flags that are not raised.
pub fn no_flags(alloc: Global, count: u32) -> Result<Vec<bool>, OutOfMemory>
    ensures { IfOk result (λ flags. flags.items ≡ replicate count false) }
{
    let mut flags = Vec::with_capacity(alloc, count as usize)?;
    'places: for _ in 0..count {
        flags.push(false)?;
    }
    Ok(flags)
}

fn raise_at(flags: &mut Vec<bool>, i: u32)
    ensures { flags.new.items ≡ raised_at flags.old.items (Some i) }
{
    if (i as usize) < flags.len() {
        flags[i as usize] = true;
    }
}

/// Raises the flag of a specification, where one is found.
pub fn raise(flags: &mut Vec<bool>, found: Option<u32>)
    ensures { flags.new.items ≡ raised_at flags.old.items found }
{
    match found {
        Some(i) => raise_at(flags, i),
        None => {}
    }
}

// Raises a flag for each specification that decides an entry.
fn flags_of(alloc: Global, walked: &Walked<'_>) -> Result<Vec<bool>, OutOfMemory>
    ensures { IfOk result (λ flags.
        AreRaised (walk_in walked.now) (length walked.now.input.tree.now) flags.items) }
{
    let mut flags = no_flags(alloc, walked.input.rules.rules.len())?;
    'entries: for e in 0..walked.len() {
        raise(&mut flags, walked.deciding(e));
    }
    Ok(flags)
}

fn line_of_spec(rules: &Rules, i: u32) -> Option<Message<'_>>
    ensures { option_map message_of result ≡ line_of_spec (slice_get rules.now.rules i) }
{
    match spec_at(rules, Some(i)) {
        None => None,
        Some(spec) => Some(Message::NoMatches {
            text: spec.text(),
            kind: spec.kind,
            context: given_by(spec),
        }),
    }
}

// The line of a specification, unless its flag is raised.
fn line_unless<'a>(rules: &'a Rules, i: u32, flag: bool) -> Option<Message<'a>>
    ensures { option_map message_of result
        ≡ (if flag then None else line_of_spec (slice_get rules.now.rules i)) }
{
    if flag {
        return None;
    }
    line_of_spec(rules, i)
}

fn flag_at(flags: &[bool], i: u32) -> bool
    ensures { result ≡ get_or flags.now i false }
{
    match flags.get(i as usize) {
        Some(flag) => *flag,
        None => false,
    }
}

/// The line of a specification, unless its flag is raised.
pub fn unflagged_line<'a>(rules: &'a Rules, flags: &[bool], i: u32) -> Option<Message<'a>>
    ensures { option_map message_of result ≡ unflagged_line rules.now flags.now i }
{
    line_unless(rules, i, flag_at(flags, i))
}

// The lines of the specifications whose flags are not raised.
fn add_unflagged(
    alloc: Global,
    rules: &Rules,
    flags: &[bool],
    to: &mut Bytes,
) -> Result<(), OutOfMemory>
    ensures { OnOk result (to.new
        ≡ to.old ++ text_below (unflagged_line rules.now flags.now) (length rules.now.rules)) }
{
    'specs: for i in 0..rules.rules.len() {
        add_message(alloc, &unflagged_line(rules, flags, i), to)?;
    }
    Ok(())
}

impl<'a> Walked<'a> {
    /// Adds at the end the line of an entry, if it has one.
    pub fn add_entry(&self, alloc: Global, e: u32, to: &mut Bytes) -> Result<(), OutOfMemory>
        requires { e < walk_count (walk_in self.now) }
        ensures { OnOk result (to.new ≡ to.old ++ optional_text (line (walk_in self.now) e)) }
    {
        add_message(alloc, &self.message_at(e), to)
    }

    /// Adds at the end the lines of the operands without an entry, unless these are ignored: they
    /// stand before those of the entries.
    pub fn add_absent(&self, alloc: Global, to: &mut Bytes) -> Result<(), OutOfMemory>
        ensures { OnOk result (to.new ≡ to.old ++ report_of (absent_lines (walk_in self.now))) }
    {
        add_absent(alloc, &self.input, to)
    }

    /// Adds at the end the lines of the specifications that decide no entry, where these are asked
    /// for: they stand behind those of the entries.
    pub fn add_unmatched(&self, alloc: Global, to: &mut Bytes) -> Result<(), OutOfMemory>
        ensures { OnOk result (to.new ≡ to.old ++ report_of (unmatched_lines (walk_in self.now))) }
    {
        if !self.input.options.warn_unmatched {
            return Ok(());
        }
        let flags = flags_of(alloc, self)?;
        add_unflagged(alloc, self.input.rules, flags.as_slice(), to)?;
        Ok(())
    }

    /// Adds the lines of all messages at the end: those of the operands without an entry, those of
    /// the entries in the order of their paths, and those of the specifications that decide no
    /// entry. After want of memory a front of them may have been added.
    pub fn add_report(&self, alloc: Global, to: &mut Bytes) -> Result<(), OutOfMemory>
        ensures { OnOk result (to.new ≡ to.old ++ report_of (messages (walk_in self.now))) }
    {
        self.add_absent(alloc, to)?;
        add_entries(alloc, self, to)?;
        self.add_unmatched(alloc, to)?;
        Ok(())
    }
}
