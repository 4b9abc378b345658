ghost use Rattle.std.specs.Prelude.{◌≡◌, ◌++◌, IfOk};
ghost use Rattle.setfattr_dump.specs.Texts.{dump_text};
ghost use Rattle.report_text.specs.Texts.{report_of};
ghost use Rattle.relabel_core.specs.Answer.{walk_in};
ghost use Rattle.relabel_core.specs.Changes.{changes};
ghost use Rattle.relabel_core.specs.Digests.{walk_before};
ghost use Rattle.relabel_core.specs.Walk.{entry_lines};

use label_base::{Bytes, OutOfMemory, PiecedText};
use relabel_core::{Digests, Walked};
use std::alloc::Global;
use std::thread::Threads;
use threaded_texts::{Texts, add_texts};

// The lines of the entries of a walk.
#[derive(Drop)]
struct Lines<'w, 'a> {
    walked: &'w Walked<'a>,
}

impl Texts for Lines<'_, '_> {
    ghost use Rattle.relabel_core.specs.Answer.{walk_in};
    ghost use Rattle.relabel_core.specs.Report.{optional_text};
    ghost use Rattle.relabel_core.specs.Walk.{walk_count, line};

    ghost count = { λ lines. walk_count (walk_in lines.walked.now) };

    ghost text = { λ lines e. optional_text (line (walk_in lines.walked.now) e) };

    fn add(
        &self,
        alloc: Global,
        number: u32,
        _buffer: &mut Bytes,
        to: &mut Bytes,
    ) -> Result<(), OutOfMemory> {
        let walked = self.walked;
        walked.add_entry(alloc, number, to)
    }
}

// The sections of the entries of a walk.
#[derive(Drop)]
struct Sections<'d, 'w, 'a> {
    digests: &'d Digests<'w, 'a>,
}

impl Texts for Sections<'_, '_, '_> {
    ghost use Rattle.relabel_core.specs.Changes.{optional_section, section_at};
    ghost use Rattle.relabel_core.specs.Digests.{walk_before};
    ghost use Rattle.relabel_core.specs.Walk.{walk_count};

    ghost count = { λ sections. walk_count (walk_before sections.digests.now) };

    ghost text = { λ sections e.
        optional_section (section_at (walk_before sections.digests.now) e) };

    fn add(
        &self,
        alloc: Global,
        number: u32,
        buffer: &mut Bytes,
        to: &mut Bytes,
    ) -> Result<(), OutOfMemory> {
        let digests = self.digests;
        digests.add_section(alloc, number, buffer, to)
    }
}

/// Adds the lines of the entries of a walk at the end, by so many workers at once.
pub fn add_lines<R: Threads + Sync>(
    rt: &R,
    alloc: Global,
    walked: &Walked<'_>,
    workers: u32,
    to: PiecedText,
) -> Result<PiecedText, OutOfMemory>
    ensures { IfOk result (λ made. made ≡ to ++ report_of (entry_lines (walk_in walked.now))) }
{
    add_texts(rt, alloc, &Lines { walked }, walked.len(), workers, to)
}

/// Adds the sections of the entries of a walk at the end, by so many workers at once.
pub fn add_sections<R: Threads + Sync>(
    rt: &R,
    alloc: Global,
    digests: &Digests<'_, '_>,
    workers: u32,
    to: PiecedText,
) -> Result<PiecedText, OutOfMemory>
    ensures { IfOk result (λ made. made ≡ to ++ dump_text (changes (walk_before digests.now))) }
{
    let count = digests.walked().len();
    add_texts(rt, alloc, &Sections { digests }, count, workers, to)
}
