ghost use Rattle.std.specs.Prelude.{◌≡◌, ◌++◌, ◌<◌, ◌^◌, [], length, is_some, option_map, IfErr};
ghost use Rattle.std.specs.Prelude.{None, OnOk, Some};
ghost use Rattle.label_base.specs.Answers.{Answers, Explains, fault_cause};
ghost use Rattle.setfattr_dump.specs.Reading.{dump_read, line_read, open_section};
ghost use Rattle.setfattr_dump.specs.SoFar.{IsState, TakesSaid};

use crate::dump::{Attr, Section};
use crate::fault::{DumpFault, DumpWhy};
use crate::line::{Said, read_line};
use file_paths::NormPath;
use label_base::{Fault, OutOfMemory, RefusedLine, Row, next_line};
use std::alloc::Global;
use std::mem;

// The sections that are closed, and the name and the attributes of the one that is open, if one is.
#[derive(Drop)]
pub struct SectionsSoFar {
    pub sections: Row<Section>,
    pub name: Option<NormPath>,
    pub attrs: Row<Attr>,
}

// Closes the section that is open, if one is.
fn close(alloc: Global, so_far: &mut SectionsSoFar) -> Result<(), OutOfMemory>
    ensures { OnOk result (IsState so_far.new
        (so_far.old.sections ++ open_section so_far.old.name so_far.old.attrs) None []) }
{
    let attrs = mem::replace(&mut so_far.attrs, Row::new(alloc));
    match so_far.name.take() {
        Some(name) => so_far.sections.push(Section { name, attrs }),
        None => Ok(()),
    }
}

fn open(alloc: Global, so_far: &mut SectionsSoFar, name: NormPath) -> Result<(), OutOfMemory>
    ensures { OnOk result (IsState so_far.new
        (so_far.old.sections ++ open_section so_far.old.name so_far.old.attrs) (Some name) []) }
{
    close(alloc, so_far)?;
    so_far.name = Some(name);
    Ok(())
}

// Takes the next line.
fn take_line(alloc: Global, so_far: &mut SectionsSoFar, line: &[u8]) -> Result<(), Fault<DumpWhy>>
    ensures ok { OnOk result
        (TakesSaid (line_read (is_some so_far.old.name) line.now) so_far.old so_far.new) }
    ensures err { IfErr result (λ fault. Explains (fault_cause fault)
        (line_read (is_some so_far.old.name) line.now)) }
{
    match read_line(alloc, so_far.name.is_some(), line)? {
        Said::Ends => Ok(close(alloc, so_far)?),
        Said::Names(name) => Ok(open(alloc, so_far, name)?),
        Said::Gives(attr) => Ok(so_far.attrs.push(attr)?),
    }
}

fn refused_at(number: u32, fault: Fault<DumpWhy>) -> DumpFault
    ensures { fault_cause result
        ≡ option_map (λ why. record { number = number; why = why }) (fault_cause fault) }
{
    match fault {
        Fault::Why(why) => Fault::Why(RefusedLine { number, why }),
        Fault::OutOfMemory => Fault::OutOfMemory,
    }
}

/// The sections of a dump.
pub fn read_sections(alloc: Global, bytes: &[u8]) -> Result<Row<Section>, DumpFault>
    requires { length bytes.now < 2 ^ 32 }
    ensures { Answers (λ sections. sections) fault_cause result (dump_read bytes.now) }
{
    let mut so_far = SectionsSoFar {
        sections: Row::new(alloc),
        name: None,
        attrs: Row::new(alloc),
    };
    let mut left = bytes;
    let mut number = 0u32;
    'lines: while let Some((line, rest)) = next_line(left) {
        number += 1;
        match take_line(alloc, &mut so_far, line) {
            Ok(()) => left = rest,
            Err(fault) => return Err(refused_at(number, fault)),
        }
    }
    close(alloc, &mut so_far)?;
    let SectionsSoFar { sections, .. } = so_far;
    Ok(sections)
}
