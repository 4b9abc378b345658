ghost use Rattle.std.specs.Prelude.{◌≡◌, ◌↔◌, ◌<◌, ◌^◌, true, length, IfOk, Ok};
ghost use Rattle.label_base.specs.Answers.{Answers, fault_cause};
ghost use Rattle.setfattr_dump.specs.Grammar.{DumpMeans};
ghost use Rattle.setfattr_dump.specs.Reading.{dump_read};
ghost use Rattle.setfattr_dump.specs.Texts.{are_writable, dump_text};

use crate::fault::DumpFault;
use crate::reading::read_sections;
use crate::writing::write_sections;
use file_paths::NormPath;
use label_base::{Bytes, OutOfMemory, Row};
use std::alloc::Global;

/// An extended attribute: its key and the bytes of its value.
#[derive(Debug, Drop)]
pub struct Attr {
    pub key: Bytes,
    pub value: Bytes,
}

/// A file and attributes of it, in the order in which they stand.
#[derive(Debug)]
pub struct Section {
    pub name: NormPath,
    pub attrs: Row<Attr>,
}

// By hand: one call for an owner, where a derived drop is a step for each field.
impl Drop for Section {
    fn drop(self) {
        let Section { name: _, attrs: _ } = self;
    }
}

/// Sections in the order in which they stand. Several may have the same name.
#[derive(Debug, Drop)]
pub struct Dump {
    pub sections: Row<Section>,
}

impl Dump {
    /// Reads a dump, as setfattr(1) reads it with `--restore`.
    ///
    /// A line that begins with `# file: ` opens a section; what follows is the name of a file, with
    /// escapes and perhaps without its first slash. An empty line closes the section, as does the
    /// end. Any other line is an attribute: a key up to the first `=`, and a value, which is a text
    /// between quotes or pairs of hexadecimal digits behind `0x`. The first refused line is told,
    /// counted from 1.
    pub fn read(alloc: Global, bytes: &[u8]) -> Result<Dump, DumpFault>
        requires { length bytes.now < 2 ^ 32 }
        ensures { Answers (λ dump. dump.sections) fault_cause result (dump_read bytes.now) }
    {
        Ok(Dump {
            sections: read_sections(alloc, bytes)?,
        })
    }

    /// The dump as a text, as getfattr(1) writes it: what is written is read back as this dump.
    ///
    /// No key may be empty, have a `=` or a line feed, or begin as a line that names a file. A name
    /// may not be longer than a path that is read, nor have a component `.` or `..`.
    pub fn write(&self, alloc: Global) -> Result<Bytes, OutOfMemory>
        requires { are_writable self.now.sections ≡ true }
        ensures text { IfOk result (λ text. text ≡ dump_text self.now.sections) }
        ensures reads_back { IfOk result (λ text. dump_read text ≡ Ok self.now.sections) }
    {
        write_sections(alloc, self.sections.as_slice())
    }
}

/// A law on all bytes: what [`Dump::read`] reads of them is what the grammar of setfattr(1) says,
/// the first refused line included. It does nothing.
#[tactic(auto, using(crate::proofs::DumpMeant::dump_means))]
pub fn dumps_follow_grammar(_bytes: &[u8])
    ensures { (meant : _) → (dump_read _bytes.now ≡ meant) ↔ DumpMeans _bytes.now meant }
{}

/// A law on all bytes: what [`Dump::read`] reads of them meets the condition of [`Dump::write`]. It
/// does nothing.
#[tactic(auto, using(crate::proofs::Writable::read_writable))]
pub fn read_dumps_can_be_written(_bytes: &[u8])
    ensures { (sections : _) → dump_read _bytes.now ≡ Ok sections → are_writable sections ≡ true }
{}
