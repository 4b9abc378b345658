ghost use Rattle.std.specs.Prelude.{◌≡◌, ◌++◌, true, IfOk, OnOk, Some};
ghost use Rattle.std.specs.List.{AllByRecursion};
ghost use Rattle.label_base.specs.Escape.{escaped, unescaped};
ghost use Rattle.file_paths.specs.PathRef.{path_of};
ghost use Rattle.setfattr_dump.specs.Grammar.{IsValue};
ghost use Rattle.setfattr_dump.specs.ReadsBack.{AttrReads, NameReads, SectionReads};
ghost use Rattle.setfattr_dump.specs.Values.{value_text};
ghost use Rattle.setfattr_dump.specs.declared.marks.TheConstants.{LINE_END};
ghost use Rattle.setfattr_dump.specs.Texts.{attr_line, attrs_text, dump_text, is_readable};
ghost use Rattle.setfattr_dump.specs.Texts.{name_line, section_text};

use crate::dump::{Attr, Section};
use crate::marks::{FILE_MARK, KEY_END, LINE_END};
use crate::quoting::add_value;
use file_paths::PathRef;
use label_base::{Bytes, OutOfMemory, write_escaped};
use std::alloc::Global;

/// Adds the line that names a file, and so begins a section. Where memory runs out, a front of the
/// line may have been added.
pub fn add_name(alloc: Global, name: &PathRef<'_>, text: &mut Bytes) -> Result<(), OutOfMemory>
    ensures { OnOk result (text.new ≡ text.old ++ name_line (path_of name.now)) }
{
    text.push(FILE_MARK)?;
    write_escaped(alloc, name.as_text(), text)?;
    text.push(LINE_END)
}

/// Adds the line of an attribute: the value of `security.sehash` in hexadecimal digits, any other
/// between quotes. Where memory runs out, a front of the line may have been added.
pub fn add_attr(key: &[u8], value: &[u8], text: &mut Bytes) -> Result<(), OutOfMemory>
    ensures { OnOk result (text.new ≡ text.old ++ attr_line key.now value.now) }
{
    text.push(key)?;
    text.push(KEY_END)?;
    add_value(key, value, text)?;
    text.push(LINE_END)
}

/// Adds the empty line that ends a section.
pub fn end_section(text: &mut Bytes) -> Result<(), OutOfMemory>
    ensures { OnOk result (text.new ≡ text.old ++ LINE_END.now) }
{
    text.push(LINE_END)
}

// A law on all bytes: what is written of a value is, by the grammar, its text. It does nothing.
fn value_reads_back(_key: &[u8], _value: &[u8])
    ensures { IsValue (value_text _key.now _value.now) _value.now }
{}

// A law on all bytes: they are what their escaped form stands for. It does nothing.
fn escapes_read_back(_bytes: &[u8])
    ensures { unescaped (escaped _bytes.now) ≡ Some _bytes.now }
{}

// A law on names: one that isn't too long to be read is what its text spells. It does nothing.
fn name_reads_back(name: &PathRef<'_>)
    ensures { is_readable (path_of name.now) ≡ true → NameReads (path_of name.now) }
{
    escapes_read_back(name.as_text());
}

#[tactic(auto, unfolding(crate::specs::Texts::attrs_text))]
fn add_attrs(attrs: &[Attr], text: &mut Bytes) -> Result<(), OutOfMemory>
    ensures text { OnOk result (text.new ≡ text.old ++ attrs_text attrs.now) }
    ensures reads { OnOk result (AllByRecursion AttrReads attrs.now) }
{
    'attrs: for attr in attrs {
        value_reads_back(attr.key.as_slice(), attr.value.as_slice());
        add_attr(attr.key.as_slice(), attr.value.as_slice(), text)?;
    }
    Ok(())
}

fn add_section(alloc: Global, section: &Section, text: &mut Bytes) -> Result<(), OutOfMemory>
    ensures text { OnOk result (text.new ≡ text.old ++ section_text section.now) }
    ensures reads { OnOk result (SectionReads section.now) }
{
    let name = section.name.path();
    name_reads_back(&name);
    add_name(alloc, &name, text)?;
    add_attrs(section.attrs.as_slice(), text)?;
    end_section(text)
}

/// The text of sections.
#[tactic(auto, unfolding(crate::specs::Texts::dump_text))]
pub fn write_sections(alloc: Global, sections: &[Section]) -> Result<Bytes, OutOfMemory>
    ensures text { IfOk result (λ text. text ≡ dump_text sections.now) }
    ensures reads { IfOk result (λ _. AllByRecursion SectionReads sections.now) }
{
    let mut text = Bytes::new(alloc);
    'sections: for section in sections {
        add_section(alloc, section, &mut text)?;
    }
    Ok(text)
}
