ghost use Rattle.std.specs.Prelude.{◌≡◌, ◌↔◌, ◌<◌, ◌^◌, length};
ghost use Rattle.label_base.specs.Answers.{Answers, fault_cause};
ghost use Rattle.context_syntax.specs.TypeNames.{name_in, types_read};
ghost use Rattle.context_syntax.specs.TypesGrammar.{TypesMean};

use crate::context::is_type_name;
use crate::type_names::TypeNames;
use label_base::{Bytes, Fault, LineReader, RefusedLine, next_field, read_lines};
use std::alloc::Global;

/// A line is no type name.
#[derive(Clone, Copy, Debug, PartialEq, Eq)]
pub struct NoTypeName;

/// Why a file of customizable types was refused: its first line that is no type name, or want of
/// memory.
pub type CustomFault = Fault<RefusedLine<NoTypeName>>;

// Reads the lines of a file of customizable types.
struct NameReader;

impl LineReader for NameReader {
    type Value = Bytes;

    type Why = NoTypeName;

    ghost meaning = { λ _ _ fields. name_in fields };

    fn read_line(
        &self,
        alloc: Global,
        _number: u32,
        first: &[u8],
        more: Option<&[u8]>,
    ) -> Result<Bytes, Fault<NoTypeName>> {
        if next_field(more).is_some() || !is_type_name(first) {
            return Err(Fault::Why(NoTypeName));
        }
        Ok(Bytes::copy_of(alloc, first)?)
    }
}

/// Reads the file of customizable_types(5): a type name on each line, blank lines and comments
/// aside. The first line that is none of these is refused.
pub fn read_customizable(alloc: Global, bytes: &[u8]) -> Result<TypeNames, CustomFault>
    requires { length bytes.now < 2 ^ 32 }
    ensures { Answers (λ types. types) fault_cause result (types_read bytes.now) }
{
    let names = read_lines(alloc, &NameReader, bytes)?;
    Ok(TypeNames::of(alloc, names)?)
}

/// A law on all bytes: what [`read_customizable`] reads of them is what the grammar of
/// customizable_types(5) says, the first refused line included. It does nothing.
#[tactic(auto, using(crate::proofs::TypesMeant::types_mean))]
pub fn types_follow_grammar(_bytes: &[u8])
    ensures { (meant : _) → (types_read _bytes.now ≡ meant) ↔ TypesMean _bytes.now meant }
{}
