ghost use Rattle.std.specs.Prelude.{◌≡◌, ◌<◌, ◌^◌, length, true};
ghost use Rattle.std.specs.Option.{option_map};
ghost use Rattle.label_base.specs.Answers.{Answers, fault_cause};
ghost use Rattle.pattern_syntax.specs.PatternCause.{pattern_cause};
ghost use Rattle.spec_reader.specs.SpecValue.{is_spec_kind};
ghost use Rattle.spec_reader.specs.SpecLines.{spec_of_fields, with_decision, with_pattern};

use crate::spec::{Decision, Spec};
use crate::spec_fault::SpecWhy;
use context_syntax::{Context, ContextFault};
use file_roles::Part;
use label_base::{EntryKind, Fault, LineReader, next_field};
use pattern_syntax::{Pattern, PatternFault};
use std::alloc::Global;

/// Stands in place of a context where files keep the labels that they have.
pub const NO_CONTEXT: &[u8] = b"<<none>>";

fn refused_pattern(fault: PatternFault) -> Fault<SpecWhy>
    ensures { fault_cause result ≡ option_map SpecWhy.BadPattern (pattern_cause fault) }
{
    match fault.why() {
        Some(why) => Fault::Why(SpecWhy::BadPattern(why)),
        None => Fault::OutOfMemory,
    }
}

#[tactic(auto, unfolding(crate::specs::SpecLines::with_pattern))]
fn read_pattern(
    alloc: Global,
    part: Part,
    line: u32,
    text: &[u8],
    kind: Option<EntryKind>,
    decision: Decision,
) -> Result<Spec, Fault<SpecWhy>>
    requires size { length text.now < 2 ^ 32 }
    requires kind { is_spec_kind kind ≡ true }
    ensures { Answers (λ spec. spec) fault_cause result
        (with_pattern part line text.now kind decision) }
{
    match Pattern::read(alloc, text) {
        Ok(pattern) => Ok(Spec {
            pattern,
            kind,
            decision,
            part,
            line,
        }),
        Err(fault) => Err(refused_pattern(fault)),
    }
}

#[tactic(auto, unfolding(crate::specs::SpecLines::with_decision))]
fn read_decision(
    alloc: Global,
    part: Part,
    line: u32,
    text: &[u8],
    kind: Option<EntryKind>,
    field: &[u8],
) -> Result<Spec, Fault<SpecWhy>>
    requires size { length text.now < 2 ^ 32 }
    requires kind { is_spec_kind kind ≡ true }
    ensures { Answers (λ spec. spec) fault_cause result
        (with_decision part line text.now kind field.now) }
{
    if field == NO_CONTEXT {
        return read_pattern(alloc, part, line, text, kind, Decision::Leave);
    }
    match Context::read(alloc, field) {
        Ok(context) => read_pattern(alloc, part, line, text, kind, Decision::Give(context)),
        Err(ContextFault::NoContext) => Err(Fault::Why(SpecWhy::BadContext)),
        Err(ContextFault::OutOfMemory) => Err(Fault::OutOfMemory),
    }
}

/// Reads the lines of a file of specifications.
#[derive(Drop)]
pub struct SpecReader {
    /// The file that the lines stand in.
    pub part: Part,
}

impl LineReader for SpecReader {
    type Value = Spec;

    type Why = SpecWhy;

    ghost meaning = { λ reader number fields. spec_of_fields reader.part number fields };

    fn read_line(
        &self,
        alloc: Global,
        number: u32,
        first: &[u8],
        more: Option<&[u8]>,
    ) -> Result<Spec, Fault<SpecWhy>> {
        let Some((second, more)) = next_field(more) else {
            return Err(Fault::Why(SpecWhy::MissingContext));
        };
        let Some((third, _)) = next_field(more) else {
            return read_decision(alloc, self.part, number, first, None, second);
        };
        match EntryKind::of_type_field(second) {
            Some(kind) => read_decision(alloc, self.part, number, first, Some(kind), third),
            None => Err(Fault::Why(SpecWhy::BadKind)),
        }
    }
}
