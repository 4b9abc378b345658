ghost use Rattle.std.specs.Prelude.{◌≡◌, ◌↔◌, IfOk, IsTrue};
ghost use Rattle.std.specs.Cmp.{partial_equiv_from_equiv};
ghost use Rattle.context_syntax.specs.Label.{label_of, same_label};
ghost use Rattle.context_syntax.specs.LabelEqual.{labels_equiv};
ghost use Rattle.context_syntax.specs.LabelGrammar.{SpellsLabel};

use crate::context::{Context, ContextFault};
use label_base::{Bytes, OutOfMemory};
use std::alloc::Global;

// find(1) prints it for an entry without a label.
const NO_LABEL: &[u8] = b"?";

/// The label of an inode, as find(1) prints it by `%Z` or the attribute `security.selinux` holds
/// it.
#[derive(Debug, Drop)]
pub enum Label {
    /// There is none.
    Absent,
    /// There is one that is no context. Its bytes are kept as they are.
    Odd(Bytes),
    /// A context.
    Is(Context),
}

impl Label {
    /// Reads a label: no bytes and `?` are none, a context is read as one, all else is odd.
    pub fn read(alloc: Global, bytes: &[u8]) -> Result<Label, OutOfMemory>
        ensures { IfOk result (λ label. label ≡ label_of bytes.now) }
    {
        if bytes.is_empty() || bytes == NO_LABEL {
            return Ok(Label::Absent);
        }
        match Context::read(alloc, bytes) {
            Ok(context) => Ok(Label::Is(context)),
            Err(ContextFault::NoContext) => Ok(Label::Odd(Bytes::copy_of(alloc, bytes)?)),
            Err(ContextFault::OutOfMemory) => Err(OutOfMemory),
        }
    }

    /// A law on all bytes: the label that is read is the one that they spell. It does nothing.
    #[tactic(auto, using(crate::proofs::LabelSpelling::label_spelled))]
    pub fn follows_grammar(_bytes: &[u8])
        ensures { (label : _) → (label_of _bytes.now ≡ label) ↔ SpellsLabel _bytes.now label }
    {}

    /// A copy.
    pub fn copy(&self, alloc: Global) -> Result<Label, OutOfMemory>
        ensures { IfOk result (λ copy. copy ≡ self.now) }
    {
        match self {
            Label::Absent => Ok(Label::Absent),
            Label::Odd(bytes) => Ok(Label::Odd(Bytes::copy_of(alloc, bytes.as_slice())?)),
            Label::Is(context) => Ok(Label::Is(context.copy(alloc)?)),
        }
    }
}

impl PartialEq for Label {
    ghost eq = { same_label };

    ghost laws = { partial_equiv_from_equiv labels_equiv };

    fn eq(&self, other: &Label) -> bool
        ensures computed { result ≡ same_label self.now other.now }
        ensures equal { IsTrue result ↔ (self.now ≡ other.now) }
    {
        match (self, other) {
            (Label::Absent, Label::Absent) => true,
            (Label::Odd(bytes), Label::Odd(others)) => *bytes == *others,
            (Label::Is(context), Label::Is(others)) => *context == *others,
            _ => false,
        }
    }
}

impl Eq for Label {
    ghost laws = { labels_equiv };
}
