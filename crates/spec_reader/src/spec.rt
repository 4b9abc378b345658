ghost use Rattle.std.specs.Prelude.{◌≡◌};

use context_syntax::Context;
use file_roles::Part;
use label_base::EntryKind;
use pattern_syntax::Pattern;
use std::marker::Model;

/// What a specification decides.
#[derive(Debug, Drop)]
pub enum Decision {
    /// `<<none>>`: files keep the labels that they have.
    Leave,
    /// Files get this context.
    Give(Context),
}

/// One specification of a file_contexts file. Its pattern is what its text reads as, and its kind
/// isn't `Other`.
#[derive(Debug)]
pub struct Spec {
    /// The pattern field, with its text as it stands in the line.
    pub pattern: Pattern,
    pub decision: Decision,
    /// The only kind of file that it is for, or none where it is for every kind.
    pub kind: Option<EntryKind>,
    /// The file that the line stands in.
    pub part: Part,
    /// The line's number, from 1.
    pub line: u32,
}

// By hand: one call for an owner, where a derived drop is a step for each field.
impl Drop for Spec {
    fn drop(self) {
        let Spec {
            pattern: _,
            decision: _,
            kind: _,
            part: _,
            line: _,
        } = self;
    }
}

impl Model for Spec {
    ghost use Rattle.spec_reader.specs.SpecValue.{SpecValue, IsSpec};

    ghost Value = { SpecValue };

    ghost use Rattle.std.specs.Coded.{codes};
    ghost use Rattle.pattern_syntax.specs.Tree.{tree_code};

    ghost coded = { Prim.hlevel (codes, tree_code) };

    ghost view = { λ s.
        record {
          text = s.pattern.text;
          pattern = s.pattern.tree;
          kind = s.kind;
          decision = s.decision;
          part = s.part;
          line = s.line;
        } };

    ghost invariant = { λ s. IsSpec
        (record {
          text = s.pattern.text;
          pattern = s.pattern.tree;
          kind = s.kind;
          decision = s.decision;
          part = s.part;
          line = s.line;
        }) };
}

impl Spec {
    /// The pattern field as it stands in the line.
    pub fn text(&self) -> &[u8]
        ensures { result.now ≡ self.now.text }
    {
        self.pattern.text()
    }
}
