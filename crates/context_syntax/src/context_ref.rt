ghost use Rattle.std.specs.Prelude.{◌≡◌, ◌++◌, OnErr, OnOk};
ghost use Rattle.context_syntax.specs.Context.{context_text};
ghost use Rattle.context_syntax.specs.ContextRef.{context_lent};

use crate::context::Context;
use label_base::{Bytes, OutOfMemory};
use std::alloc::Global;

/// A borrowed context: the user, role and range of one, with the type of another or of the same
/// one.
#[derive(Clone, Copy, Debug)]
pub struct ContextRef<'a> {
    /// Whose user, role and range it has.
    pub rest: &'a Context,
    /// Whose type it has.
    pub kind: &'a Context,
}

impl<'a> ContextRef<'a> {
    /// The whole of a context.
    pub fn whole(context: &'a Context) -> ContextRef<'a>
        ensures { context_lent result ≡ context.now }
    {
        ContextRef {
            rest: context,
            kind: context,
        }
    }

    /// Adds the one spelling at the end. Where memory runs out, a front of it may have been added.
    pub fn add(&self, to: &mut Bytes) -> Result<(), OutOfMemory>
        ensures { OnOk result (to.new ≡ to.old ++ context_text (context_lent self.now)) }
    {
        let rest = self.rest;
        let kind = self.kind;
        to.push(rest.before_kind())?;
        to.push(kind.kind())?;
        to.push(rest.behind_kind())
    }

    /// Adds the one spelling at the end. Where memory runs out, nothing is added.
    pub fn write(&self, alloc: Global, to: &mut Bytes) -> Result<(), OutOfMemory>
        ensures ok { OnOk result (to.new ≡ to.old ++ context_text (context_lent self.now)) }
        ensures err { OnErr result (to.new ≡ to.old) }
    {
        let mut text = Bytes::new(alloc);
        self.add(&mut text)?;
        to.push(text.as_slice())
    }
}
