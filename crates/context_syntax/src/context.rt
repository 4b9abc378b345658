ghost use Rattle.std.specs.Cmp.{partial_equiv_from_equiv};
ghost use Rattle.std.specs.Prelude.{◌≡◌, ◌++◌, ◌↔◌, ◌<◌, ◌≤◌, true, false, length, take, get_or};
ghost use Rattle.std.specs.Prelude.{IfOk, IfNone, IfSome, IsTrue, OnErr, OnOk};
ghost use Rattle.std.specs.List.{list_all};
ghost use Rattle.std.specs.Option.{option_copied};
ghost use Rattle.label_base.specs.Answers.{Finds};
ghost use Rattle.label_base.specs.Cut.{front, behind};
ghost use Rattle.context_syntax.specs.Context.{ContextValue, IsContext, SpellsContext, context_of};
ghost use Rattle.context_syntax.specs.Context.{context_text, is_colon, is_range, is_range_byte};
ghost use Rattle.context_syntax.specs.Context.{is_word, is_word_byte, same_but_user, same_context};
ghost use Rattle.context_syntax.specs.Context.{IsContextText, before_kind, behind_colon};
ghost use Rattle.context_syntax.specs.Context.{context_spelled, range_text, with_kind_of};
ghost use Rattle.context_syntax.specs.declared.context.ContextFault.TheVariants as faults;
ghost use Rattle.context_syntax.specs.Equal.{contexts_equiv};

use label_base::{Bytes, OutOfMemory, cut_at};
use std::alloc::Global;
use std::marker::Model;

// Parts the user, the role, the type and the range.
pub(crate) const COLON: u8 = b':';

// Each byte of a word stands at its own place, and a colon at every other place.
static WORD_BYTES: [u8; 256] = *b"\
    ::::::::::::::::::::::::::::::::\
    :::::::::::::-.:0123456789::::::\
    :ABCDEFGHIJKLMNOPQRSTUVWXYZ::::_\
    :abcdefghijklmnopqrstuvwxyz:::::\
    ::::::::::::::::::::::::::::::::\
    ::::::::::::::::::::::::::::::::\
    ::::::::::::::::::::::::::::::::\
    ::::::::::::::::::::::::::::::::";

/// A security context, as restorecon(8) and file_contexts(5) write it: `user:role:type`, or
/// `user:role:type:range`. Each part is in the grammar of its place, so there is one spelling for
/// each value. Contracts see its parts.
#[derive(Debug)]
pub struct Context {
    // The spelling.
    text: Vec<u8>,
    // Where the type begins in it.
    kind_at: u32,
    // Where the type ends.
    kind_end: u32,
}

// By hand: one call for an owner, where a derived drop is a step for each field.
impl Drop for Context {
    fn drop(self) {
        let Context {
            text: _,
            kind_at: _,
            kind_end: _,
        } = self;
    }
}

impl Model for Context {
    ghost use Rattle.context_syntax.specs.Context.{ContextValue, IsContextText, context_spelled};

    ghost Value = { ContextValue };

    ghost view = { λ c. context_spelled c.text.items };

    ghost invariant = { λ c. IsContextText c.text.items c.kind_at c.kind_end };
}

/// Why bytes gave no context.
#[derive(Clone, Copy, Debug, PartialEq, Eq)]
pub enum ContextFault {
    /// They spell none.
    NoContext,
    /// Memory ran out.
    OutOfMemory,
}

impl From<OutOfMemory> for ContextFault {
    ghost from_gives = { λ _ e. e ≡ faults.OutOfMemory };

    fn from(_refused: OutOfMemory) -> ContextFault {
        ContextFault::OutOfMemory
    }
}

pub(crate) fn is_type_name(bytes: &[u8]) -> bool
    ensures { result ≡ is_word bytes.now }
{
    !bytes.is_empty() && are_word_bytes(bytes)
}

fn are_word_bytes(bytes: &[u8]) -> bool
    ensures { result ≡ list_all is_word_byte bytes.now }
{
    bytes.iter().all(|b| may_stand_in_word(*b))
}

fn are_range_bytes(bytes: &[u8]) -> bool
    ensures { result ≡ list_all is_range_byte bytes.now }
{
    bytes.iter().all(|b| may_stand_in_range(*b))
}

fn may_stand_in_word(b: u8) -> bool
    ensures { result ≡ is_word_byte b }
{
    WORD_BYTES[b as usize] != COLON
}

fn is_range_or_none(range: Option<&[u8]>) -> bool
    ensures { result ≡ is_range (option_copied range.entry) }
{
    match range {
        None => true,
        Some(bytes) => !bytes.is_empty() && are_range_bytes(bytes),
    }
}

fn may_stand_in_range(b: u8) -> bool
    ensures { result ≡ is_range_byte b }
{
    b.is_ascii_graphic() && b != b'"' && b != b'\\'
}

// How many bytes at the front may stand in a word.
fn word_length(text: &[u8]) -> usize
    ensures within { result ≤ length text.now }
    ensures word { list_all is_word_byte (take result text.now) ≡ true }
    ensures end { result < length text.now → is_word_byte (get_or text.now result 0) ≡ false }
{
    let mut length = 0;
    'bytes: for byte in text {
        if !may_stand_in_word(*byte) {
            return length;
        }
        length += 1;
    }
    length
}

// The word in front of the first colon, and what stands behind that colon, if there is one; nothing
// where no word stands there. Parts of a context are short: to look for the colon first would take
// longer.
fn cut_word(text: &[u8]) -> Option<(&[u8], Option<&[u8]>)>
    ensures front { IfSome result (λ cut. cut.0.now ≡ front is_colon text.now) }
    ensures behind { IfSome result
        (λ cut. option_copied cut.1 ≡ behind is_colon text.now) }
    ensures word { IfSome result (λ cut. is_word (front is_colon text.now) ≡ true) }
    ensures none { IfNone result (is_word (front is_colon text.now) ≡ false) }
{
    let length = word_length(text);
    if length == 0 {
        return None;
    }
    if length == text.len() {
        return Some((text, None));
    }
    if text[length] != COLON {
        return None;
    }
    Some((&text[..length], Some(&text[length + 1..])))
}

// What stands behind the first colon, if a word stands in front of it.
fn behind_word(text: &[u8]) -> Option<&[u8]>
    ensures some { IfSome result (λ rest. (behind is_colon text.now ≡ Some rest.now)
        × (is_word (front is_colon text.now) ≡ true)) }
    ensures none { IfNone result ((rest : _) → behind is_colon text.now ≡ Some rest
        → is_word (front is_colon text.now) ≡ false) }
{
    let (_, rest) = cut_word(text)?;
    rest
}

// What stands behind the first colon, or nothing.
fn behind_colon(text: &[u8]) -> &[u8]
    ensures { result.now ≡ behind_colon text.now }
{
    match cut_at(COLON, text).1 {
        Some(rest) => rest,
        None => &[],
    }
}

// The context that the bytes spell, with a type between these places. One that is longer than its
// places can tell has no room.
fn kept(
    alloc: Global,
    bytes: &[u8],
    kind_at: usize,
    kind_end: usize,
) -> Result<Context, OutOfMemory>
    requires { IsContextText bytes.now kind_at kind_end }
    ensures { IfOk result (λ context. context ≡ context_spelled bytes.now) }
{
    if bytes.len() > u32::MAX as usize {
        return Err(OutOfMemory);
    }
    Ok(Context {
        text: Vec::from_slice(alloc, bytes)?,
        kind_at: kind_at as u32,
        kind_end: kind_end as u32,
    })
}

impl Context {
    ghost use Rattle.context_syntax.specs.ContextCause.{is_want_of_memory};

    #[tactic(auto, using(crate::proofs::Spelling::complete, crate::proofs::Spelling::sound))]
    /// Reads a context. `NoContext` comes exactly where the bytes spell none.
    /// Its spelling is kept in one allocation.
    pub fn read(alloc: Global, bytes: &[u8]) -> Result<Context, ContextFault>
        ensures meant { Finds (λ c. c) is_want_of_memory result (context_of bytes.now) }

        // What is read and what the bytes spell is the same.
        ensures spelled { IfOk result (λ context. SpellsContext bytes.now context) }
        ensures no_context { result ≡ Err ContextFault.NoContext → (c : ContextValue)
            → ¬ (SpellsContext bytes.now c) }
        ensures complete { (c : ContextValue) → SpellsContext bytes.now c → context_of bytes.now
            ≡ Some c }
        ensures sound { (c : ContextValue) → context_of bytes.now ≡ Some c
            → SpellsContext bytes.now c }
    {
        let Some(rest) = behind_word(bytes) else {
            return Err(ContextFault::NoContext);
        };
        let Some(rest) = behind_word(rest) else {
            return Err(ContextFault::NoContext);
        };
        let Some((kind, range)) = cut_word(rest) else {
            return Err(ContextFault::NoContext);
        };
        if !is_range_or_none(range) {
            return Err(ContextFault::NoContext);
        }
        let kind_at = bytes.len() - rest.len();
        Ok(kept(alloc, bytes, kind_at, kind_at + kind.len())?)
    }

    /// The user: one or more of the ASCII letters and digits, `_`, `.` and `-`.
    pub fn user(&self) -> &[u8]
        ensures { result.now ≡ self.now.user }
    {
        cut_at(COLON, self.text.as_slice()).0
    }

    /// The role, in the grammar of the user.
    pub fn role(&self) -> &[u8]
        ensures { result.now ≡ self.now.role }
    {
        cut_at(COLON, behind_colon(self.text.as_slice())).0
    }

    /// The type, in the grammar of the user.
    pub fn kind(&self) -> &[u8]
        ensures { result.now ≡ self.now.kind }
    {
        &self.text.as_slice()[self.kind_at as usize..self.kind_end as usize]
    }

    /// The level or range, if there is one: one or more printing bytes other than blanks, `"` and
    /// `\`.
    pub fn range(&self) -> Option<&[u8]>
        ensures { option_copied result ≡ self.now.range }
    {
        cut_at(COLON, self.behind_kind()).1
    }

    /// The one spelling.
    pub fn as_text(&self) -> &[u8]
        ensures text { result.now ≡ context_text self.now }
        ensures parts { IsContext self.now }
    {
        self.text.as_slice()
    }

    // What is spelled before the type.
    pub(crate) fn before_kind(&self) -> &[u8]
        ensures { result.now ≡ before_kind self.now }
    {
        &self.text.as_slice()[..self.kind_at as usize]
    }

    // What is spelled behind it.
    pub(crate) fn behind_kind(&self) -> &[u8]
        ensures { result.now ≡ range_text self.now.range }
    {
        &self.text.as_slice()[self.kind_end as usize..]
    }

    #[tactic(auto, using(crate::proofs::Spelling::read_back, crate::proofs::Spelling::spells_itself))]
    /// Adds the one spelling at the end. Where memory runs out, nothing is added.
    pub fn write(&self, to: &mut Bytes) -> Result<(), OutOfMemory>
        ensures ok { OnOk result (to.new ≡ to.old ++ context_text self.now) }
        ensures err { OnErr result (to.new ≡ to.old) }

        // What is written is read back as this context, and as no other.
        ensures spells { SpellsContext (context_text self.now) self.now }
        ensures read_back { context_of (context_text self.now) ≡ Some self.now }
    {
        to.push(self.as_text())
    }

    /// This user, role and range with the other's type.
    pub fn with_kind_of(&self, alloc: Global, other: &Context) -> Result<Context, OutOfMemory>
        ensures { IfOk result (λ made. made ≡ with_kind_of self.now other.now) }
    {
        let _ = &other.text;
        let mut text = Vec::with_capacity(alloc, self.text.len())?;
        text.extend_from_slice(self.before_kind())?;
        text.extend_from_slice(other.kind())?;
        let kind_end = text.len();
        text.extend_from_slice(self.behind_kind())?;
        if kind_end > u32::MAX as usize {
            return Err(OutOfMemory);
        }
        Ok(Context {
            text,
            kind_at: self.kind_at,
            kind_end: kind_end as u32,
        })
    }

    /// A copy.
    pub fn copy(&self, alloc: Global) -> Result<Context, OutOfMemory>
        ensures { IfOk result (λ copy. copy ≡ self.now) }
    {
        Ok(Context {
            text: Vec::from_slice(alloc, self.text.as_slice())?,
            kind_at: self.kind_at,
            kind_end: self.kind_end,
        })
    }

    /// Whether role, type and range are the same, whatever the users are.
    pub fn same_but_user(&self, other: &Context) -> bool
        ensures computed { result ≡ same_but_user self.now other.now }
        ensures equal { IsTrue result ↔ (record other.now { user = self.now.user } ≡ self.now) }
    {
        behind_colon(self.text.as_slice()) == behind_colon(other.text.as_slice())
    }
}

impl PartialEq for Context {
    ghost eq = { same_context };

    ghost laws = { partial_equiv_from_equiv contexts_equiv };

    fn eq(&self, other: &Context) -> bool
        ensures computed { result ≡ same_context self.now other.now }
        ensures equal { IsTrue result ↔ (self.now ≡ other.now) }
    {
        self.text.as_slice() == other.text.as_slice()
    }
}

impl Eq for Context {
    ghost laws = { contexts_equiv };
}
