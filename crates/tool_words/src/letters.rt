ghost use Rattle.std.specs.Prelude.{◌≡◌};
ghost use Rattle.tool_words.specs.Tool.{row_takes, takes_of};

use crate::usage::UsageWhy;
use std::marker::Model;

/// What the value of a letter is.
#[derive(Clone, Copy, Debug, PartialEq, Eq)]
pub enum Form {
    /// A decimal number up to this one.
    Number { most: u32 },
    /// An absolute path.
    Path,
    /// The name of a file, which isn't empty.
    Name,
    /// A type of files, as matchpathcon(8) names it.
    Kind,
}

/// What a letter takes.
#[derive(Clone, Copy, Debug, PartialEq, Eq)]
pub enum Takes {
    /// Nothing: it stands alone.
    Flag,
    /// A value of this form.
    Value(Form),
}

/// A row of a tool's table: an option.
#[derive(Clone, Copy, Debug, PartialEq, Eq)]
pub struct Letter {
    /// A byte of ASCII; another is never found.
    pub letter: u8,
    pub takes: Takes,
}

/// A letter with a value.
#[derive(Clone, Copy, Debug, PartialEq, Eq)]
pub struct Valued {
    pub letter: u8,
    pub form: Form,
}

/// What the operands of a tool are.
#[derive(Clone, Copy, Debug, PartialEq, Eq)]
pub enum Others {
    /// Absolute paths.
    Paths,
    /// Nothing that the tool takes: refused for this reason.
    Refused(UsageWhy),
}

/// The letters of a tool, and its operands.
#[derive(Debug, Drop)]
pub struct ToolLetters<'t> {
    /// The options. A letter without a row is refused; of several rows the first counts.
    pub letters: &'t [Letter],
    /// The letter whose value the first operand is, where it is none of the others.
    pub first: Option<Valued>,
    pub others: Others,
}

impl<'t> Model for ToolLetters<'t> {
    ghost use Rattle.tool_words.specs.Tool.{Tool};

    ghost Value = { Tool };

    ghost view = { λ t. record { letters = t.letters.now; first = t.first; others = t.others } };
}

fn row_takes(rows: &[Letter], letter: u8) -> Option<Takes>
    ensures { result ≡ row_takes rows.now letter }
{
    'rows: for row in rows {
        if row.letter == letter {
            return Some(row.takes);
        }
    }
    None
}

/// What a letter takes, and nothing where it is no option of the tool.
#[tactic(auto, unfolding(crate::specs::Tool::takes_of))]
pub fn takes_of(tool: &ToolLetters<'_>, letter: u8) -> Option<Takes>
    ensures value { result ≡ takes_of tool.now letter }
{
    if letter < 128 {
        row_takes(tool.letters, letter)
    } else {
        None
    }
}
