use crate::letters::Valued;
use crate::usage::UsageWhy;
use std::marker::Model;

/// What a letter, or a word that isn't among the options, says.
#[derive(Clone, Copy, Debug)]
pub enum Says {
    /// This letter stands there, and takes no value.
    Flag(u8),
    /// The text is the value of this letter.
    Given(Valued),
    /// The text is an operand.
    Operand,
    /// Something is wrong, whatever stands elsewhere.
    Wrong(UsageWhy),
}

/// What the words say, one thing at a time.
#[derive(Debug, Drop)]
pub struct Item<'a> {
    pub says: Says,
    /// The index of the word in which it stands.
    pub index: u32,
    /// The value or operand, and else nothing.
    pub text: &'a str,
}

impl<'a> Model for Item<'a> {
    ghost use Rattle.tool_words.specs.Items.{Item};

    ghost Value = { Item };

    ghost view = { λ i. record { says = i.says; index = i.index; text = i.text.now } };
}
