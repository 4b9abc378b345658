/// What is wrong with a word, or with the end of the words.
#[derive(Clone, Copy, Debug, PartialEq, Eq)]
pub enum UsageWhy {
    /// The word names no tool, or there is none that could.
    UnknownTool,
    /// The word holds a letter that is no option of the tool, or is an operand of a tool without
    /// operands.
    UnknownOption,
    /// The word ends with a letter that takes a value, and no word follows.
    MissingValue,
    /// The value is no number or too great a one, or the operand of sample is a second one.
    BadNumber,
    /// The value or operand is no absolute path, or a file's name is empty.
    BadPath,
    /// The value is no type of files.
    BadKind,
    /// The words end without an operand or a file's name that the tool needs.
    MissingOperand,
    /// The words end without the name of the file that gets what is made.
    NoOutput,
}

/// The first wrong word.
#[derive(Clone, Copy, Debug, PartialEq, Eq)]
pub struct Usage {
    /// Its index, from 0; the number of words where they end too early.
    pub index: u32,
    pub why: UsageWhy,
}
