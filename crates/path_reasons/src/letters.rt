ghost use Rattle.std.specs.Prelude.{◌≡◌};
ghost use Rattle.path_reasons.specs.Letters.{explain};

use tool_words::{Form, Letter, Others, Takes, ToolLetters};

/// The file of specifications, or the folder in which it stands.
pub const BASE: u8 = b'S';

/// The type of files.
pub const ASKED: u8 = b'm';

/// One line for each path and kind.
pub const BRIEF: u8 = b'q';

const LETTERS: &[Letter] = &[
    Letter {
        letter: BRIEF,
        takes: Takes::Flag,
    },
    Letter {
        letter: BASE,
        takes: Takes::Value(Form::Name),
    },
    Letter {
        letter: ASKED,
        takes: Takes::Value(Form::Kind),
    },
];

/// The words of explain: all of its operands are paths.
pub fn explain() -> ToolLetters<'static>
    ensures { result ≡ explain }
{
    ToolLetters {
        letters: LETTERS,
        first: None,
        others: Others::Paths,
    }
}
