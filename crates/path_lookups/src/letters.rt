ghost use Rattle.std.specs.Prelude.{◌≡◌};
ghost use Rattle.path_lookups.specs.Letters.{matchpathcon};

use tool_words::{Form, Letter, Others, Takes, ToolLetters};

/// The records have link counts.
pub const LINK_COUNTS: u8 = b'2';

/// Nothing: names of contexts aren't translated anyway.
pub const NO_TRANSLATION: u8 = b'N';

/// What the paths have is compared to what they should have.
pub const VERIFY: u8 = b'V';

/// The file of specifications.
pub const BASE: u8 = b'f';

/// The type of files.
pub const ASKED: u8 = b'm';

/// The lines are without the paths.
pub const BARE: u8 = b'n';

// The options of matchpathcon(8).
const LETTERS: &[Letter] = &[
    Letter {
        letter: LINK_COUNTS,
        takes: Takes::Flag,
    },
    Letter {
        letter: NO_TRANSLATION,
        takes: Takes::Flag,
    },
    Letter {
        letter: VERIFY,
        takes: Takes::Flag,
    },
    Letter {
        letter: BARE,
        takes: Takes::Flag,
    },
    Letter {
        letter: BASE,
        takes: Takes::Value(Form::Name),
    },
    Letter {
        letter: ASKED,
        takes: Takes::Value(Form::Kind),
    },
];

/// The words of matchpathcon: all of its operands are paths.
pub fn matchpathcon() -> ToolLetters<'static>
    ensures { result ≡ matchpathcon }
{
    ToolLetters {
        letters: LETTERS,
        first: None,
        others: Others::Paths,
    }
}
