ghost use Rattle.std.specs.Prelude.{◌≡◌};
ghost use Rattle.policy_rehearsal.specs.Letters.{rehearse};

use tool_words::{Form, Letter, Others, Takes, ToolLetters};

/// The records have link counts.
pub const LINK_COUNTS: u8 = b'2';

/// Stored digests are used, and digests are made anew.
pub const DIGESTS: u8 = b'D';

/// The whole context is given, and customizable types give way.
pub const FORCE: u8 = b'F';

/// Stored digests are not used, and digests are made anew.
pub const IGNORE_DIGESTS: u8 = b'I';

/// The file of specifications of a version.
pub const BASE: u8 = b'S';

/// A path that is left out, with all below it.
pub const EXCLUDED: u8 = b'e';

/// Operands without an entry are passed over.
pub const IGNORE_ABSENT: u8 = b'i';

/// An operand's device isn't left.
pub const ONE_DEVICE: u8 = b'x';

/// The most versions of a policy that can be asked for.
pub const MOST_POLICIES: u32 = 8;

const LETTERS: &[Letter] = &[
    Letter {
        letter: LINK_COUNTS,
        takes: Takes::Flag,
    },
    Letter {
        letter: DIGESTS,
        takes: Takes::Flag,
    },
    Letter {
        letter: FORCE,
        takes: Takes::Flag,
    },
    Letter {
        letter: IGNORE_DIGESTS,
        takes: Takes::Flag,
    },
    Letter {
        letter: IGNORE_ABSENT,
        takes: Takes::Flag,
    },
    Letter {
        letter: ONE_DEVICE,
        takes: Takes::Flag,
    },
    Letter {
        letter: EXCLUDED,
        takes: Takes::Value(Form::Path),
    },
    Letter {
        letter: BASE,
        takes: Takes::Value(Form::Name),
    },
];

/// The words of rehearse: all of its operands are paths.
pub fn rehearse() -> ToolLetters<'static>
    ensures { result ≡ rehearse }
{
    ToolLetters {
        letters: LETTERS,
        first: None,
        others: Others::Paths,
    }
}
