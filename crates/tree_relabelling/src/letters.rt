ghost use Rattle.std.specs.Prelude.{◌≡◌};
ghost use Rattle.tree_relabelling.specs.Letters.{restorecon, setfiles};

use tool_words::{Form, Letter, Others, Takes, ToolLetters, Valued};

/// The records have link counts.
pub const LINK_COUNTS: u8 = b'2';

/// Errors of the walk end the run with status 1.
pub const SOFT_ERRORS: u8 = b'C';

/// Stored digests are used, and digests are made anew.
pub const DIGESTS: u8 = b'D';

/// Conflicting hard links are errors.
pub const STRICT_LINKS: u8 = b'E';

/// The whole context is given, and customizable types give way.
pub const FORCE: u8 = b'F';

/// Stored digests are not used, and digests are made anew.
pub const IGNORE_DIGESTS: u8 = b'I';

/// The file of stored digests.
pub const STORED: u8 = b'K';

/// What lies below the operands is meant too.
pub const RECURSE: u8 = b'R';

/// The file of specifications.
pub const BASE: u8 = b'S';

/// The number of workers.
pub const WORKERS: u8 = b'T';

/// Specifications that decide nothing have a line.
pub const WARN_UNMATCHED: u8 = b'W';

/// A path that is left out, with all below it.
pub const EXCLUDED: u8 = b'e';

/// Operands without an entry are passed over.
pub const IGNORE_ABSENT: u8 = b'i';

/// Nothing is changed.
pub const DRY: u8 = b'n';

/// The file that gets the dump.
pub const OUTPUT: u8 = b'o';

/// The same as [`RECURSE`].
pub const RECURSE_TOO: u8 = b'r';

/// What changes has a line.
pub const VERBOSE: u8 = b'v';

/// An operand's device isn't left.
pub const ONE_DEVICE: u8 = b'x';

/// The most workers that can be asked for.
pub const MOST_WORKERS: u32 = 64;

// The options of setfiles(8).
const SETFILES_LETTERS: &[Letter] = &[
    Letter {
        letter: LINK_COUNTS,
        takes: Takes::Flag,
    },
    Letter {
        letter: SOFT_ERRORS,
        takes: Takes::Flag,
    },
    Letter {
        letter: DIGESTS,
        takes: Takes::Flag,
    },
    Letter {
        letter: STRICT_LINKS,
        takes: Takes::Flag,
    },
    Letter {
        letter: FORCE,
        takes: Takes::Flag,
    },
    Letter {
        letter: IGNORE_DIGESTS,
        takes: Takes::Flag,
    },
    Letter {
        letter: WARN_UNMATCHED,
        takes: Takes::Flag,
    },
    Letter {
        letter: IGNORE_ABSENT,
        takes: Takes::Flag,
    },
    Letter {
        letter: DRY,
        takes: Takes::Flag,
    },
    Letter {
        letter: VERBOSE,
        takes: Takes::Flag,
    },
    Letter {
        letter: ONE_DEVICE,
        takes: Takes::Flag,
    },
    Letter {
        letter: STORED,
        takes: Takes::Value(Form::Name),
    },
    Letter {
        letter: WORKERS,
        takes: Takes::Value(Form::Number { most: MOST_WORKERS }),
    },
    Letter {
        letter: EXCLUDED,
        takes: Takes::Value(Form::Path),
    },
    Letter {
        letter: OUTPUT,
        takes: Takes::Value(Form::Name),
    },
];

// The options of restorecon(8).
const RESTORECON_LETTERS: &[Letter] = &[
    Letter {
        letter: LINK_COUNTS,
        takes: Takes::Flag,
    },
    Letter {
        letter: SOFT_ERRORS,
        takes: Takes::Flag,
    },
    Letter {
        letter: DIGESTS,
        takes: Takes::Flag,
    },
    Letter {
        letter: STRICT_LINKS,
        takes: Takes::Flag,
    },
    Letter {
        letter: FORCE,
        takes: Takes::Flag,
    },
    Letter {
        letter: IGNORE_DIGESTS,
        takes: Takes::Flag,
    },
    Letter {
        letter: WARN_UNMATCHED,
        takes: Takes::Flag,
    },
    Letter {
        letter: IGNORE_ABSENT,
        takes: Takes::Flag,
    },
    Letter {
        letter: DRY,
        takes: Takes::Flag,
    },
    Letter {
        letter: VERBOSE,
        takes: Takes::Flag,
    },
    Letter {
        letter: ONE_DEVICE,
        takes: Takes::Flag,
    },
    Letter {
        letter: RECURSE,
        takes: Takes::Flag,
    },
    Letter {
        letter: RECURSE_TOO,
        takes: Takes::Flag,
    },
    Letter {
        letter: STORED,
        takes: Takes::Value(Form::Name),
    },
    Letter {
        letter: WORKERS,
        takes: Takes::Value(Form::Number { most: MOST_WORKERS }),
    },
    Letter {
        letter: EXCLUDED,
        takes: Takes::Value(Form::Path),
    },
    Letter {
        letter: OUTPUT,
        takes: Takes::Value(Form::Name),
    },
    Letter {
        letter: BASE,
        takes: Takes::Value(Form::Name),
    },
];

/// The words of setfiles: its first operand names the file of specifications.
pub fn setfiles() -> ToolLetters<'static>
    ensures { result ≡ setfiles }
{
    ToolLetters {
        letters: SETFILES_LETTERS,
        first: Some(Valued {
            letter: BASE,
            form: Form::Name,
        }),
        others: Others::Paths,
    }
}

/// The words of restorecon: all of its operands are paths.
pub fn restorecon() -> ToolLetters<'static>
    ensures { result ≡ restorecon }
{
    ToolLetters {
        letters: RESTORECON_LETTERS,
        first: None,
        others: Others::Paths,
    }
}
