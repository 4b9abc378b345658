ghost use Rattle.std.specs.Prelude.{◌≡◌};
ghost use Rattle.home_contexts.specs.Letters.{genhomedircon};

use tool_words::{Form, Letter, Others, Takes, ToolLetters, UsageWhy};

/// The file that gets the contexts of homes.
pub const OUTPUT: u8 = b'o';

/// The template.
pub const TEMPLATE: u8 = b't';

/// The file of users.
pub const USERS: u8 = b'u';

const LETTERS: &[Letter] = &[
    Letter {
        letter: OUTPUT,
        takes: Takes::Value(Form::Name),
    },
    Letter {
        letter: TEMPLATE,
        takes: Takes::Value(Form::Name),
    },
    Letter {
        letter: USERS,
        takes: Takes::Value(Form::Name),
    },
];

/// The words of genhomedircon: it has no operands.
pub fn genhomedircon() -> ToolLetters<'static>
    ensures { result ≡ genhomedircon }
{
    ToolLetters {
        letters: LETTERS,
        first: None,
        others: Others::Refused(UsageWhy::UnknownOption),
    }
}
