ghost use Rattle.std.specs.Prelude.{◌≡◌, ◌∷◌};
ghost use Rattle.std.specs.Option.{option_copied};
ghost use Rattle.label_base.specs.Lines.{fields_left, is_comment};
ghost use Rattle.home_contexts.specs.Homes.{hold};
ghost use Rattle.home_contexts.specs.Words.{is_other, is_root_word};

use crate::word::{Held, with_field};
use label_base::{COMMENT_MARK, next_field};

pub(crate) fn is_comment(field: &[u8]) -> bool
    ensures { result ≡ is_comment field.now }
{
    match field {
        [first, ..] => *first == COMMENT_MARK,
        [] => false,
    }
}

/// The words that a line of the template holds in its first three fields.
pub(crate) fn held_by(first: &[u8], more: Option<&[u8]>) -> Held
    ensures root { result.root
        ≡ hold is_root_word (first.now ∷ fields_left (option_copied more.entry)) }
    ensures other { result.other
        ≡ hold is_other (first.now ∷ fields_left (option_copied more.entry)) }
{
    let none = Held {
        root: false,
        other: false,
    };
    let held = with_field(none, first);
    let Some((second, more)) = next_field(more) else {
        return held;
    };
    let held = with_field(held, second);
    let Some((third, _)) = next_field(more) else {
        return held;
    };
    with_field(held, third)
}
