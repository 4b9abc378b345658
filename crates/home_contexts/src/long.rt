ghost use Rattle.std.specs.Prelude.{◌≡◌, ◌∷◌, ℕ, [], length};
ghost use Rattle.std.specs.List.{list_any};
ghost use Rattle.std.specs.Option.{option_copied};
ghost use Rattle.label_base.specs.Lines.{fields_left, fields_of};
ghost use Rattle.home_contexts.specs.Homes.{given_by_fields, given_lines, given_to, is_long};
ghost use Rattle.home_contexts.specs.Making.{chosen, first_flags, for_user};

use crate::giving::is_for;
use crate::line::is_long;
use crate::template::{held_by, is_comment};
use crate::user::User;
use label_base::{next_field, next_line};

fn is_long_for(is_for: bool, first: &[u8], more: Option<&[u8]>, user: &User) -> bool
    ensures { (number : ℕ) → result ≡ list_any is_long (given_to (for_user is_for user.now) number
        (first.now ∷ fields_left (option_copied more.entry))) }
{
    is_for && is_long(first, more, user)
}

// Whether a line that is given for all users, or for those with a flag, is too long.
fn is_any_long(all: bool, first: &[u8], more: Option<&[u8]>, users: &[User], flags: &[bool]) -> bool
    requires { length flags.now ≡ length users.now }
    ensures { (number : ℕ) → result ≡ list_any is_long
        (given_to (chosen all flags.now users.now) number
        (first.now ∷ fields_left (option_copied more.entry))) }
{
    'users: for i in 0..users.len() {
        if is_long_for(is_for(all, flags[i]), first, more, &users[i]) {
            return true;
        }
    }
    false
}

// Whether a line that this one of the template gives is too long.
fn has_long(text: &[u8], users: &[User], firsts: &[bool]) -> bool
    requires { firsts.now ≡ first_flags [] users.now }
    ensures { (number : ℕ) → result
        ≡ list_any is_long (given_by_fields users.now number (fields_of text.now)) }
{
    let Some((first, more)) = next_field(Some(text)) else {
        return false;
    };
    if is_comment(first) {
        return false;
    }
    let held = held_by(first, more);
    if held.other {
        return is_any_long(true, first, more, users, firsts);
    }
    if held.root {
        return is_any_long(false, first, more, users, firsts);
    }
    false
}

/// Whether a line that the template gives has more bytes than a text may have.
pub(crate) fn gives_long(template: &[u8], users: &[User], firsts: &[bool]) -> bool
    requires { firsts.now ≡ first_flags [] users.now }
    ensures { result ≡ list_any is_long (given_lines template.now users.now) }
{
    let mut left = template;
    'lines: while let Some((text, rest)) = next_line(left) {
        if has_long(text, users, firsts) {
            return true;
        }
        left = rest;
    }
    false
}
