ghost use Rattle.std.specs.Prelude.{◌≡◌, ◌++◌, ◌∷◌, ◌+◌, [], false, length, map, min, nat_lt};
ghost use Rattle.std.specs.Prelude.{OnOk, take, true};
ghost use Rattle.std.specs.Option.{option_copied};
ghost use Rattle.label_base.specs.Lines.{fields_left};
ghost use Rattle.home_contexts.specs.Homes.{filled_fields, line_text, tabbed};
ghost use Rattle.home_contexts.specs.Words.{filled};

use crate::limits::MOST_TEXT_BYTES;
use crate::user::User;
use crate::value::{capped, with_piece, write_piece};
use crate::word::{next_piece, plain_run};
use label_base::{Bytes, LINE_FEED, OutOfMemory, TAB, next_field};

// Adds a field with a user's values in place.
fn add_filled(
    field: &[u8],
    in_pattern: bool,
    user: &User,
    to: &mut Bytes,
) -> Result<(), OutOfMemory>
    ensures { OnOk result (to.new ≡ to.old ++ filled in_pattern user.now field.now) }
{
    let mut left = field;
    'pieces: while let Some((piece, rest)) = next_piece(left) {
        write_piece(piece, in_pattern, user, to)?;
        let (run, behind) = plain_run(rest);
        to.push(run)?;
        left = behind;
    }
    Ok(())
}

fn add_tabbed(field: &[u8], user: &User, to: &mut Bytes) -> Result<(), OutOfMemory>
    ensures { OnOk result (to.new ≡ to.old ++ tabbed (filled false user.now field.now ∷ [])) }
{
    to.push_byte(TAB)?;
    add_filled(field, false, user, to)
}

// Adds the second and the third field, if there are such.
fn add_others(more: Option<&[u8]>, user: &User, to: &mut Bytes) -> Result<(), OutOfMemory>
    ensures { OnOk result (to.new ≡ to.old ++ tabbed
        (map (filled false user.now) (take 2 (fields_left (option_copied more.entry))))) }
{
    let Some((second, more)) = next_field(more) else {
        return Ok(());
    };
    add_tabbed(second, user, to)?;
    let Some((third, _)) = next_field(more) else {
        return Ok(());
    };
    add_tabbed(third, user, to)
}

/// Adds the line that a line of the template gives for a user.
pub(crate) fn add_line(
    first: &[u8],
    more: Option<&[u8]>,
    user: &User,
    to: &mut Bytes,
) -> Result<(), OutOfMemory>
    ensures { OnOk result (to.new ≡ to.old ++ line_text
        (filled_fields user.now (first.now ∷ fields_left (option_copied more.entry)))) }
{
    add_filled(first, true, user, to)?;
    add_others(more, user, to)?;
    to.push_byte(LINE_FEED)
}

// The length so far and that of a field with a user's values in place.
fn with_filled(so_far: u64, field: &[u8], in_pattern: bool, user: &User) -> u64
    ensures { result ≡ min (MOST_TEXT_BYTES + 1)
        (so_far + length (filled in_pattern user.now field.now)) }
{
    let mut length = so_far;
    let mut left = field;
    'pieces: while let Some((piece, rest)) = next_piece(left) {
        let (run, behind) = plain_run(rest);
        length = capped(with_piece(length, piece, in_pattern, user), run.len());
        left = behind;
    }
    capped(length, 0)
}

fn with_tabbed(so_far: u64, field: &[u8], user: &User) -> u64
    ensures { result ≡ min (MOST_TEXT_BYTES + 1)
        (so_far + length (tabbed (filled false user.now field.now ∷ []))) }
{
    with_filled(capped(so_far, 1), field, false, user)
}

fn with_others(so_far: u64, more: Option<&[u8]>, user: &User) -> u64
    ensures { result ≡ min (MOST_TEXT_BYTES + 1) (so_far + length (tabbed
        (map (filled false user.now) (take 2 (fields_left (option_copied more.entry)))))) }
{
    let Some((second, more)) = next_field(more) else {
        return capped(so_far, 0);
    };
    let so_far = with_tabbed(so_far, second, user);
    let Some((third, _)) = next_field(more) else {
        return so_far;
    };
    with_tabbed(so_far, third, user)
}

/// Whether what a line of the template gives for a user has more bytes than a text may have.
pub(crate) fn is_long(first: &[u8], more: Option<&[u8]>, user: &User) -> bool
    ensures { result ≡ nat_lt MOST_TEXT_BYTES (length (line_text
        (filled_fields user.now (first.now ∷ fields_left (option_copied more.entry))))) }
{
    let length = with_others(with_filled(1, first, true, user), more, user);
    length > MOST_TEXT_BYTES
}
