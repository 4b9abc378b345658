ghost use Rattle.std.specs.Prelude.{◌≡◌, ◌<◌, ◌^◌, [], false, length, IfOk};
ghost use Rattle.std.specs.List.{list_any};
ghost use Rattle.label_base.specs.Answers.{Answers, fault_cause};
ghost use Rattle.label_base.specs.Lines.{fields_of};
ghost use Rattle.home_contexts.specs.Homes.{IsReadBack, expansion, given_by_fields};
ghost use Rattle.home_contexts.specs.Homes.{given_lines, is_long};
ghost use Rattle.home_contexts.specs.Making.{GivesHomes, first_flags, is_feed};

use crate::firsts::first_flags;
use crate::giving::{Giving, TemplateLine, UsersByRoot, give_lines};
use crate::homes_fault::{HomesFault, HomesWhy};
use crate::long::gives_long;
use crate::made::Made;
use crate::template::{held_by, is_comment};
use crate::user::User;
use label_base::{Bytes, Fault, Row, next_field, next_line};
use std::alloc::Global;

// Gives the lines of one line of the template.
fn give_by_line(
    alloc: Global,
    number: u32,
    text: &[u8],
    by: &UsersByRoot<'_>,
    giving: &mut Giving,
) -> Result<(), HomesFault>
    requires flags { by.now.firsts.now ≡ first_flags [] by.now.users.now }
    requires feed { list_any is_feed text.now ≡ false }
    requires short { list_any is_long
        (given_by_fields by.now.users.now number (fields_of text.now)) ≡ false }
    ensures { GivesHomes result giving.old.made giving.new.made
        (given_by_fields by.now.users.now number (fields_of text.now)) }
{
    let Some((first, more)) = next_field(Some(text)) else {
        return Ok(());
    };
    if is_comment(first) {
        return Ok(());
    }
    let held = held_by(first, more);
    let of = TemplateLine {
        number,
        first,
        more,
    };
    if held.other {
        return give_lines(alloc, true, &of, by, giving);
    }
    if held.root {
        return give_lines(alloc, false, &of, by, giving);
    }
    Ok(())
}

// Gives the lines of the whole template.
fn give_all(
    alloc: Global,
    template: &[u8],
    by: &UsersByRoot<'_>,
    giving: &mut Giving,
) -> Result<(), HomesFault>
    requires size { length template.now < 2 ^ 32 }
    requires flags { by.now.firsts.now ≡ first_flags [] by.now.users.now }
    requires short { list_any is_long (given_lines template.now by.now.users.now) ≡ false }
    ensures { GivesHomes result giving.old.made giving.new.made
        (given_lines template.now by.now.users.now) }
{
    let mut left = template;
    let mut number = 0u32;
    'lines: while let Some((text, rest)) = next_line(left) {
        number += 1;
        give_by_line(alloc, number, text, by, giving)?;
        left = rest;
    }
    Ok(())
}

fn expand_by(alloc: Global, template: &[u8], by: &UsersByRoot<'_>) -> Result<Bytes, HomesFault>
    requires size { length template.now < 2 ^ 32 }
    requires flags { by.now.firsts.now ≡ first_flags [] by.now.users.now }
    ensures text { Answers (λ text. text) fault_cause result
        (expansion template.now by.now.users.now) }
    ensures read_back { IfOk result IsReadBack }
{
    if gives_long(template, by.users, by.firsts) {
        return Err(Fault::Why(HomesWhy::TooLong));
    }
    let made = Made::new(alloc);
    let mut giving = Giving {
        made,
        line: Bytes::new(alloc),
    };
    give_all(alloc, template, by, &mut giving)?;
    let Giving { made, line: _ } = giving;
    made.finish()
}

/// Makes the file_contexts of users' homes from a template.
///
/// In a line's fields, of which the first three count, `HOME_DIR` stands for a user's home,
/// `HOME_ROOT` for the home without its last name, `ROLE` for the role and `USER` for the name; in
/// the first field what stands in a word's place is escaped. A line gives one line for each user;
/// where `HOME_ROOT` alone of the words stands in it, one for the first user of each root; and none
/// without words. The text is read by [`read_specs`](spec_reader::read_specs), one specification
/// for each line.
///
/// A given line of more than [`MOST_TEXT_BYTES`](crate::MOST_TEXT_BYTES) bytes answers
/// [`HomesWhy::TooLong`]; else the first that isn't one of file_contexts is told; else more than
/// [`MOST_SPECS`](crate::MOST_SPECS) lines answer [`HomesWhy::TooManySpecs`]; else a text that is
/// too long does.
pub fn expand(alloc: Global, template: &[u8], users: &Row<User>) -> Result<Bytes, HomesFault>
    requires { length template.now < 2 ^ 32 }
    ensures text { Answers (λ text. text) fault_cause result (expansion template.now users.now) }
    ensures read_back { IfOk result IsReadBack }
{
    let firsts = first_flags(alloc, users.as_slice())?;
    let by = UsersByRoot {
        users: users.as_slice(),
        firsts: firsts.as_slice(),
    };
    expand_by(alloc, template, &by)
}
