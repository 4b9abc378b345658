ghost use Rattle.std.specs.Prelude.{◌≡◌, ◌∷◌, ◌<◌, ◌^◌, ◌||◌, ℕ, List, [], OnOk};
ghost use Rattle.std.specs.Prelude.{false, length, true};
ghost use Rattle.std.specs.List.{list_any};
ghost use Rattle.file_roles.specs.declared.role.Part.TheVariants.{Homedirs};
ghost use Rattle.spec_reader.specs.SpecLines.{spec_of_fields};
ghost use Rattle.home_contexts.specs.Homes.{filled_fields, given_to, is_long, line_text};
ghost use Rattle.home_contexts.specs.Making.{Checks, GivesHomes, are_parts, chosen, fields_in};
ghost use Rattle.home_contexts.specs.Making.{for_user};

use crate::homes_fault::{HomesFault, HomesWhy};
use crate::line::{add_line, is_long};
use crate::made::Made;
use crate::user::User;
use file_roles::Part;
use label_base::{Bytes, Fault, LinesWhy, OutOfMemory, RefusedLine};
use spec_reader::read_specs;
use std::alloc::Global;

/// A line of the template, by its number: its first field, and what follows that.
#[derive(Clone, Copy)]
pub(crate) struct TemplateLine<'a> {
    pub number: u32,
    pub first: &'a [u8],
    pub more: Option<&'a [u8]>,
}

/// Users, and for each whether no user before them has the same root.
#[derive(Clone, Copy)]
pub(crate) struct UsersByRoot<'a> {
    pub users: &'a [User],
    pub firsts: &'a [bool],
}

/// The lines that were given so far, and what the one at hand is made in.
#[derive(Drop)]
pub(crate) struct Giving {
    pub made: Made,
    pub line: Bytes,
}

// Whether a given line alone is one of file_contexts.
fn check_line(alloc: Global, number: u32, line: &[u8]) -> Result<(), HomesFault>
    requires { length line.now < 2 ^ 32 }
    ensures { (fields : List (List ℕ)) → are_parts fields ≡ true → line.now ≡ line_text fields
        → Checks result number (spec_of_fields Homedirs 1 fields) }
{
    match read_specs(alloc, line, Part::Homedirs, 1) {
        Ok(_) => Ok(()),
        Err(Fault::Why(LinesWhy::Refused(refused))) => Err(Fault::Why(HomesWhy::Refused(
            RefusedLine {
                number,
                why: refused.why,
            },
        ))),
        // One line gives no specification too many.
        Err(Fault::Why(LinesWhy::TooMany)) => Ok(()),
        Err(Fault::OutOfMemory) => Err(Fault::OutOfMemory),
    }
}

// Makes the line that is given for a user.
fn make_line(of: &TemplateLine<'_>, user: &User, line: &mut Bytes) -> Result<(), OutOfMemory>
    ensures { OnOk result (line.new ≡ line_text (filled_fields user.now (fields_in of.now))) }
{
    line.clear();
    add_line(of.first, of.more, user, line)
}

// Gives a line for a user.
fn give_line(
    alloc: Global,
    of: &TemplateLine<'_>,
    user: &User,
    giving: &mut Giving,
) -> Result<(), HomesFault>
    requires parts { are_parts (fields_in of.now) ≡ true }
    requires short { list_any is_long (given_to (user.now ∷ []) of.now.number (fields_in of.now))
        ≡ false }
    ensures { GivesHomes result giving.old.made giving.new.made
        (given_to (user.now ∷ []) of.now.number (fields_in of.now)) }
{
    let _name = &user.name;
    make_line(of, user, &mut giving.line)?;
    let text = giving.line.as_slice();
    check_line(alloc, of.number, text)?;
    giving.made.add(text)?;
    Ok(())
}

// Gives a line for a user, where it is for them.
fn give_if(
    alloc: Global,
    is_for: bool,
    of: &TemplateLine<'_>,
    user: &User,
    giving: &mut Giving,
) -> Result<(), HomesFault>
    requires parts { are_parts (fields_in of.now) ≡ true }
    requires short { list_any is_long
        (given_to (for_user is_for user.now) of.now.number (fields_in of.now)) ≡ false }
    ensures { GivesHomes result giving.old.made giving.new.made
        (given_to (for_user is_for user.now) of.now.number (fields_in of.now)) }
{
    if is_for {
        return give_line(alloc, of, user, giving);
    }
    Ok(())
}

/// Whether a line that is for all users, or for those with a flag, is for this one.
pub(crate) fn is_for(all: bool, flag: bool) -> bool
    ensures { result ≡ (all || flag) }
{
    all || flag
}

/// Gives a line for all users, or for the first of each root.
pub(crate) fn give_lines(
    alloc: Global,
    all: bool,
    of: &TemplateLine<'_>,
    by: &UsersByRoot<'_>,
    giving: &mut Giving,
) -> Result<(), HomesFault>
    requires flags { length by.now.firsts.now ≡ length by.now.users.now }
    requires parts { are_parts (fields_in of.now) ≡ true }
    requires short { list_any is_long (given_to
        (chosen all by.now.firsts.now by.now.users.now) of.now.number (fields_in of.now)) ≡ false }
    ensures { GivesHomes result giving.old.made giving.new.made (given_to
        (chosen all by.now.firsts.now by.now.users.now) of.now.number (fields_in of.now)) }
{
    let users = by.users;
    let firsts = by.firsts;
    'users: for i in 0..users.len() {
        give_if(alloc, is_for(all, firsts[i]), of, &users[i], giving)?;
    }
    Ok(())
}
