ghost use Rattle.std.specs.Prelude.{ℕ, ◌<◌, ◌^◌, IfErr, length};
ghost use Rattle.run_faults.specs.Causes.{Counts, Gives, IsFileCause};
ghost use Rattle.run_input.specs.Files.{Reads};
ghost use Rattle.home_contexts.specs.Found.{text_for, text_found, text_from};
ghost use Rattle.home_contexts.specs.Found.{users_found, users_from};
ghost use Rattle.home_contexts.specs.Homes.{expansion};
ghost use Rattle.home_contexts.specs.UserLines.{users_of};

use crate::expansion::expand;
use crate::homes_fault::HomesWhy;
use crate::user::User;
use crate::users::read_users;
use file_roles::{FileList, FileRole, Part};
use input_output::Store;
use label_base::{Bytes, Fault, Row};
use run_faults::{Cause, LimitKind};
use run_input::read_part;
use std::alloc::Global;

fn users_in(alloc: Global, bytes: &Bytes) -> Result<Row<User>, Cause>
    requires { length bytes.now < 2 ^ 32 }
    ensures answer { Gives (users_from (users_of bytes.now)) result }
    ensures counts { (count : ℕ) → Counts count count result }
    ensures kinds { IfErr result IsFileCause }
{
    match read_users(alloc, bytes.as_slice()) {
        Ok(users) => Ok(users),
        Err(Fault::Why(refused)) => Err(Cause::UsersRefused {
            line: refused.number,
        }),
        Err(Fault::OutOfMemory) => Err(Cause::OutOfMemory),
    }
}

fn read_users_file<S: Store>(
    alloc: Global,
    list: &FileList,
    store: &mut S,
) -> Result<Row<User>, Cause>
    ensures { Reads S.files S.calls S.read_faults S.write_faults (users_found list.now)
        store.old store.new result }
{
    let role = FileRole {
        part: Part::Users,
        version: 0,
    };
    let bytes = read_part(alloc, list, role, store)?;
    users_in(alloc, &bytes)
}

fn text_in(alloc: Global, template: &Bytes, users: &Row<User>) -> Result<Bytes, Cause>
    requires { length template.now < 2 ^ 32 }
    ensures answer { Gives (text_from (expansion template.now users.now)) result }
    ensures counts { (count : ℕ) → Counts count count result }
    ensures kinds { IfErr result IsFileCause }
{
    match expand(alloc, template.as_slice(), users) {
        Ok(text) => Ok(text),
        Err(Fault::Why(HomesWhy::Refused(refused))) => Err(Cause::TemplateRefused {
            line: refused.number,
            why: refused.why,
        }),
        Err(Fault::Why(HomesWhy::TooManySpecs)) => Err(Cause::Limit {
            which: LimitKind::Specs,
        }),
        Err(Fault::Why(HomesWhy::TooLong)) => Err(Cause::Limit {
            which: LimitKind::File(FileRole {
                part: Part::Homedirs,
                version: 0,
            }),
        }),
        Err(Fault::OutOfMemory) => Err(Cause::OutOfMemory),
    }
}

// Reads the users, and expands the template for them.
fn expand_file<S: Store>(
    alloc: Global,
    template: &Bytes,
    list: &FileList,
    store: &mut S,
) -> Result<Bytes, Cause>
    requires { length template.now < 2 ^ 32 }
    ensures { Reads S.files S.calls S.read_faults S.write_faults (text_for list.now template.now)
        store.old store.new result }
{
    let users = read_users_file(alloc, list, store)?;
    text_in(alloc, template, &users)
}

/// Reads the template, then the users, and makes the text that the template gives for them.
///
/// The error is a failed read, or the first refusal.
pub fn read_found<S: Store>(alloc: Global, list: &FileList, store: &mut S) -> Result<Bytes, Cause>
    ensures { Reads S.files S.calls S.read_faults S.write_faults (text_found list.now)
        store.old store.new result }
{
    let role = FileRole {
        part: Part::Template,
        version: 0,
    };
    let template = read_part(alloc, list, role, store)?;
    expand_file(alloc, &template, list, store)
}
