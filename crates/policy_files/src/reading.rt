ghost use Rattle.std.specs.Prelude.{◌≡◌, ℕ, ◌<◌, ◌≤◌, ◌-◌, ◌^◌, IfOk, IfErr, length};
ghost use Rattle.context_syntax.specs.TypeNames.{types_read};
ghost use Rattle.path_subs.specs.SubLines.{subs_of};
ghost use Rattle.spec_reader.specs.SpecLines.{specs_of};
ghost use Rattle.run_faults.specs.Causes.{Counts, Gives, IsFileCause};
ghost use Rattle.run_input.specs.Files.{Reads};
ghost use Rattle.policy_files.specs.Files.{customizable_types, version_specs, part_specs};
ghost use Rattle.policy_files.specs.Files.{part_subs, specs_from, subs_for, subs_from, types_from};

use context_syntax::{TypeNames, read_customizable};
use file_roles::{FileList, FileRole, Part};
use input_output::Store;
use label_base::{Bytes, Fault, LinesWhy, Row};
use path_subs::{SubList, Subs, read_subs};
use run_faults::{Cause, LimitKind};
use run_input::read_part;
use spec_match::RuleSet;
use spec_order::ordered;
use spec_reader::{Spec, read_specs};
use std::alloc::Global;

/// The greatest number of specifications of all files of a policy together.
const MOST_SPECS: u32 = 65_536;

// Reads the specifications of a file in its bytes, with room for so many.
fn specs_in(alloc: Global, bytes: &Bytes, role: FileRole, room: u32) -> Result<Row<Spec>, Cause>
    requires { length bytes.now < 2 ^ 32 }
    ensures within { IfOk result (λ specs. length specs ≤ room) }
    ensures answer { Gives (specs_from role (specs_of role.part room bytes.now)) result }
    ensures counts { (count : ℕ) → Counts count count result }
    ensures kinds { IfErr result IsFileCause }
{
    match read_specs(alloc, bytes.as_slice(), role.part, room) {
        Ok(specs) => Ok(specs),
        Err(Fault::Why(LinesWhy::Refused(line))) => Err(Cause::SpecRefused {
            role,
            line: line.number,
            why: line.why,
        }),
        Err(Fault::Why(LinesWhy::TooMany)) => Err(Cause::Limit {
            which: LimitKind::Specs,
        }),
        Err(Fault::OutOfMemory) => Err(Cause::OutOfMemory),
    }
}

fn read_specs_part<S: Store>(
    alloc: Global,
    list: &FileList,
    role: FileRole,
    room: u32,
    store: &mut S,
) -> Result<Row<Spec>, Cause>
    ensures within { IfOk result (λ specs. length specs ≤ room) }
    ensures read { Reads S.files S.calls S.read_faults S.write_faults
        (part_specs list.now role room)
        store.old store.new result }
{
    let bytes = read_part(alloc, list, role, store)?;
    specs_in(alloc, &bytes, role, room)
}

// Reads the substitutions of a file in its bytes, and makes them ready for look-ups.
fn subs_in(alloc: Global, bytes: &Bytes, role: FileRole) -> Result<SubList, Cause>
    requires { length bytes.now < 2 ^ 32 }
    ensures answer { Gives (subs_from role (subs_of bytes.now)) result }
    ensures counts { (count : ℕ) → Counts count count result }
    ensures kinds { IfErr result IsFileCause }
{
    match read_subs(alloc, bytes.as_slice()) {
        Ok(subs) => Ok(SubList::new(alloc, subs)?),
        Err(Fault::Why(line)) => Err(Cause::SubRefused {
            role,
            line: line.number,
        }),
        Err(Fault::OutOfMemory) => Err(Cause::OutOfMemory),
    }
}

fn read_subs_part<S: Store>(
    alloc: Global,
    list: &FileList,
    role: FileRole,
    store: &mut S,
) -> Result<SubList, Cause>
    ensures { Reads S.files S.calls S.read_faults S.write_faults (part_subs list.now role)
        store.old store.new result }
{
    let bytes = read_part(alloc, list, role, store)?;
    subs_in(alloc, &bytes, role)
}

/// Reads the substitutions of a policy by its number: `.subs`, then `.subs_dist`.
///
/// The error is a failed read, or the first refusal.
pub fn read_substitutions<S: Store>(
    alloc: Global,
    list: &FileList,
    version: u32,
    store: &mut S,
) -> Result<Subs, Cause>
    ensures { Reads S.files S.calls S.read_faults S.write_faults (subs_for list.now version)
        store.old store.new result }
{
    let role = FileRole {
        part: Part::Subs,
        version,
    };
    let first = read_subs_part(alloc, list, role, store)?;
    let role = FileRole {
        part: Part::SubsDist,
        version,
    };
    let second = read_subs_part(alloc, list, role, store)?;
    Ok(Subs { first, second })
}

/// Reads the customizable types of a file in its bytes.
///
/// The error is the first line that is refused, or want of memory.
pub fn types_in(alloc: Global, bytes: &Bytes) -> Result<TypeNames, Cause>
    requires { length bytes.now < 2 ^ 32 }
    ensures answer { Gives (types_from (types_read bytes.now)) result }
    ensures counts { (count : ℕ) → Counts count count result }
    ensures kinds { IfErr result IsFileCause }
{
    match read_customizable(alloc, bytes.as_slice()) {
        Ok(types) => Ok(types),
        Err(Fault::Why(line)) => Err(Cause::CustomRefused { line: line.number }),
        Err(Fault::OutOfMemory) => Err(Cause::OutOfMemory),
    }
}

/// Reads the customizable types.
///
/// The error is a failed read, or the first refusal.
pub fn read_types<S: Store>(
    alloc: Global,
    list: &FileList,
    store: &mut S,
) -> Result<TypeNames, Cause>
    ensures { Reads S.files S.calls S.read_faults S.write_faults (customizable_types list.now)
        store.old store.new result }
{
    let role = FileRole {
        part: Part::Customizable,
        version: 0,
    };
    let bytes = read_part(alloc, list, role, store)?;
    types_in(alloc, &bytes)
}

/// Reads the specifications of a policy by its number: the base file, then `.homedirs`, then
/// `.local`, in the order in which the last match decides.
///
/// The error is a failed read, or the first refusal.
pub fn read_spec_list<S: Store>(
    alloc: Global,
    list: &FileList,
    version: u32,
    store: &mut S,
) -> Result<Row<Spec>, Cause>
    ensures read { Reads S.files S.calls S.read_faults S.write_faults
        (version_specs list.now version)
        store.old store.new result }
    ensures few { IfOk result (λ specs. length specs < 2 ^ 32) }
{
    let role = FileRole {
        part: Part::Base,
        version,
    };
    let first = read_specs_part(alloc, list, role, MOST_SPECS, store)?;
    let room = MOST_SPECS - first.len() as u32;
    let role = FileRole {
        part: Part::Homedirs,
        version,
    };
    let home = read_specs_part(alloc, list, role, room, store)?;
    let room = room - home.len() as u32;
    let role = FileRole {
        part: Part::Local,
        version,
    };
    let local = read_specs_part(alloc, list, role, room, store)?;
    Ok(ordered(alloc, first, home, local)?)
}

/// Reads the specifications of a policy by its number, and makes them ready for look-ups.
///
/// The error is a failed read, or the first refusal.
pub fn read_specifications<S: Store>(
    alloc: Global,
    list: &FileList,
    version: u32,
    store: &mut S,
) -> Result<RuleSet, Cause>
    ensures { Reads S.files S.calls S.read_faults S.write_faults (version_specs list.now version)
        store.old store.new result }
{
    let specs = read_spec_list(alloc, list, version, store)?;
    Ok(RuleSet::new(alloc, specs)?)
}
