ghost use Rattle.std.specs.Prelude.{◌≡◌, ℕ, ◌<◌, ◌^◌, IfErr, length};
ghost use Rattle.run_faults.specs.Causes.{Counts, Gives, IsFileCause};
ghost use Rattle.run_input.specs.Files.{Reads};
ghost use Rattle.path_reasons.specs.Policy.{both_sub_lines, part_sub_lines, policy_lines};
ghost use Rattle.path_reasons.specs.Policy.{sub_lines_from};
ghost use Rattle.path_reasons.specs.SubLines.{sub_lines_of};

use crate::sub_line::{SubLine, read_sub_lines};
use file_roles::{FileList, FileRole, Part};
use input_output::Store;
use label_base::{Bytes, Fault, Row};
use policy_files::read_spec_list;
use run_faults::Cause;
use run_input::read_part;
use spec_reader::Spec;
use std::alloc::Global;

/// The lines of a policy.
pub struct PolicyLines {
    /// The specifications, in the order in which the last match decides.
    pub specs: Row<Spec>,
    /// The lines of file_contexts.subs.
    pub first: Row<SubLine>,
    /// The lines of file_contexts.subs_dist.
    pub second: Row<SubLine>,
}

// By hand: one call for an owner, where a derived drop is a step for each field.
impl Drop for PolicyLines {
    fn drop(self) {
        let PolicyLines {
            specs: _,
            first: _,
            second: _,
        } = self;
    }
}

// Reads the substitutions of a file in its bytes.
fn sub_lines_in(alloc: Global, bytes: &Bytes, role: FileRole) -> Result<Row<SubLine>, Cause>
    requires { length bytes.now < 2 ^ 32 }
    ensures answer { Gives (sub_lines_from role (sub_lines_of bytes.now)) result }
    ensures counts { (count : ℕ) → Counts count count result }
    ensures kinds { IfErr result IsFileCause }
{
    match read_sub_lines(alloc, bytes.as_slice()) {
        Ok(lines) => Ok(lines),
        Err(Fault::Why(line)) => Err(Cause::SubRefused {
            role,
            line: line.number,
        }),
        Err(Fault::OutOfMemory) => Err(Cause::OutOfMemory),
    }
}

fn read_sub_part<S: Store>(
    alloc: Global,
    list: &FileList,
    role: FileRole,
    store: &mut S,
) -> Result<Row<SubLine>, Cause>
    ensures { Reads S.files S.calls S.read_faults S.write_faults (part_sub_lines list.now role)
        store.old store.new result }
{
    let bytes = read_part(alloc, list, role, store)?;
    sub_lines_in(alloc, &bytes, role)
}

// Reads both files of substitutions.
fn read_both<S: Store>(
    alloc: Global,
    list: &FileList,
    store: &mut S,
) -> Result<(Row<SubLine>, Row<SubLine>), Cause>
    ensures { Reads S.files S.calls S.read_faults S.write_faults (both_sub_lines list.now)
        store.old store.new result }
{
    let role = FileRole {
        part: Part::Subs,
        version: 0,
    };
    let first = read_sub_part(alloc, list, role, store)?;
    let role = FileRole {
        part: Part::SubsDist,
        version: 0,
    };
    let second = read_sub_part(alloc, list, role, store)?;
    Ok((first, second))
}

/// Reads the lines of a policy: the specifications, then the substitutions, each with its number.
///
/// The error is a failed read, or the first refusal.
pub fn read_policy_lines<S: Store>(
    alloc: Global,
    list: &FileList,
    store: &mut S,
) -> Result<PolicyLines, Cause>
    ensures { Reads S.files S.calls S.read_faults S.write_faults (policy_lines list.now)
        store.old store.new result }
{
    let specs = read_spec_list(alloc, list, 0, store)?;
    let (first, second) = read_both(alloc, list, store)?;
    Ok(PolicyLines {
        specs,
        first,
        second,
    })
}
