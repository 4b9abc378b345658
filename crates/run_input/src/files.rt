ghost use Rattle.std.specs.Prelude.{◌≡◌, ℕ, ◌≤◌, IfErr, IfOk, IfSome, length};
ghost use Rattle.file_roles.specs.Roles.{most_bytes};
ghost use Rattle.run_faults.specs.Causes.{Counts, Gives, IsFileCause};
ghost use Rattle.input_output.specs.Store.{Calls};
ghost use Rattle.run_input.specs.Files.{absent, part_bytes};

use file_roles::{FileList, FileRole};
use input_output::{FileFault, Store};
use label_base::{Bytes, Name};
use run_faults::{Cause, LimitKind};
use std::alloc::Global;

fn without_file(alloc: Global, files: &FileList, role: FileRole) -> Result<Bytes, Cause>
    ensures answer { Gives (absent files.now role) result }
    ensures kinds { IfErr result IsFileCause }
    ensures counts { (count : ℕ) → Counts count count result }
    ensures within { IfOk result (λ bytes. length bytes ≤ most_bytes role.part) }
{
    if role.may_be_absent() {
        return Ok(Bytes::new(alloc));
    }
    Err(Cause::Missing {
        name: Name::copy_of(alloc, files.name_of(role))?,
    })
}

/// Reads the file that has a role among these.
///
/// The error is a failed read, its absence where it may not be absent, or the limit of its bytes.
#[tactic(auto, unfolding(crate::specs::Files::part_bytes))]
pub fn read_part<S: Store>(
    alloc: Global,
    files: &FileList,
    role: FileRole,
    store: &mut S,
) -> Result<Bytes, Cause>
    ensures files { S.files store.new ≡ S.files store.old }
    ensures writes { S.write_faults store.new ≡ S.write_faults store.old }
    ensures within { IfOk result (λ bytes. length bytes ≤ most_bytes role.part) }
    ensures answer { IfSome (S.files store.old) (λ known.
        Gives (part_bytes files.now role known) result) }
    ensures counts { Counts (S.read_faults store.old) (S.read_faults store.new) result }
    ensures calls { Calls (S.calls store.old) (S.calls store.new) 1 }
    ensures kinds { IfErr result IsFileCause }
{
    match store.read_file(alloc, files.name_of(role), role.most_bytes()) {
        Ok(bytes) => Ok(bytes),
        Err(FileFault::NotThere) => without_file(alloc, files, role),
        Err(FileFault::Failed) => Err(Cause::ReadFault),
        Err(FileFault::TooLong) => Err(Cause::Limit {
            which: LimitKind::File(role),
        }),
        Err(FileFault::OutOfMemory) => Err(Cause::OutOfMemory),
    }
}
