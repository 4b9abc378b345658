ghost use Rattle.std.specs.Prelude.{◌≡◌, ◌++◌, ◌∷◌, [], IfOk, OnOk};
ghost use Rattle.file_roles.specs.Roles.{file_named, role};
ghost use Rattle.policy_files.specs.Names.{policy_names, types_name};

use file_roles::{FileList, FileRole, Part};
use label_base::{Name, OutOfMemory};
use std::alloc::Global;

/// The file of specifications where the words name none.
pub const DEFAULT_BASE: &str = "/etc/selinux/targeted/contexts/files/file_contexts";

const HOMEDIRS: &str = ".homedirs";

const LOCAL: &str = ".local";

const SUBS: &str = ".subs";

const SUBS_DIST: &str = ".subs_dist";

/// The place of the customizable types.
pub const CUSTOMIZABLE_TYPES: &str = "/etc/selinux/targeted/contexts/customizable_types";

fn joined(alloc: Global, base: &str, suffix: &str) -> Result<Name, OutOfMemory>
    ensures { IfOk result (λ name. name ≡ base.now ++ suffix.now) }
{
    let mut name = Name::copy_of(alloc, base)?;
    name.push(suffix)?;
    Ok(name)
}

// Adds a file of a policy, whose name is that of the base file and a suffix.
fn add_beside(
    alloc: Global,
    part: Part,
    version: u32,
    base: &str,
    suffix: &str,
    list: &mut FileList,
) -> Result<(), OutOfMemory>
    ensures { OnOk result
        (list.new ≡ list.old ++ file_named (role part version) (base.now ++ suffix.now) ∷ []) }
{
    let name = joined(alloc, base, suffix)?;
    list.add(FileRole { part, version }, name)
}

/// Adds the files of a policy by its number: the base file and those that stand beside it, as
/// selabel_file(5) has them. After want of memory some may have been added.
pub fn add_policy(
    alloc: Global,
    version: u32,
    base: &str,
    list: &mut FileList,
) -> Result<(), OutOfMemory>
    ensures { OnOk result (list.new ≡ list.old ++ policy_names version base.now) }
{
    let name = Name::copy_of(alloc, base)?;
    list.add(
        FileRole {
            part: Part::Base,
            version,
        },
        name,
    )?;
    add_beside(alloc, Part::Homedirs, version, base, HOMEDIRS, list)?;
    add_beside(alloc, Part::Local, version, base, LOCAL, list)?;
    add_beside(alloc, Part::Subs, version, base, SUBS, list)?;
    add_beside(alloc, Part::SubsDist, version, base, SUBS_DIST, list)
}

/// Adds the file of the customizable types, which stands at a fixed place.
pub fn add_types(alloc: Global, list: &mut FileList) -> Result<(), OutOfMemory>
    ensures { OnOk result (list.new ≡ list.old ++ types_name ∷ []) }
{
    let name = Name::copy_of(alloc, CUSTOMIZABLE_TYPES)?;
    list.add(FileRole::alone(Part::Customizable), name)
}
