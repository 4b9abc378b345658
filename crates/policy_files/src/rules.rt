ghost use Rattle.std.specs.Prelude.{◌≡◌};
ghost use Rattle.run_input.specs.Files.{Reads};
ghost use Rattle.policy_files.specs.Rules.{rest_for, rules_for};

use crate::reading::{read_specifications, read_substitutions, read_types};
use context_syntax::TypeNames;
use file_roles::FileList;
use input_output::Store;
use label_rules::Rules;
use path_subs::Subs;
use run_faults::Cause;
use std::alloc::Global;

// Reads what stands behind the specifications: the substitutions, then the customizable types.
fn read_rest<S: Store>(
    alloc: Global,
    list: &FileList,
    store: &mut S,
) -> Result<(Subs, TypeNames), Cause>
    ensures { Reads S.files S.calls S.read_faults S.write_faults (rest_for list.now)
        store.old store.new result }
{
    let subs = read_substitutions(alloc, list, 0, store)?;
    let types = read_types(alloc, list, store)?;
    Ok((subs, types))
}

/// Reads the files of the only policy of a run: the specifications, the substitutions, then the
/// customizable types.
///
/// The error is a failed read, or the first refusal.
pub fn read_rules<S: Store>(alloc: Global, list: &FileList, store: &mut S) -> Result<Rules, Cause>
    ensures { Reads S.files S.calls S.read_faults S.write_faults (rules_for list.now)
        store.old store.new result }
{
    let rules = read_specifications(alloc, list, 0, store)?;
    let (subs, types) = read_rest(alloc, list, store)?;
    Ok(Rules { rules, subs, types })
}
