ghost use Rattle.std.specs.Prelude.{◌≡◌, ℕ, ◌<◌, ◌^◌, ◌++◌, IfErr, OnOk, length};
ghost use Rattle.run_faults.specs.Causes.{Counts, Gives, IsFileCause};
ghost use Rattle.run_input.specs.Files.{Reads};
ghost use Rattle.policy_rehearsal.specs.Files.{version_names, policies_below, policy_for, rules_by};
ghost use Rattle.policy_rehearsal.specs.Files.{rules_read, with_types};

use context_syntax::TypeNames;
use file_roles::{FileList, FileRole, Part};
use input_output::Store;
use label_base::{Bytes, Name, OutOfMemory, Row};
use label_rules::Rules;
use path_subs::Subs;
use policy_files::{add_policy, read_specifications, read_substitutions, types_in};
use run_faults::Cause;
use run_input::read_part;
use spec_match::RuleSet;
use std::alloc::Global;

/// What the files of one policy say, without the types that all policies have in common.
#[derive(Drop)]
pub struct Policy {
    pub specs: RuleSet,
    pub subs: Subs,
}

/// Adds the files of each policy, which are numbered from 0 on.
pub fn add_policies(alloc: Global, bases: &[Name], list: &mut FileList) -> Result<(), OutOfMemory>
    requires { length bases.now < 2 ^ 32 }
    ensures { OnOk result (list.new ≡ list.old ++ version_names 0 bases.now) }
{
    let mut version = 0;
    'bases: for base in bases {
        add_policy(alloc, version, base.as_str(), list)?;
        version += 1;
    }
    Ok(())
}

fn read_policy<S: Store>(
    alloc: Global,
    list: &FileList,
    version: u32,
    store: &mut S,
) -> Result<Policy, Cause>
    ensures { Reads S.files S.calls S.read_faults S.write_faults (policy_for list.now version)
        store.old store.new result }
{
    let specs = read_specifications(alloc, list, version, store)?;
    let subs = read_substitutions(alloc, list, version, store)?;
    Ok(Policy { specs, subs })
}

// Reads the files of so many policies, each whole before the next.
fn read_policies<S: Store>(
    alloc: Global,
    list: &FileList,
    count: u32,
    store: &mut S,
) -> Result<Row<Policy>, Cause>
    ensures { Reads S.files S.calls S.read_faults S.write_faults (policies_below list.now count)
        store.old store.new result }
{
    let mut policies = Row::new(alloc);
    'versions: for version in 0..count {
        let policy = read_policy(alloc, list, version, store)?;
        policies.push(policy)?;
    }
    Ok(policies)
}

fn rules_of(policy: Policy, types: TypeNames) -> Rules
    ensures { result ≡ with_types types policy }
{
    let Policy { specs, subs } = policy;
    Rules {
        rules: specs,
        subs,
        types,
    }
}

// The rules of policies, each with the types in these bytes.
fn rules_with(alloc: Global, policies: Row<Policy>, bytes: &Bytes) -> Result<Row<Rules>, Cause>
    requires { length bytes.now < 2 ^ 32 }
    ensures answer { Gives (rules_by policies bytes.now) result }
    ensures counts { (count : ℕ) → Counts count count result }
    ensures kinds { IfErr result IsFileCause }
{
    // Refused lines are refused without policies too.
    let _ = types_in(alloc, bytes)?;
    let mut rules = Row::with_capacity(alloc, policies.len())?;
    'policies: for policy in policies.into_vec() {
        rules.push(rules_of(policy, types_in(alloc, bytes)?))?;
    }
    Ok(rules)
}

/// Reads the files of so many policies, each whole before the next, then the customizable types,
/// which all have in common.
///
/// The error is a failed read, or the first refusal.
pub fn read_found<S: Store>(
    alloc: Global,
    list: &FileList,
    count: u32,
    store: &mut S,
) -> Result<Row<Rules>, Cause>
    ensures { Reads S.files S.calls S.read_faults S.write_faults (rules_read list.now count)
        store.old store.new result }
{
    let policies = read_policies(alloc, list, count, store)?;
    let role = FileRole {
        part: Part::Customizable,
        version: 0,
    };
    let bytes = read_part(alloc, list, role, store)?;
    rules_with(alloc, policies, &bytes)
}
