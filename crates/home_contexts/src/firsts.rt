ghost use Rattle.std.specs.Prelude.{◌≡◌, ◌++◌, ◌∷◌, [], not, if◌then◌else◌, IfOk};
ghost use Rattle.std.specs.List.{list_any};
ghost use Rattle.label_base.specs.Text.{same_bytes};
ghost use Rattle.home_contexts.specs.Homes.{root_text};
ghost use Rattle.home_contexts.specs.Making.{first_flags, key_texts};

use crate::user::User;
use crate::value::root_text;
use indexmap::IndexSet;
use label_base::OutOfMemory;
use std::alloc::Global;

// Keeps a root, and tells whether it is new.
fn add_root(alloc: Global, seen: &mut IndexSet<Vec<u8>>, root: &[u8]) -> Result<bool, OutOfMemory>
    ensures new { IfOk result
        (λ new. new ≡ not (list_any (same_bytes root.now) (key_texts seen.old.keys))) }
    ensures kept { IfOk result (λ new. key_texts seen.new.keys ≡ (if new
        then key_texts seen.old.keys ++ root.now ∷ [] else key_texts seen.old.keys)) }
{
    let key = Vec::from_slice(alloc, root)?;
    let added = seen.insert_full(key)?;
    Ok(added.1)
}

// Keeps the root of a user, and tells whether it is new.
fn add_user(alloc: Global, seen: &mut IndexSet<Vec<u8>>, user: &User) -> Result<bool, OutOfMemory>
    ensures new { IfOk result
        (λ new. new ≡ not (list_any (same_bytes (root_text user.now)) (key_texts seen.old.keys))) }
    ensures kept { IfOk result (λ new. key_texts seen.new.keys ≡ (if new
        then key_texts seen.old.keys ++ root_text user.now ∷ []
        else key_texts seen.old.keys)) }
{
    add_root(alloc, seen, root_text(&user.home))
}

/// For each user whether no user before them has the same root.
pub(crate) fn first_flags(alloc: Global, users: &[User]) -> Result<Vec<bool>, OutOfMemory>
    ensures { IfOk result (λ flags. flags.items ≡ first_flags [] users.now) }
{
    let mut seen = IndexSet::new(alloc);
    let mut flags = Vec::with_capacity(alloc, users.len())?;
    'users: for user in users {
        let new = add_user(alloc, &mut seen, user)?;
        flags.push(new)?;
    }
    Ok(flags)
}
