ghost use Rattle.std.specs.Prelude.{◌≡◌, [], true, IfOk};
ghost use Rattle.std.specs.Cmp.Lexicographic.{slice_cmp};
ghost use Rattle.std.specs.List.{list_all};
ghost use Rattle.std.specs.List.Sorted.{IsStrictlySortedBy};
ghost use Rattle.std.specs.Ordering.{nat_cmp};
ghost use Rattle.context_syntax.specs.Context.{is_word};
ghost use Rattle.context_syntax.specs.TypeNames.{IsTypeRow, set_has_name, names_in_order, set_of};

use label_base::{Bytes, OutOfMemory, Row};
use std::alloc::Global;
use std::marker::Model;

/// A set of type names, as customizable_types(5) lists them. Contracts see the set of their bytes.
#[derive(Debug, Drop)]
pub struct TypeNames {
    names: Row<Bytes>,
}

impl Model for TypeNames {
    ghost use Rattle.context_syntax.specs.TypeNames.{IsTypeRow, NameSet, name_set_code, set_of};

    ghost Value = { NameSet };

    ghost coded = { name_set_code };

    ghost view = { λ t. set_of t.names };

    ghost invariant = { λ t. IsTypeRow t.names };
}

fn row_of(alloc: Global, names: Vec<Bytes>) -> Result<Row<Bytes>, OutOfMemory>
    ensures { IfOk result (λ row. row ≡ names.items) }
{
    let mut row = Row::new(alloc);
    'names: for name in names {
        row.push(name)?;
    }
    Ok(row)
}

// The names in byte order, each once.
fn without_repeats(mut names: Vec<Bytes>) -> Vec<Bytes>
    requires { list_all is_word names.items ≡ true }
    ensures row { IsTypeRow result.items }
    ensures set { set_of result.items ≡ set_of names.items }
{
    names.sort_unstable();
    names.dedup();
    names
}

impl TypeNames {
    /// No names.
    pub fn new(alloc: Global) -> TypeNames
        ensures { result ≡ set_of [] }
    {
        TypeNames {
            names: Row::new(alloc),
        }
    }

    pub(crate) fn of(alloc: Global, names: Row<Bytes>) -> Result<TypeNames, OutOfMemory>
        requires { list_all is_word names ≡ true }
        ensures { IfOk result (λ made. made ≡ set_of names) }
    {
        Ok(TypeNames {
            names: row_of(alloc, without_repeats(names.into_vec()))?,
        })
    }

    /// Whether the name is in the set. It is looked up by a binary search.
    pub fn has(&self, kind: &[u8]) -> bool
        ensures { result ≡ set_has_name self.now kind.now }
    {
        self.names
            .as_slice()
            .binary_search_by(|name| name.as_slice().cmp(kind))
            .is_ok()
    }

    /// The names in byte order, each once.
    pub fn sorted(&self) -> &Row<Bytes>
        ensures names { result.now ≡ names_in_order self.now }
        ensures ordered { IsStrictlySortedBy (slice_cmp nat_cmp) result.now }
        ensures words { list_all is_word result.now ≡ true }
    {
        &self.names
    }
}
