ghost use Rattle.std.specs.Prelude.{◌≡◌};
ghost use Rattle.label_base.specs.Kind.{same_kind};
ghost use Rattle.tree_model.specs.Entries.{same_record};
ghost use Rattle.find_records.specs.Entry.{entry_of};

use find_records::Entry;
use label_base::EntryKind;

fn is_same_kind(a: EntryKind, b: EntryKind) -> bool
    ensures { result ≡ same_kind a b }
{
    a as u8 == b as u8
}

/// Whether all fields are the same.
pub fn is_same_record(a: &Entry<'_>, b: &Entry<'_>) -> bool
    ensures { result ≡ same_record (entry_of a.now) (entry_of b.now) }
{
    a.inode == b.inode
        && a.device == b.device
        && is_same_kind(a.kind, b.kind)
        && a.links == b.links
        && *a.label == *b.label
        && a.path.is_same(&b.path)
}
