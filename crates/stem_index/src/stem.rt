ghost use Rattle.std.specs.Prelude.{◌≡◌};
ghost use Rattle.file_paths.specs.PathRef.{path_of};
ghost use Rattle.stem_index.specs.Stems.{first_name, stem_of};

use file_paths::{PathRef, SLASH};
use label_base::cut_at;

/// The stem of a text: empty where it has none.
pub fn stem_of(text: &[u8]) -> &[u8]
    ensures { result.now ≡ stem_of text.now }
{
    let [first, rest @ ..] = text else {
        return &[];
    };
    if *first != SLASH {
        return &[];
    }
    match cut_at(SLASH, rest) {
        (name, Some(_)) => name,
        _ => &[],
    }
}

/// The first name of a path: empty for `/`.
pub fn first_name<'a>(path: &PathRef<'a>) -> &'a [u8]
    ensures { result.now ≡ first_name (path_of path.now) }
{
    if path.names() == 0 {
        return &[];
    }
    path.name(0)
}
