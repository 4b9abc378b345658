ghost use Rattle.std.specs.Prelude.{◌≡◌, ◌++◌, ◌≤◌, true, IfOk, Ok, OnOk, OnErr, length};
ghost use Rattle.label_base.specs.Answers.{Answers, fault_cause};
ghost use Rattle.file_paths.specs.Path.{path_names, path_read, with_slashes};
ghost use Rattle.file_paths.specs.PathText.{IsNormal};
ghost use Rattle.file_paths.specs.PathRef.{IsTextOf, normal_text};

use crate::path::{MOST_PATH_BYTES, NormPath, SLASH, is_plain};
use crate::path_fault::PathFault;
use label_base::Fault;
use std::alloc::Global;

// Whether the bytes are a path's text as it is kept, told quickly: false for some that are.
fn is_kept_text(bytes: &[u8]) -> bool
    ensures normal { result ≡ true → IsNormal bytes.now }
    ensures read { result ≡ true → path_read bytes.now ≡ Ok (path_names bytes.now) }
    ensures short { result ≡ true → length bytes.now ≤ MOST_PATH_BYTES }
{
    if bytes.is_empty() {
        return false;
    }
    if bytes.len() > MOST_PATH_BYTES {
        return false;
    }
    if bytes.contains(&0) {
        return false;
    }
    if bytes[0] != SLASH {
        return false;
    }
    is_plain(bytes)
}

fn add_text(texts: &mut Vec<u8>, text: &[u8]) -> Result<(), PathFault>
    ensures answer { Answers (λ _. path_names text.now) fault_cause result
        (Ok (path_names text.now)) }
    ensures ok { OnOk result (texts.new.items ≡ texts.old.items ++ text.now) }
    ensures err { OnErr result (texts.new.items ≡ texts.old.items) }
{
    match texts.extend_from_slice(text) {
        Ok(()) => Ok(()),
        Err(_) => Err(Fault::OutOfMemory),
    }
}

// What is kept of a path, added.
fn add_norm_path(texts: &mut Vec<u8>, path: &NormPath) -> Result<(), PathFault>
    ensures answer { Answers (λ _. path.now) fault_cause result (Ok path.now) }
    ensures ok { OnOk result (texts.new.items ≡ texts.old.items ++ with_slashes path.now) }
    ensures err { OnErr result (texts.new.items ≡ texts.old.items) }
{
    add_text(texts, path.kept_text())
}

/// Adds a path's text to others, so that many are kept in one place. After a refusal the texts are
/// as they were.
pub fn add_path(alloc: Global, texts: &mut Vec<u8>, bytes: &[u8]) -> Result<(), PathFault>
    ensures answer { Answers (λ _. path_names bytes.now) fault_cause result (path_read bytes.now) }
    ensures ok { OnOk result (texts.new.items ≡ texts.old.items ++ normal_text bytes.now) }
    ensures err { OnErr result (texts.new.items ≡ texts.old.items) }
    ensures text { IfOk result (λ _. IsTextOf bytes.now (normal_text bytes.now)) }
{
    if is_kept_text(bytes) {
        return add_text(texts, bytes);
    }
    let path = NormPath::read(alloc, bytes)?;
    add_norm_path(texts, &path)
}
