ghost use Rattle.std.specs.Prelude.{◌≡◌, ◌∷◌, [], Ok};
ghost use Rattle.std.specs.List.{list_all, list_any};
ghost use Rattle.label_base.specs.Answers.{Answers, fault_cause};
ghost use Rattle.context_syntax.specs.Context.{is_word, is_word_byte};
ghost use Rattle.home_contexts.specs.User.{ends_field, is_home};
ghost use Rattle.home_contexts.specs.UserLines.{user_in, with_home};

use crate::user::{LEAST_HOME_NAMES, User};
use crate::users_fault::NoUser;
use file_paths::NormPath;
use label_base::{BLANK, Bytes, Fault, LINE_FEED, LineReader, TAB, next_field};
use std::alloc::Global;

fn may_stand_in_word(b: u8) -> bool
    ensures { result ≡ is_word_byte b }
{
    b.is_ascii_alphanumeric() || b == b'_' || b == b'.' || b == b'-'
}

fn are_word_bytes(bytes: &[u8]) -> bool
    ensures { result ≡ list_all is_word_byte bytes.now }
{
    bytes.iter().all(|b| may_stand_in_word(*b))
}

// Whether the bytes are written as a context's type is.
fn is_word(bytes: &[u8]) -> bool
    ensures { result ≡ is_word bytes.now }
{
    !bytes.is_empty() && are_word_bytes(bytes)
}

fn ends_field(b: u8) -> bool
    ensures { result ≡ ends_field b }
{
    b == BLANK || b == TAB || b == LINE_FEED
}

fn holds_field_end(text: &[u8]) -> bool
    ensures { result ≡ list_any ends_field text.now }
{
    text.iter().any(|b| ends_field(*b))
}

fn is_home(path: &NormPath) -> bool
    ensures { result ≡ is_home path.now }
{
    path.names() >= LEAST_HOME_NAMES && !holds_field_end(path.as_text())
}

fn make_user(alloc: Global, name: &[u8], role: &[u8], home: NormPath) -> Result<User, Fault<NoUser>>
    ensures { Answers (λ user. user) fault_cause result (with_home name.now role.now (Ok home)) }
{
    if !is_word(name) {
        return Err(Fault::Why(NoUser));
    }
    if !is_word(role) {
        return Err(Fault::Why(NoUser));
    }
    if !is_home(&home) {
        return Err(Fault::Why(NoUser));
    }
    Ok(User {
        name: Bytes::copy_of(alloc, name)?,
        role: Bytes::copy_of(alloc, role)?,
        home,
    })
}

fn read_user(alloc: Global, name: &[u8], role: &[u8], home: &[u8]) -> Result<User, Fault<NoUser>>
    ensures { Answers (λ user. user) fault_cause result
        (user_in (name.now ∷ role.now ∷ home.now ∷ [])) }
{
    match NormPath::read(alloc, home) {
        Ok(home) => make_user(alloc, name, role, home),
        Err(Fault::Why(_)) => Err(Fault::Why(NoUser)),
        Err(Fault::OutOfMemory) => Err(Fault::OutOfMemory),
    }
}

/// Reads the lines of a file of users.
pub struct UserReader;

impl LineReader for UserReader {
    type Value = User;

    type Why = NoUser;

    ghost meaning = { λ _ _ fields. user_in fields };

    fn read_line(
        &self,
        alloc: Global,
        _number: u32,
        first: &[u8],
        more: Option<&[u8]>,
    ) -> Result<User, Fault<NoUser>> {
        let Some((second, more)) = next_field(more) else {
            return Err(Fault::Why(NoUser));
        };
        let Some((third, _)) = next_field(more) else {
            return Err(Fault::Why(NoUser));
        };
        read_user(alloc, first, second, third)
    }
}
