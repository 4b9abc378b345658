ghost use Rattle.std.specs.Prelude.{◌≡◌, ◌∷◌, ◌++◌, ◌<◌, ◌≤◌, ◌||◌, [], drop, length, map, take};
ghost use Rattle.std.specs.Prelude.{IfSome, IfNone};
ghost use Rattle.home_contexts.specs.Making.{begins_none};
ghost use Rattle.home_contexts.specs.declared.word.FieldPiece.TheVariants.{Byte};
ghost use Rattle.home_contexts.specs.Words.{holds_word, is_other, is_root_word, template_pieces};
ghost use Rattle.home_contexts.specs.Words.{stands_for, template_word_at, word_text};

/// Stands for the home without its last name.
pub(crate) const HOME_ROOT: &[u8] = b"HOME_ROOT";

/// Stands for the home.
pub(crate) const HOME_DIR: &[u8] = b"HOME_DIR";

/// Stands for the role.
pub(crate) const ROLE: &[u8] = b"ROLE";

/// Stands for the name.
pub(crate) const USER: &[u8] = b"USER";

/// The byte with which HOME_ROOT and HOME_DIR begin.
pub(crate) const HOME_FIRST: u8 = b'H';

/// The byte with which ROLE begins.
pub(crate) const ROLE_FIRST: u8 = b'R';

/// The byte with which USER begins.
pub(crate) const USER_FIRST: u8 = b'U';

/// A word of a template, for which a user gives a value.
#[derive(Clone, Copy)]
pub(crate) enum Word {
    HomeRoot,
    HomeDir,
    Role,
    User,
}

/// A piece of a field: a byte that stands for itself, or a word.
#[derive(Clone, Copy)]
pub(crate) enum FieldPiece {
    Byte(u8),
    Stands(Word),
}

/// Which words a field or a line holds.
#[derive(Clone, Copy)]
pub(crate) struct Held {
    /// `HOME_ROOT`.
    pub root: bool,
    /// Another one.
    pub other: bool,
}

fn word_text(word: Word) -> &'static [u8]
    ensures { result.now ≡ word_text word }
{
    match word {
        Word::HomeRoot => HOME_ROOT,
        Word::HomeDir => HOME_DIR,
        Word::Role => ROLE,
        Word::User => USER,
    }
}

#[tactic(auto, unfolding(crate::specs::Words::template_word_at))]
fn word_at(text: &[u8]) -> Option<Word>
    ensures { result ≡ template_word_at text.now }
{
    if text.starts_with(HOME_ROOT) {
        Some(Word::HomeRoot)
    } else if text.starts_with(HOME_DIR) {
        Some(Word::HomeDir)
    } else if text.starts_with(ROLE) {
        Some(Word::Role)
    } else if text.starts_with(USER) {
        Some(Word::User)
    } else {
        None
    }
}

// What stands behind the word that a text begins with.
fn behind_word<'a>(text: &'a [u8], word: &[u8]) -> &'a [u8]
    requires { length word.now ≤ length text.now }
    ensures { result.now ≡ drop (length word.now) text.now }
{
    &text[word.len()..]
}

/// The first piece of a field, and what is left behind it.
pub(crate) fn next_piece(field: &[u8]) -> Option<(FieldPiece, &[u8])>
    ensures found { IfSome result
        (λ found. template_pieces field.now ≡ found.0 ∷ template_pieces found.1.now) }
    ensures shorter { IfSome result (λ found. length found.1.now < length field.now) }
    ensures none { IfNone result (template_pieces field.now ≡ []) }
{
    let [first, rest @ ..] = field else {
        return None;
    };
    match word_at(field) {
        None => Some((FieldPiece::Byte(*first), rest)),
        Some(word) => Some((
            FieldPiece::Stands(word),
            behind_word(field, word_text(word)),
        )),
    }
}

// Whether no word begins with a byte.
fn begins_none(b: u8) -> bool
    ensures { result ≡ begins_none b }
{
    b != HOME_FIRST && b != ROLE_FIRST && b != USER_FIRST
}

// How many bytes stand at the beginning with which no word begins.
#[tactic(auto, using(crate::proofs::Runs::run_more))]
fn run_length(field: &[u8]) -> usize
    ensures within { result ≤ length field.now }
    ensures pieces { template_pieces field.now
        ≡ map Byte (take result field.now) ++ template_pieces (drop result field.now) }
{
    let mut at = 0;
    'bytes: while at < field.len() {
        if !begins_none(field[at]) {
            return at;
        }
        at += 1;
    }
    at
}

/// Bytes at the beginning that stand for themselves, and what is left behind them.
pub(crate) fn plain_run(field: &[u8]) -> (&[u8], &[u8])
    ensures pieces { template_pieces field.now ≡ map Byte result.0.now ++ template_pieces
        result.1.now }
    ensures shorter { length result.1.now ≤ length field.now }
{
    let length = run_length(field);
    (&field[..length], &field[length..])
}

fn is_root(word: Word) -> bool
    ensures { result ≡ is_root_word word }
{
    matches!(word, Word::HomeRoot)
}

fn with_piece(held: Held, piece: FieldPiece) -> Held
    ensures root { result.root ≡ (held.root || stands_for is_root_word piece) }
    ensures other { result.other ≡ (held.other || stands_for is_other piece) }
{
    match piece {
        FieldPiece::Byte(_) => held,
        FieldPiece::Stands(word) => Held {
            root: held.root || is_root(word),
            other: held.other || !is_root(word),
        },
    }
}

/// The words held already, and those that the field holds.
pub(crate) fn with_field(held: Held, field: &[u8]) -> Held
    ensures root { result.root ≡ (held.root || holds_word is_root_word field.now) }
    ensures other { result.other ≡ (held.other || holds_word is_other field.now) }
{
    let mut all = held;
    let mut left = field;
    'pieces: while let Some((piece, rest)) = next_piece(left) {
        all = with_piece(all, piece);
        left = rest;
    }
    all
}
