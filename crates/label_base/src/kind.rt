ghost use Rattle.std.specs.Prelude.{◌≡◌, ◌↔◌, ◌<◌, length, IfSome, Some, true};
ghost use Rattle.label_base.specs.Kind.{class_kind, field_kind, has_letter, has_names};
ghost use Rattle.label_base.specs.Kind.{is_kind_name, kind_number, letter_kind, kind_names};
ghost use Rattle.label_base.specs.Kind.{names_of, numbered_kind, same_kind};
ghost use Rattle.label_base.specs.KindNames.{names_seen};

/// The kind of an entry of a tree, as find(1) tells it with `%y`.
#[derive(Clone, Copy, Debug, PartialEq, Eq)]
pub enum EntryKind {
    Regular,
    Directory,
    Link,
    Pipe,
    Socket,
    Block,
    Char,
    /// A door, or a kind that could not be told.
    Other,
}

/// All kinds, in the order of their numbers.
const KINDS: [EntryKind; 8] = [
    EntryKind::Regular,
    EntryKind::Directory,
    EntryKind::Link,
    EntryKind::Pipe,
    EntryKind::Socket,
    EntryKind::Block,
    EntryKind::Char,
    EntryKind::Other,
];

/// What names a kind; nothing where it has no such name.
#[derive(Clone, Copy)]
struct Names {
    /// The letters that find(1) prints by `%y`.
    letters: &'static [u8],
    /// The type field of selabel_file(5).
    type_field: &'static [u8],
    /// The name that matchpathcon(8) takes by `-m`.
    class_name: &'static str,
}

fn named(letters: &'static [u8], type_field: &'static [u8], class_name: &'static str) -> Names
    ensures { names_seen result ≡ kind_names letters.entry.now type_field.entry.now
        class_name.entry.now }
{
    Names {
        letters,
        type_field,
        class_name,
    }
}

impl EntryKind {
    // The table.
    fn names(self) -> Names
        ensures { names_seen result ≡ names_of self }
    {
        match self {
            EntryKind::Regular => named(b"f", b"--", "file"),
            EntryKind::Directory => named(b"d", b"-d", "dir"),
            EntryKind::Link => named(b"l", b"-l", "lnk_file"),
            EntryKind::Pipe => named(b"p", b"-p", "pipe"),
            EntryKind::Socket => named(b"s", b"-s", "sock_file"),
            EntryKind::Block => named(b"b", b"-b", "blk_file"),
            EntryKind::Char => named(b"c", b"-c", "chr_file"),
            EntryKind::Other => named(b"DU", b"", ""),
        }
    }

    /// Its number, from 0.
    pub fn number(self) -> usize
        ensures value { result ≡ kind_number self }
        ensures read_back { numbered_kind result ≡ Some self }
        ensures below { result < length KINDS }
    {
        self as usize
    }

    /// Whether it is the same kind.
    pub fn is_same(self, other: EntryKind) -> bool
        ensures value { result ≡ same_kind self other }
        ensures exact { (result ≡ true) ↔ (self ≡ other) }
    {
        self as u8 == other as u8
    }

    /// The type field of selabel_file(5) for it; none is for `Other`.
    pub fn type_field(self) -> &'static [u8]
        ensures value { result.now ≡ (names_of self).type_field }
        ensures read_back { has_names self ≡ true → field_kind result.now ≡ Some self }
    {
        self.names().type_field
    }

    /// The name that matchpathcon(8) takes for it by `-m`; none is for `Other`.
    pub fn class_name(self) -> &'static str
        ensures value { result.now ≡ (names_of self).class_name }
        ensures read_back { has_names self ≡ true → class_kind result.now ≡ Some self }
    {
        self.names().class_name
    }

    fn has_letter(self, letter: u8) -> bool
        ensures { result ≡ has_letter letter self }
    {
        self.names().letters.contains(&letter)
    }

    /// The kind for which find(1) prints a letter by `%y`; no two kinds have one in common.
    #[tactic(auto, using(crate::proofs::KindLemmas::only_letter))]
    pub fn of_letter(letter: u8) -> Option<EntryKind>
        ensures value { result ≡ letter_kind letter }
        ensures only { (kind : EntryKind) → has_letter letter kind ≡ true → result ≡ Some kind }
    {
        kind_with(letter)
    }

    /// The kind that a type field of selabel_file(5) names.
    pub fn of_type_field(text: &[u8]) -> Option<EntryKind>
        ensures value { result ≡ field_kind text.now }
        ensures named { IfSome result (λ kind. has_names kind ≡ true) }
    {
        KINDS
            .iter()
            .copied()
            .find(|kind| is_name(kind.type_field(), text))
    }

    /// The kind that matchpathcon(8) takes by a name of `-m`.
    pub fn of_class_name(text: &str) -> Option<EntryKind>
        ensures value { result ≡ class_kind text.now }
        ensures named { IfSome result (λ kind. has_names kind ≡ true) }
    {
        KINDS.iter().copied().find(|kind| is_name(kind.class_name().as_bytes(), text.as_bytes()))
    }
}

fn kind_with(letter: u8) -> Option<EntryKind>
    ensures { result ≡ letter_kind letter }
{
    KINDS.iter().copied().find(|kind| kind.has_letter(letter))
}

fn is_name(name: &[u8], text: &[u8]) -> bool
    ensures { result ≡ is_kind_name name.now text.now }
{
    !name.is_empty() && name == text
}

/// The kind that a look-up asks for.
#[derive(Clone, Copy, Debug, PartialEq, Eq)]
pub enum Asked {
    Any,
    Of(EntryKind),
}
