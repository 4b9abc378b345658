ghost use Rattle.std.specs.Prelude.{◌≡◌};
ghost use Rattle.policy_search.specs.Stages.{dot_read, dots_read, is_end, name_begun, name_read};
ghost use Rattle.policy_search.specs.Stages.{next_stage, root_begun, stage_number};

// What parts the names of a path.
const SLASH: u8 = b'/';

// What the names `.` and `..` are made of.
const DOT: u8 = b'.';

/// How far the text of a path was read: an absolute one, of names that aren't `.` or `..`.
#[derive(Clone, Copy)]
pub enum Stage {
    /// Nothing was read.
    Empty,
    /// The slash of `/`.
    Root,
    /// A slash behind a name.
    Slash,
    /// A name that is a dot so far.
    Dot,
    /// A name that is two dots so far.
    DotDot,
    /// Any other name.
    Name,
}

// Behind the first byte of a name, or a slash, which begins none.
fn name_begun(byte: u8) -> Option<Stage>
    ensures { result ≡ name_begun byte }
{
    if byte == SLASH {
        return None;
    }
    if byte == DOT {
        return Some(Stage::Dot);
    }
    Some(Stage::Name)
}

fn root_begun(byte: u8) -> Option<Stage>
    ensures { result ≡ root_begun byte }
{
    if byte == SLASH {
        return Some(Stage::Root);
    }
    None
}

fn dot_read(byte: u8) -> Option<Stage>
    ensures { result ≡ dot_read byte }
{
    if byte == SLASH {
        return None;
    }
    if byte == DOT {
        return Some(Stage::DotDot);
    }
    Some(Stage::Name)
}

fn dots_read(byte: u8) -> Option<Stage>
    ensures { result ≡ dots_read byte }
{
    if byte == SLASH {
        return None;
    }
    Some(Stage::Name)
}

fn name_read(byte: u8) -> Option<Stage>
    ensures { result ≡ name_read byte }
{
    if byte == SLASH {
        return Some(Stage::Slash);
    }
    Some(Stage::Name)
}

impl Stage {
    /// Its number, from 0.
    pub fn number(self) -> u64
        ensures { result ≡ stage_number self }
    {
        match self {
            Stage::Empty => 0,
            Stage::Root => 1,
            Stage::Slash => 2,
            Stage::Dot => 3,
            Stage::DotDot => 4,
            Stage::Name => 5,
        }
    }

    /// Whether what was read is a path's text.
    pub fn is_end(self) -> bool
        ensures { result ≡ is_end self }
    {
        match self {
            Stage::Empty => false,
            Stage::Root => true,
            Stage::Slash => false,
            Stage::Dot => false,
            Stage::DotDot => false,
            Stage::Name => true,
        }
    }

    /// The stage behind one byte more, other than 0, or none where no path's text begins so.
    pub fn next(self, byte: u8) -> Option<Stage>
        ensures { result ≡ next_stage self byte }
    {
        match self {
            Stage::Empty => root_begun(byte),
            Stage::Root => name_begun(byte),
            Stage::Slash => name_begun(byte),
            Stage::Dot => dot_read(byte),
            Stage::DotDot => dots_read(byte),
            Stage::Name => name_read(byte),
        }
    }
}
