ghost use Rattle.std.specs.Prelude.{◌≡◌};
ghost use Rattle.file_roles.specs.Roles.{may_be_absent, most_bytes, part_number, role, same_part};
ghost use Rattle.file_roles.specs.Roles.{same_role};

/// The greatest number of bytes of a file of specifications, or of a template of one.
pub const MOST_SPEC_BYTES: usize = 67_108_864;
/// The greatest number of bytes of a file of stored digests.
pub const MOST_STORED_BYTES: usize = 268_435_456;
/// The greatest number of bytes of a report that is audited.
pub const MOST_REPORT_BYTES: usize = 536_870_912;
/// The greatest number of bytes of a dump that is audited.
pub const MOST_OUTPUT_BYTES: usize = 268_435_456;
/// The greatest number of bytes of a file of substitutions, of type names or of users.
pub const MOST_LIST_BYTES: usize = 1_048_576;

/// What a file is to a run.
#[derive(Clone, Copy, Debug, PartialEq, Eq)]
pub enum Part {
    /// file_contexts.
    Base,
    /// file_contexts.homedirs.
    Homedirs,
    /// file_contexts.local.
    Local,
    /// file_contexts.subs.
    Subs,
    /// file_contexts.subs_dist.
    SubsDist,
    /// customizable_types.
    Customizable,
    /// The file of stored digests.
    Stored,
    /// The template of a file of homes.
    Template,
    /// The users for whose homes a file is made.
    Users,
    /// The report that is audited.
    Report,
    /// The dump that is audited.
    Output,
}

/// The role of a file: its part, and the policy to which it belongs, of which a run may have
/// several.
#[derive(Clone, Copy, Debug, PartialEq, Eq)]
pub struct FileRole {
    pub part: Part,
    /// The number of the policy, from 0; 0 for a file that belongs to none.
    pub version: u32,
}

// A number for each part.
fn part_number(part: Part) -> u32
    ensures { result ≡ part_number part }
{
    match part {
        Part::Base => 0,
        Part::Homedirs => 1,
        Part::Local => 2,
        Part::Subs => 3,
        Part::SubsDist => 4,
        Part::Customizable => 5,
        Part::Stored => 6,
        Part::Template => 7,
        Part::Users => 8,
        Part::Report => 9,
        Part::Output => 10,
    }
}

fn is_same_part(a: Part, b: Part) -> bool
    ensures { result ≡ same_part a b }
{
    part_number(a) == part_number(b)
}

impl FileRole {
    /// The role of a part in the only policy of a run, or of a file that belongs to none.
    pub fn alone(part: Part) -> FileRole
        ensures { result ≡ role part 0 }
    {
        FileRole { part, version: 0 }
    }

    /// The greatest number of bytes that the file may have.
    pub fn most_bytes(self) -> usize
        ensures { result ≡ most_bytes self.part }
    {
        match self.part {
            Part::Base | Part::Homedirs | Part::Local | Part::Template => MOST_SPEC_BYTES,
            Part::Subs | Part::SubsDist | Part::Customizable | Part::Users => MOST_LIST_BYTES,
            Part::Stored => MOST_STORED_BYTES,
            Part::Report => MOST_REPORT_BYTES,
            Part::Output => MOST_OUTPUT_BYTES,
        }
    }

    /// Whether an absent file counts as an empty one, in place of refusing the run.
    pub fn may_be_absent(self) -> bool
        ensures { result ≡ may_be_absent self.part }
    {
        match self.part {
            Part::Base | Part::Stored | Part::Template | Part::Users => false,
            Part::Report | Part::Output => false,
            Part::Homedirs | Part::Local | Part::Subs | Part::SubsDist | Part::Customizable => true,
        }
    }

    /// Whether two roles are the same.
    pub fn is(self, other: FileRole) -> bool
        ensures { result ≡ same_role self other }
    {
        is_same_part(self.part, other.part) && self.version == other.version
    }
}
