ghost use Rattle.std.specs.Prelude.{◌≡◌, ◌+◌, ◌≤◌, length};
ghost use Rattle.find_records.specs.Rows.{row_text};

use label_base::EntryKind;

// A record: the place and length of its path among the texts, and the number of its profile.
#[derive(Clone, Copy)]
pub struct RecordRow {
    pub inode: u64,
    pub at: usize,
    pub profile: u32,
    pub size: u16,
    pub kind: EntryKind,
}

/// The text of a row's path.
pub fn text_at<'a>(texts: &'a [u8], row: &RecordRow) -> &'a [u8]
    requires { row.now.at + row.now.size ≤ length texts.now }
    ensures { result.now ≡ row_text texts.now row.now }
{
    &texts[row.at..][..row.size as usize]
}
