ghost use Rattle.std.specs.Prelude.{◌≡◌, ◌++◌, ◌<◌, ◌≤◌, IfOk, OnOk};
ghost use Rattle.std.specs.Fmt.{decimal};
ghost use Rattle.sample_tree.specs.Sample.{directory_text, file_front, file_text, sample_records};
ghost use Rattle.sample_tree.specs.Sample.{texts_below};

use label_base::{Bytes, OutOfMemory};
use std::alloc::Global;

/// The file of specifications of a sample, as file_contexts(5) has it.
pub const SPECS: &str = "/ -d system_u:object_r:root_t:s0\n/d[0-9]+ -d system_u:object_r:dir_t:s0\n\
        /d[0-9]+/f[0-9]+ -- system_u:object_r:a_t:s0\n\
        /d[0-9]*[13579]/.* -- system_u:object_r:b_t:s0\n";

// The greatest number of directories below the root.
const MOST_DIRECTORIES: u32 = 100;

// Inodes: the root has number 1, the directories those from 2 on, and the files those from 1000 on.
const FIRST_DIRECTORY: u32 = 2;

const FIRST_FILE: u32 = 1000;

// The record of the root.
const ROOT: &str = "d 1 1 system_u:object_r:root_t:s0 /\0";

// The record of a directory: before its inode, and from there to the number in its name.
const DIRECTORY: &str = "d 1 ";

const IN_ROOT: &str = " system_u:object_r:dir_t:s0 /d";

// The record of a file: before its inode, from there to the number of its directory by its label,
// and from there to its own number.
const FILE: &str = "f 1 ";

const LABELLED_A: &str = " system_u:object_r:a_t:s0 /d";

const LABELLED_B: &str = " system_u:object_r:b_t:s0 /d";

const UNLABELLED: &str = " ? /d";

const IN_DIRECTORY: &str = "/f";

// What ends a record.
const END: &str = "\0";

/// Adds a number in decimal digits.
pub fn add_number(alloc: Global, number: u32, text: &mut Bytes) -> Result<(), OutOfMemory>
    ensures { OnOk result (text.new ≡ text.old ++ decimal number) }
{
    text.push(format!(in alloc; "{number}")?.as_bytes())
}

// Adds the record of a directory.
#[tactic(auto, unfolding(crate::specs::Sample::directory_text))]
fn add_directory(alloc: Global, k: u32, text: &mut Bytes) -> Result<(), OutOfMemory>
    requires { k < MOST_DIRECTORIES }
    ensures { OnOk result (text.new ≡ text.old ++ directory_text k) }
{
    text.push(DIRECTORY.as_bytes())?;
    add_number(alloc, FIRST_DIRECTORY + k, text)?;
    text.push(IN_ROOT.as_bytes())?;
    add_number(alloc, k, text)?;
    text.push(END.as_bytes())
}

// What stands behind the inode of a file, by the inode's number among those of files.
#[tactic(auto, unfolding(crate::specs::Sample::file_front))]
fn file_front(j: u32) -> &'static str
    ensures { result.now ≡ file_front j }
{
    if j % 3 == 0 {
        LABELLED_A
    } else if j % 3 == 1 {
        LABELLED_B
    } else {
        UNLABELLED
    }
}

// Adds the record of a file.
#[tactic(auto, unfolding(crate::specs::Sample::file_text))]
fn add_file(alloc: Global, i: u32, text: &mut Bytes) -> Result<(), OutOfMemory>
    ensures { OnOk result (text.new ≡ text.old ++ file_text i) }
{
    text.push(FILE.as_bytes())?;
    add_number(alloc, FIRST_FILE + i / 2, text)?;
    text.push(file_front(i / 2).as_bytes())?;
    add_number(alloc, i % MOST_DIRECTORIES, text)?;
    text.push(IN_DIRECTORY.as_bytes())?;
    add_number(alloc, i, text)?;
    text.push(END.as_bytes())
}

// Adds the records of the directories below a number.
#[tactic(auto, using(crate::proofs::TextLemmas::one_more))]
fn add_directories(alloc: Global, count: u32, text: &mut Bytes) -> Result<(), OutOfMemory>
    requires { count ≤ MOST_DIRECTORIES }
    ensures { OnOk result (text.new ≡ text.old ++ texts_below directory_text count) }
{
    'directories: for k in 0..count {
        add_directory(alloc, k, text)?;
    }
    Ok(())
}

// Adds the records of the files below a number.
#[tactic(auto, using(crate::proofs::TextLemmas::one_more))]
fn add_files(alloc: Global, count: u32, text: &mut Bytes) -> Result<(), OutOfMemory>
    ensures { OnOk result (text.new ≡ text.old ++ texts_below file_text count) }
{
    'files: for i in 0..count {
        add_file(alloc, i, text)?;
    }
    Ok(())
}

/// The records of a sample with so many files, as `find -printf '%y %D %i %Z %p\0'` writes them.
#[tactic(auto, unfolding(crate::specs::Sample::sample_records))]
pub fn sample_records(alloc: Global, count: u32) -> Result<Bytes, OutOfMemory>
    ensures { IfOk result (λ text. text ≡ sample_records count) }
{
    let mut text = Bytes::copy_of(alloc, ROOT.as_bytes())?;
    add_directories(alloc, count.min(MOST_DIRECTORIES), &mut text)?;
    add_files(alloc, count, &mut text)?;
    Ok(text)
}
