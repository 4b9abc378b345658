//! The program relabel-policy: questions about the lines of a policy.
#![tactic(auto)]

ghost use Rattle.std.specs.Prelude.{◌<◌, ◌^◌, IfOk, length};

use input_output::{FileStore, ReadSource, WriteSink};
use policy_commands::plain;
use std::alloc::Global;
use std::io::ErrorKind;
use std::process::ExitCode;
use std::{env, io};

/// The exit status where the program is given 2^31 words or more.
const TOO_MANY_WORDS: u8 = 250;
/// The exit status where a word is no text.
const WORDS_REFUSED: u8 = 251;
/// The exit status where there is no memory for the words.
const NO_MEMORY: u8 = 254;

// The words after the program's name, or the status to end with.
fn words_of(alloc: Global, rt: &HostRuntime) -> Result<Vec<String>, u8>
    ensures { IfOk result (λ words. length words.items < 2 ^ 31) }
{
    let given = match env::args(rt) {
        Ok(given) => given,
        Err(error) if error.kind() == ErrorKind::OutOfMemory => return Err(NO_MEMORY),
        Err(_) => return Err(WORDS_REFUSED),
    };
    let mut words = Vec::new(alloc);
    'words: for word in given.skip(1) {
        if words.push(word).is_err() {
            return Err(NO_MEMORY);
        }
    }
    if words.len() >= 1 << 31 {
        return Err(TOO_MANY_WORDS);
    }
    Ok(words)
}

fn main(rt: HostRuntime) -> ExitCode {
    let alloc = rt.alloc();
    let words = match words_of(alloc, &rt) {
        Ok(words) => words,
        Err(status) => return ExitCode::from(status),
    };
    let mut store = FileStore::new(&rt);
    let mut input = ReadSource::new(rt.reader());
    let mut out = WriteSink::new(io::writer(&rt));
    let outcome = plain(alloc, words.as_slice(), &mut store, &mut input, &mut out);
    ExitCode::from(outcome.status)
}
