//! The program: setfiles(8), restorecon(8) and matchpathcon(8) over the files of a policy and the
//! records of a tree, rehearsals of several policies there, audits of a report and a dump,
//! genhomedircon over a template and a list of users, and a sample of a tree, walked twice.
#![tactic(auto)]

ghost use Rattle.std.specs.Prelude.{◌<◌, ◌^◌, IfOk, length};

use input_output::{FileStore, ReadSource, WriteSink};
use policy_files::CUSTOMIZABLE_TYPES;
use relabel_commands::top;
use std::alloc::Global;
use std::env::VarError;
use std::io::ErrorKind;
use std::process::ExitCode;
use std::thread::Threads;
use std::{env, io, thread};

/// The variable that names the file to which the name of the customizable types leads.
const TYPES_VARIABLE: &str = "RELABEL_CUSTOMIZABLE_TYPES";
/// The exit status where the program is given 2^31 words or more.
const TOO_MANY_WORDS: u8 = 250;
/// The exit status where a word is no text.
const WORDS_REFUSED: u8 = 251;
/// The exit status where there is no memory for the words.
const NO_MEMORY: u8 = 254;
/// A name that no file can have, for a value of the variable that is no text: reading the types by
/// it fails.
const NO_FILE: &str = "\0";

// The words after the program's name, or the status to end with.
fn words_of(alloc: Global, rt: &HostRuntime) -> Result<Vec<String>, u8>
    ensures { IfOk result (λ words. length words.items < 2 ^ 31) }
{
    let given = match env::args(rt) {
        Ok(given) => given,
        Err(error) if error.kind() == ErrorKind::OutOfMemory => return Err(NO_MEMORY),
        Err(_) => return Err(WORDS_REFUSED),
    };
    let mut words = Vec::new(alloc);
    'words: for word in given.skip(1) {
        if words.push(word).is_err() {
            return Err(NO_MEMORY);
        }
    }
    if words.len() >= 1 << 31 {
        return Err(TOO_MANY_WORDS);
    }
    Ok(words)
}

// What the variable says, nothing where it isn't set, or the status to end with.
fn types_named(rt: &HostRuntime) -> Result<String, u8> {
    match env::var(rt, TYPES_VARIABLE) {
        Ok(name) => Ok(name),
        Err(VarError::NotPresent) => Ok(String::new(rt.alloc())),
        Err(VarError::NotUnicode) => match String::from_str(rt.alloc(), NO_FILE) {
            Ok(name) => Ok(name),
            Err(_) => Err(NO_MEMORY),
        },
        Err(VarError::OutOfMemory) => Err(NO_MEMORY),
    }
}

// The number of processors, or 1 where it can't be told.
fn cores_of(rt: &impl Threads) -> u32 {
    match thread::available_parallelism(rt) {
        Ok(cores) => u32::try_from(cores.get()).unwrap_or(1),
        Err(_) => 1,
    }
}

fn main(rt: HostRuntime) -> ExitCode {
    let alloc = rt.alloc();
    let words = match words_of(alloc, &rt) {
        Ok(words) => words,
        Err(status) => return ExitCode::from(status),
    };
    let types = match types_named(&rt) {
        Ok(types) => types,
        Err(status) => return ExitCode::from(status),
    };
    let mut store = FileStore::redirected(&rt, CUSTOMIZABLE_TYPES, types.as_str());
    let mut input = ReadSource::new(rt.reader());
    let mut out = WriteSink::new(io::writer(&rt));
    let outcome = top(
        &rt,
        alloc,
        words.as_slice(),
        cores_of(&rt),
        &mut store,
        &mut input,
        &mut out,
    );
    ExitCode::from(outcome.status)
}
