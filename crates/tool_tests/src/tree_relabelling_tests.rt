ghost use Rattle.std.specs.Prelude.{◌<◌, ◌^◌, IfOk, length};

use label_base::{Fault, OutOfMemory};
use std::alloc::Global;
use std::test::Fail;
use tool_words::{Usage, UsageWhy};
use tree_relabelling::{RelabelWords, read_restorecon, read_setfiles};

fn words_of(alloc: Global, words: &[&str]) -> Result<Vec<String>, OutOfMemory>
    ensures { IfOk result (λ made. length made.items < 2 ^ 30) }
{
    let mut made = Vec::new(alloc);
    'words: for word in words {
        made.push(String::from_str(alloc, word)?)?;
    }
    if made.len() >= 1 << 30 {
        return Err(OutOfMemory);
    }
    Ok(made)
}

fn setfiles(alloc: Global, words: &[&str]) -> Result<RelabelWords, Fault<Usage>> {
    let words = words_of(alloc, words)?;
    read_setfiles(alloc, words.as_slice(), 1)
}

fn restorecon(alloc: Global, words: &[&str]) -> Result<RelabelWords, Fault<Usage>> {
    let words = words_of(alloc, words)?;
    read_restorecon(alloc, words.as_slice(), 1)
}

#[test]
fn setfiles_names_its_specifications_first(rt: HostRuntime) -> Result<(), Fail> {
    let asked = setfiles(rt.alloc(), ["-nF", "fc", "-T4", "/"].as_slice())?;
    assert!(rt; asked.base.as_str() == "fc" && asked.workers == 4 && asked.choice.recurse);
    Ok(())
}

#[test]
fn restorecon_goes_below_where_it_is_asked_to(rt: HostRuntime) -> Result<(), Fail> {
    let asked = restorecon(rt.alloc(), ["-n", "-S", "fc", "/a", "/b"].as_slice())?;
    assert!(rt; !asked.choice.recurse && asked.choice.operands.len() == 2);
    Ok(())
}

// The first word that is wrong.
fn wrong_in(alloc: Global, words: &[&str]) -> Option<Usage> {
    match setfiles(alloc, words) {
        Err(Fault::Why(wrong)) => Some(wrong),
        _ => None,
    }
}

#[test]
fn a_letter_without_a_row_is_refused(rt: HostRuntime) {
    let wrong = wrong_in(rt.alloc(), ["-n", "-q", "fc", "/"].as_slice());
    assert!(rt; wrong.is_some_and(|w| w.index == 2 && w.why == UsageWhy::UnknownOption));
}

#[test]
fn an_output_is_asked_for(rt: HostRuntime) {
    let wrong = wrong_in(rt.alloc(), ["fc", "/"].as_slice());
    assert!(rt; wrong.is_some_and(|w| w.index == 3 && w.why == UsageWhy::NoOutput));
}
