ghost use Rattle.std.specs.Prelude.{◌<◌, ◌^◌, IfOk, length};

use input_output::{MemSink, MemSource, MemStore};
use label_base::{Bytes, OutOfMemory, Row};
use policy_commands::plain;
use std::alloc::Global;
use std::test::Fail;

const SPECS: &[u8] = b"/.* a:r:any\n/var/run/.* -s a:r:socket\n/var/run/x a:r:exact\n\
        /var/run/.* a:r:run\n";

const SUBS: &[u8] = b"# comment\n/run /var/run\n";

const FULL: &[u8] = b"/run/x f:\n\
        \x20 substituted by /p/file_contexts.subs_dist:2: /run /var/run\n\
        \x20 looked up as /var/run/x\n\
        \x20 decided by /p/file_contexts:3: /var/run/x a:r:exact\n\
        \x20 loses to an exact line: /p/file_contexts:4: /var/run/.* a:r:run\n\
        \x20 loses, of another kind: /p/file_contexts:2: /var/run/.* -s a:r:socket\n\
        \x20 loses to an exact line: /p/file_contexts:1: /.* a:r:any\n";

fn words_of(alloc: Global, words: &[&str]) -> Result<Vec<String>, OutOfMemory>
    ensures { IfOk result (λ made. length made.items < 2 ^ 31) }
{
    let mut made = Vec::new(alloc);
    'words: for word in words {
        made.push(String::from_str(alloc, word)?)?;
    }
    if made.len() >= 1 << 31 {
        return Err(OutOfMemory);
    }
    Ok(made)
}

fn store_of(alloc: Global, specs: &[u8]) -> Result<MemStore, OutOfMemory> {
    let mut store = MemStore::new(alloc, Row::new(alloc));
    store.put(alloc, "/p/file_contexts", specs)?;
    store.put(alloc, "/p/file_contexts.subs_dist", SUBS)?;
    Ok(store)
}

// Whether a run ends with this status and this text.
fn writes(
    alloc: Global,
    words: &[&str],
    specs: &[u8],
    status: u8,
    text: &[u8],
) -> Result<bool, OutOfMemory> {
    let mut store = store_of(alloc, specs)?;
    let mut input = MemSource::new(Bytes::new(alloc), 10, Row::new(alloc));
    let mut out = MemSink::new(alloc, 10, Row::new(alloc));
    let words = words_of(alloc, words)?;
    let outcome = plain(alloc, words.as_slice(), &mut store, &mut input, &mut out);
    Ok(outcome.status == status && out.written() == text)
}

#[test]
fn lines_are_reported_with_reasons(rt: HostRuntime) -> Result<(), Fail> {
    let words = ["explain", "-S", "/p/", "-m", "file", "/run/x"];
    assert!(rt; writes(rt.alloc(), &words, SPECS, 0, FULL)?);
    Ok(())
}

#[test]
fn kinds_with_one_answer_are_one_line(rt: HostRuntime) -> Result<(), Fail> {
    let words = ["explain", "-q", "-S", "/p/file_contexts", "/run/y"];
    let text = b"/run/y bcdflps: /p/file_contexts:4 a:r:run\n".as_slice();
    assert!(rt; writes(rt.alloc(), &words, SPECS, 0, text)?);
    Ok(())
}

#[test]
fn kinds_with_other_answers_are_apart(rt: HostRuntime) -> Result<(), Fail> {
    let words = ["explain", "-q", "-S", "/p/", "/a"];
    let text = b"/a bcdlps: none\n/a f: /p/file_contexts:1 <<none>>\n".as_slice();
    assert!(rt; writes(rt.alloc(), &words, b"/a -- <<none>>\n", 0, text)?);
    Ok(())
}

#[test]
fn refused_line_is_named(rt: HostRuntime) -> Result<(), Fail> {
    let words = ["explain", "-S", "/p/", "/a"];
    let text = b"relabel: /p/file_contexts: line 1: missing context\n".as_slice();
    assert!(rt; writes(rt.alloc(), &words, b"/a\n", 255, text)?);
    Ok(())
}
