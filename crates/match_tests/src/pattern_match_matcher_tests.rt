ghost use Rattle.pattern_syntax.specs.Language.{holds};
ghost use Rattle.std.specs.Prelude.{◌/◌, ◌^◌, ◌<◌, true, false, length};

use file_paths::NormPath;
use label_base::OutOfMemory;
use pattern_match::{
    Matcher, PatternTables, every_cut_is_membership, may_hold, quotients_show_what_is_below,
};
use pattern_syntax::Pattern;
use std::alloc::Global;
use std::test::Fail;

fn matched(alloc: Global, pattern: &Pattern, text: &[u8]) -> Result<bool, OutOfMemory> {
    let tables = PatternTables::new(alloc, pattern)?;
    let matcher = Matcher::new(pattern, &tables);
    let mut states = matcher.states(alloc)?;
    Ok(matcher.matches(&mut states, text))
}

fn lies_below(alloc: Global, pattern: &Pattern, path: &NormPath) -> Result<bool, OutOfMemory> {
    let tables = PatternTables::new(alloc, pattern)?;
    let matcher = Matcher::new(pattern, &tables);
    let mut states = matcher.states(alloc)?;
    Ok(matcher.alive_below(&mut states, path))
}

// Whether the pattern's language holds the text, or nothing for what is no pattern.
fn held(alloc: Global, pattern: &[u8], text: &[u8]) -> Option<bool>
    requires { length pattern.now < 2 ^ 32 }
{
    let pattern = Pattern::read(alloc, pattern).ok()?;
    matched(alloc, &pattern, text).ok()
}

// Whether the pattern's language holds the path or something below it.
fn below(alloc: Global, pattern: &[u8], path: &[u8]) -> Option<bool>
    requires { length pattern.now < 2 ^ 32 }
{
    let pattern = Pattern::read(alloc, pattern).ok()?;
    let path = NormPath::read(alloc, path).ok()?;
    lies_below(alloc, &pattern, &path).ok()
}

fn shown_behind(
    alloc: Global,
    pattern: &Pattern,
    text: &[u8],
) -> Result<(bool, bool), OutOfMemory> {
    let tables = PatternTables::new(alloc, pattern)?;
    let matcher = Matcher::new(pattern, &tables);
    let mut states = matcher.states(alloc)?;
    matcher.read(&mut states, text);
    Ok((matcher.takes_all(&mut states), matcher.stays(&mut states)))
}

// Whether the pattern is told to hold whatever begins with the text, and whether its states are
// told to stay.
fn goes_on(alloc: Global, pattern: &[u8], text: &[u8]) -> Option<(bool, bool)>
    requires { length pattern.now < 2 ^ 32 }
{
    let pattern = Pattern::read(alloc, pattern).ok()?;
    shown_behind(alloc, &pattern, text).ok()
}

#[test]
fn texts_of_patterns(rt: HostRuntime) {
    let alloc = rt.alloc();
    assert_eq!(rt;
        held(alloc, b"/usr/lib(64)?(/.*)?", b"/usr/lib64/x"),
        Some(true)
    );
    assert_eq!(rt;
        held(alloc, b"/usr/lib(64)?(/.*)?", b"/usr/lib6"),
        Some(false)
    );
    assert_eq!(rt; held(alloc, b"/dev/[shmx]d[^/]*", b"/dev/sda1"), Some(true));
    assert_eq!(rt;
        held(alloc, b"/dev/[shmx]d[^/]*", b"/dev/sd/a"),
        Some(false)
    );
    assert_eq!(rt; held(alloc, b"[]a]", b"]"), Some(true));
    assert_eq!(rt; held(alloc, b"[]a]", b"a"), Some(true));
    assert_eq!(rt; held(alloc, b"a{,3}", b"a{,3}"), Some(true));
    assert_eq!(rt; held(alloc, b"a{,3}", b"aa"), Some(false));
    assert_eq!(rt; held(alloc, b"^/a$", b"/a"), Some(true));
    assert_eq!(rt; held(alloc, b"^/a$", b"/a/b"), Some(false));
    assert_eq!(rt; held(alloc, b"a**", b"a"), None);
}

#[test]
fn repeats(rt: HostRuntime) {
    let alloc = rt.alloc();
    assert_eq!(rt; held(alloc, b"(ab?){2,3}", b"aba"), Some(true));
    assert_eq!(rt; held(alloc, b"(ab?){2,3}", b"ab"), Some(false));
    assert_eq!(rt; held(alloc, b"(ab?){2,3}", b"aaaa"), Some(false));
    assert_eq!(rt; held(alloc, b"(a?){3,}b", b"aaaaab"), Some(true));
    assert_eq!(rt; held(alloc, b"(a?){3,}b", b"b"), Some(true));
    assert_eq!(rt; held(alloc, b".{70}", &[b'x'; 70]), Some(true));
    assert_eq!(rt; held(alloc, b".{70}", &[b'x'; 69]), Some(false));
}

#[test]
fn texts_that_begin_as_the_pattern(rt: HostRuntime) -> Result<(), Fail> {
    let pattern = Pattern::read(rt.alloc(), b"/ab.*")?;
    assert!(rt; may_hold(&pattern, b"/abc"));
    assert!(rt; !may_hold(&pattern, b"/a"));
    Ok(())
}

#[test]
fn below_paths(rt: HostRuntime) {
    let alloc = rt.alloc();
    assert_eq!(rt; below(alloc, b"/usr/lib(/.*)?", b"/"), Some(true));
    assert_eq!(rt; below(alloc, b"/usr/lib(/.*)?", b"/usr"), Some(true));
    assert_eq!(rt; below(alloc, b"/usr/lib(/.*)?", b"/usr/lib"), Some(true));
    assert_eq!(rt; below(alloc, b"/usr/lib(/.*)?", b"/us"), Some(false));
    assert_eq!(rt; below(alloc, b"/usr/libx", b"/usr/lib"), Some(false));
    assert_eq!(rt; below(alloc, b"x", b"/"), Some(false));
}

#[test]
fn whatever_follows(rt: HostRuntime) {
    let alloc = rt.alloc();
    assert_eq!(rt; goes_on(alloc, b"/a(/.*)?", b"/a/b"), Some((true, true)));
    assert_eq!(rt; goes_on(alloc, b"/a(/.*)?", b"/a"), Some((false, false)));
}

// The state of the slash leads to that of the dot.
#[test]
fn whatever_follows_a_slash(rt: HostRuntime) {
    let alloc = rt.alloc();
    assert_eq!(rt; goes_on(alloc, b"/a(/.*)?", b"/a/"), Some((true, false)));
}

#[test]
fn whatever_follows_but_a_slash(rt: HostRuntime) {
    let alloc = rt.alloc();
    assert_eq!(rt; goes_on(alloc, b"/a/[^/]*", b"/a/b"), Some((false, false)));
}

#[test]
fn states_that_stay(rt: HostRuntime) {
    let alloc = rt.alloc();
    assert_eq!(rt; goes_on(alloc, b"/a/.*b?", b"/a/c"), Some((true, false)));
    assert_eq!(rt; goes_on(alloc, b"/a", b"/b"), Some((false, true)));
}

// More than 63 states may be gone over as operations.
#[test]
fn texts_of_many_states(rt: HostRuntime) {
    let alloc = rt.alloc();
    let text = b"abaaaaaaaaaaaaaaaaaaaaaaaaaaaaaaaaaaaaaaabx";
    assert_eq!(rt; held(alloc, b"(ab?){40}x", text), Some(true));
    assert_eq!(rt; held(alloc, b"(ab?){39}x", text), Some(false));
    assert_eq!(rt; held(alloc, b"(ab?){40}", &[b'a'; 40]), Some(true));
    assert_eq!(rt; held(alloc, b"(ab?){40}", &[b'a'; 41]), Some(false));
    assert_eq!(rt; held(alloc, b"(ab?){40}x", &[b'a'; 40]), Some(false));
}

#[test]
fn whatever_follows_many_states(rt: HostRuntime) {
    let alloc = rt.alloc();
    assert_eq!(rt;
        goes_on(alloc, b"a{70}.*", &[b'a'; 69]),
        Some((false, false))
    );
    assert_eq!(rt;
        goes_on(alloc, b"a{70}.*", &[b'a'; 70]),
        Some((true, false))
    );
    assert_eq!(rt; goes_on(alloc, b"a{70}.*", &[b'a'; 71]), Some((true, true)));
}

#[test]
fn states_of_a_text(rt: HostRuntime) -> Result<(), Fail> {
    let alloc = rt.alloc();
    let Ok(pattern) = Pattern::read(alloc, b"/ab?") else {
        panic!(rt; "a pattern")
    };
    let tables = PatternTables::new(alloc, &pattern)?;
    let matcher = Matcher::new(&pattern, &tables);
    let mut states = matcher.states(alloc)?;
    let mut kept = matcher.states(alloc)?;
    matcher.step(&mut states, b'/');
    assert!(rt; matcher.alive(&states));
    assert!(rt; !matcher.accepts(&states));
    matcher.step(&mut states, b'a');
    assert!(rt; matcher.accepts(&states));
    matcher.copy_states(&states, &mut kept);
    matcher.step(&mut states, b'c');
    assert!(rt; !matcher.alive(&states));
    assert!(rt; matcher.accepts(&kept));
    matcher.restart(&mut kept);
    assert!(rt; !matcher.accepts(&kept));
    every_cut_is_membership();
    quotients_show_what_is_below();
    Ok(())
}
