ghost use Rattle.pattern_syntax.specs.Language.{holds};
ghost use Rattle.std.specs.Prelude.{◌<◌, true};

use pattern_match::{States, accepts_text, is_one_text, is_text_alive, stays_text, step_text};
use pattern_syntax::Pattern;
use std::alloc::Global;
use std::test::Fail;

// Whether the pattern is alive behind a slash, and behind a byte more, and whether it then
// holds what was read.
fn read_on(alloc: Global, pattern: &Pattern, byte: u8) -> Option<(bool, bool, bool)> {
    if !is_one_text(pattern) {
        return None;
    }
    let mut states = States::with_room(alloc, 0).ok()?;
    states.restart_text();
    step_text(pattern, &mut states, b'/');
    let first = is_text_alive(pattern, &states);
    step_text(pattern, &mut states, byte);
    Some((
        first,
        is_text_alive(pattern, &states),
        accepts_text(pattern, &states),
    ))
}

#[test]
fn one_text_byte_by_byte(rt: HostRuntime) -> Result<(), Fail> {
    let pattern = Pattern::read(rt.alloc(), b"/a")?;
    assert_eq!(rt;
        read_on(rt.alloc(), &pattern, b'a'),
        Some((true, true, true))
    );
    assert_eq!(rt;
        read_on(rt.alloc(), &pattern, b'b'),
        Some((true, false, false))
    );
    Ok(())
}

// Whether the states stay before the first byte, and behind one.
fn stay_behind(alloc: Global, pattern: &Pattern, byte: u8) -> Option<(bool, bool)> {
    if !is_one_text(pattern) {
        return None;
    }
    let mut states = States::with_room(alloc, 0).ok()?;
    states.restart_text();
    let first = stays_text(pattern, &states);
    step_text(pattern, &mut states, byte);
    Some((first, stays_text(pattern, &states)))
}

#[test]
fn one_text_behind_another_byte(rt: HostRuntime) -> Result<(), Fail> {
    let pattern = Pattern::read(rt.alloc(), b"/a")?;
    assert_eq!(rt;
        stay_behind(rt.alloc(), &pattern, b'b'),
        Some((false, true))
    );
    Ok(())
}

#[test]
fn states_that_are_kept(rt: HostRuntime) -> Result<(), Fail> {
    let mut states = States::with_room(rt.alloc(), 1)?;
    states.set(3, &[5]);
    assert_eq!(rt; states.seen(), 3);
    assert_eq!(rt; states.marks(), [5].as_slice());
    Ok(())
}

#[test]
fn patterns_of_one_text(rt: HostRuntime) -> Result<(), Fail> {
    for (given, want) in [
        ("/usr/lib\\.so", true),
        ("/usr/lib.so", false),
        ("/a|/b", false),
    ] {
        let pattern = Pattern::read(rt.alloc(), given.as_bytes())?;
        assert_eq!(rt; is_one_text(&pattern), want, "at {given}");
    }
    Ok(())
}
