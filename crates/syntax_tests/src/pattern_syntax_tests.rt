ghost use Rattle.std.specs.Prelude.{◌<◌, ◌^◌, length};

use label_base::Bytes;
use pattern_syntax::{ByteSet, Node, Pattern, PatternFault, PatternWhy, is_exact};
use std::alloc::Global;
use std::test::Fail;

fn fault_in(alloc: Global, text: &[u8]) -> Option<PatternWhy>
    requires { length text.now < 2 ^ 32 }
{
    match Pattern::read(alloc, text) {
        Ok(_) => None,
        Err(fault) => fault.why(),
    }
}

fn start_of(alloc: Global, text: &[u8]) -> Result<Bytes, PatternFault>
    requires { length text.now < 2 ^ 32 }
{
    let pattern = Pattern::read(alloc, text)?;
    Ok(pattern.literal_start(alloc)?)
}

#[test]
fn repeats_and_groups_are_refused_where_they_stand(rt: HostRuntime) {
    let a = rt.alloc();
    assert_eq!(rt; fault_in(a, b"a**"), Some(PatternWhy::Syntax { at: 2 }));
    assert_eq!(rt;
        fault_in(a, b"x*+"),
        Some(PatternWhy::UnsupportedPattern { at: 1 })
    );
    assert_eq!(rt; fault_in(a, b"(a"), Some(PatternWhy::Syntax { at: 2 }));
    assert_eq!(rt; fault_in(a, b"a)"), Some(PatternWhy::Syntax { at: 1 }));
    assert_eq!(rt; fault_in(a, b"a{2,1}+"), Some(PatternWhy::Syntax { at: 1 }));
}

#[test]
fn what_is_not_of_the_dialect_is_refused_where_it_stands(rt: HostRuntime) {
    let a = rt.alloc();
    assert_eq!(rt;
        fault_in(a, b"a$b"),
        Some(PatternWhy::UnsupportedPattern { at: 1 })
    );
    assert_eq!(rt;
        fault_in(a, b"\\b"),
        Some(PatternWhy::UnsupportedPattern { at: 0 })
    );
    assert_eq!(rt;
        fault_in(a, b"[[:word:]]"),
        Some(PatternWhy::UnsupportedPattern { at: 0 })
    );
    assert_eq!(rt;
        fault_in(a, b"[b-a\\q]"),
        Some(PatternWhy::Syntax { at: 0 })
    );
}

#[test]
fn limits_are_met_exactly(rt: HostRuntime) {
    let a = rt.alloc();
    assert_eq!(rt; fault_in(a, b".{2000}"), None);
    assert_eq!(rt; fault_in(a, b".{2001}"), Some(PatternWhy::TooManyPositions));
    assert_eq!(rt; fault_in(a, b"(.{3000}){0}"), None);
    assert_eq!(rt; fault_in(a, &[b'a'; 2000]), None);
    assert_eq!(rt;
        fault_in(a, &[b'a'; 2001]),
        Some(PatternWhy::TooManyPositions)
    );
    assert_eq!(rt;
        fault_in(a, &[b'('; 51]),
        Some(PatternWhy::TooDeep { at: 50 })
    );
    assert_eq!(rt;
        fault_in(a, &[b'('; 50]),
        Some(PatternWhy::Syntax { at: 50 })
    );
}

#[test]
fn positions_are_those_of_the_whole_pattern(rt: HostRuntime) {
    let a = rt.alloc();
    assert_eq!(rt; fault_in(a, b"(.{50}){40}"), None);
    assert_eq!(rt;
        fault_in(a, b"(.{50}){41}"),
        Some(PatternWhy::TooManyPositions)
    );
    assert_eq!(rt;
        fault_in(a, b".{2001}a)"),
        Some(PatternWhy::Syntax { at: 8 })
    );
    assert_eq!(rt;
        fault_in(
            a,
            b"((((((((((((((((((((((((((((((((((((((((((((((((((a)))))))))))))))))))))))))))))))))\
                )))))))))))))))))"
        ),
        None
    );
}

#[test]
fn nodes_stand_behind_their_parts(rt: HostRuntime) -> Result<(), Fail> {
    let pattern = Pattern::read(rt.alloc(), b"^a(b|c)?$")?;
    pattern.has_no_empty_set();
    let wanted = [
        Node::Nothing,
        Node::Byte(b'b'),
        Node::Both,
        Node::Nothing,
        Node::Byte(b'c'),
        Node::Both,
        Node::Either,
        Node::Repeat {
            least: 0,
            most: Some(1),
        },
        Node::Both,
    ];
    assert_eq!(rt; pattern.start(), b"a".as_slice());
    assert_eq!(rt; pattern.rest(rt.alloc())?.as_slice(), wanted.as_slice());
    Ok(())
}

// What is read without a builder is what a builder gives.
#[test]
fn nodes_of_all_that_lies_below(rt: HostRuntime) -> Result<(), Fail> {
    let a = rt.alloc();
    let short = Pattern::read(a, b"/a(/.*)?")?;
    let built = Pattern::read(a, b"/[a](/.*)?")?;
    assert_eq!(rt; short.start(), b"/a".as_slice());
    assert_eq!(rt; built.start(), b"/a".as_slice());
    assert!(rt; !short.is_start_alone());
    assert_eq!(rt; short.rest(a)?.as_slice(), built.rest(a)?.as_slice());
    let most = [[b'a'; 1992].as_slice(), b"aaaaaa(/.*)?"].concat(a)?;
    assert_eq!(rt; fault_in(a, most.as_slice()), None);
    let more = [[b'a'; 1993].as_slice(), b"aaaaaa(/.*)?"].concat(a)?;
    assert_eq!(rt;
        fault_in(a, more.as_slice()),
        Some(PatternWhy::TooManyPositions)
    );
    Ok(())
}

#[test]
fn a_repeat_takes_its_byte_from_the_start(rt: HostRuntime) -> Result<(), Fail> {
    let pattern = Pattern::read(rt.alloc(), b"/a\\.bc*d")?;
    let wanted = [
        Node::Byte(b'c'),
        Node::Repeat {
            least: 0,
            most: None,
        },
        Node::Both,
        Node::Byte(b'd'),
        Node::Both,
    ];
    assert_eq!(rt; pattern.text(), b"/a\\.bc*d".as_slice());
    assert_eq!(rt; pattern.start(), b"/a.b".as_slice());
    assert_eq!(rt; pattern.rest(rt.alloc())?.as_slice(), wanted.as_slice());
    Ok(())
}

#[test]
fn a_bar_outside_of_groups_leaves_no_start(rt: HostRuntime) -> Result<(), Fail> {
    let pattern = Pattern::read(rt.alloc(), b"a|b")?;
    let wanted = [
        Node::Byte(b'a'),
        Node::Both,
        Node::Nothing,
        Node::Byte(b'b'),
        Node::Both,
        Node::Either,
    ];
    assert!(rt; pattern.start().is_empty());
    assert_eq!(rt; pattern.rest(rt.alloc())?.as_slice(), wanted.as_slice());
    Ok(())
}

#[test]
fn brackets_hold_their_bytes(rt: HostRuntime) -> Result<(), Fail> {
    let pattern = Pattern::read(rt.alloc(), b"[]a-c[:digit:]]")?;
    let set = ByteSet::empty()
        .with(b']')
        .with_range(b'a', b'c')
        .with_range(b'0', b'9');
    let wanted = [Node::Set(set), Node::Both];
    assert_eq!(rt; pattern.rest(rt.alloc())?.as_slice(), wanted.as_slice());
    Ok(())
}

#[test]
fn sets_are_built(rt: HostRuntime) {
    let set = ByteSet::empty().with(b'x');
    assert_eq!(rt; set.only(), Some(b'x'));
    assert!(rt; set.union(&ByteSet::empty()).has(b'x'));
    assert!(rt; !set.complement().has(b'x'));
    assert!(rt; ByteSet::empty().is_empty());
}

#[test]
fn literal_starts_end_at_the_first_other_piece(rt: HostRuntime) -> Result<(), Fail> {
    let a = rt.alloc();
    assert_eq!(rt;
        start_of(a, b"/usr/lib(64)?(/.*)?")?.as_slice(),
        b"/usr/lib".as_slice()
    );
    assert_eq!(rt; start_of(a, b"[a]b")?.as_slice(), b"ab".as_slice());
    assert_eq!(rt; start_of(a, b"(a)b")?.as_slice(), b"".as_slice());
    assert_eq!(rt; start_of(a, b"ab|ac")?.as_slice(), b"".as_slice());
    let exact = Pattern::read(a, b"/etc/shadow")?;
    assert_eq!(rt; exact.start(), b"/etc/shadow".as_slice());
    assert!(rt; exact.rest(a)?.is_empty());
    assert!(rt; exact.is_start_alone());
    assert!(rt; !Pattern::read(a, b"/etc/.")?.is_start_alone());
    Ok(())
}

#[test]
fn texts_are_exact_without_metacharacters(rt: HostRuntime) {
    Pattern::follows_grammar(b"/a");
    assert!(rt; is_exact(b"/a\\d"));
    assert!(rt; is_exact(b"/a\\."));
    assert!(rt; !is_exact(b"^/a$"));
    assert!(rt; !is_exact(b"/a.b"));
}
