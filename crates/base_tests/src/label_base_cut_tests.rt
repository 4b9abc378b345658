ghost use Rattle.label_base.specs.Cut.{front, behind};

use label_base::{cut_at, cut_at_blank, cuts_follow_grammar, next_field, next_line};

#[test]
fn a_text_is_cut_into_lines_and_fields(rt: HostRuntime) {
    let text = b"a \t b\n\nc".as_slice();
    cuts_follow_grammar(text);
    let (line, rest) = next_line(text).expect(&rt, "a first line");
    assert_eq!(rt; rest, b"\nc".as_slice());
    let (first, left) = next_field(Some(line)).expect(&rt, "a first field");
    assert_eq!(rt; first, b"a".as_slice());
    let (second, left) = next_field(left).expect(&rt, "a second field");
    assert_eq!(rt; second, b"b".as_slice());
    assert!(rt; next_field(left).is_none());
    let (front, behind) = cut_at(b'c', rest);
    assert_eq!(rt; front, b"\n".as_slice());
    assert_eq!(rt; behind.map(|b| b.len()), Some(0));
    assert_eq!(rt; cut_at_blank(line).0, b"a".as_slice());
}
