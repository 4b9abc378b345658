use label_base::EntryKind;

fn agree(kind: EntryKind, letter: u8, field: &[u8], name: &str) -> bool {
    EntryKind::of_letter(letter) == Some(kind)
        && EntryKind::of_type_field(field) == Some(kind)
        && kind.type_field() == field
        && EntryKind::of_class_name(name) == Some(kind)
        && kind.class_name() == name
}

#[test]
fn a_kind_has_a_letter_and_two_names(rt: HostRuntime) {
    assert!(rt; agree(EntryKind::Regular, b'f', b"--", "file"));
    assert!(rt; agree(EntryKind::Link, b'l', b"-l", "lnk_file"));
}

#[test]
fn another_kind_has_letters_alone(rt: HostRuntime) {
    assert_eq!(rt; EntryKind::of_letter(b'U'), Some(EntryKind::Other));
    assert_eq!(rt; EntryKind::of_type_field(b""), None);
    assert_eq!(rt; EntryKind::of_class_name("fifo_file"), None);
}

#[test]
fn a_kind_has_a_number(rt: HostRuntime) {
    assert_eq!(rt; EntryKind::Char.number(), 6);
    assert!(rt; !EntryKind::Pipe.is_same(EntryKind::Socket));
}
