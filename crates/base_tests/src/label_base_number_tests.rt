ghost use Rattle.std.specs.Prelude.{◌-◌};

use label_base::read_number;

#[test]
fn numbers_have_at_most_64_bits(rt: HostRuntime) {
    assert_eq!(rt; read_number(b"007"), Some(7));
    assert_eq!(rt; read_number(b"18446744073709551615"), Some(u64::MAX));
    for text in [b"".as_slice(), b"1a", b"-1", b"18446744073709551616"] {
        assert_eq!(rt; read_number(text), None);
    }
}
