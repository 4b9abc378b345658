ghost use Rattle.std.specs.Prelude.{◌≡◌, ◌*◌, ◌-◌};
ghost use Rattle.label_base.specs.Number.{digit_of, number_of, with_digit};

fn digit(b: u8) -> Option<u64>
    ensures { result ≡ digit_of b }
{
    if b >= b'0' && b <= b'9' {
        Some(u64::from(b - b'0'))
    } else {
        None
    }
}

// The value with one digit more.
fn longer(value: u64, b: u8) -> Option<u64>
    ensures { result ≡ with_digit value (digit_of b) }
{
    let digit = digit(b)?;
    value.checked_mul(10)?.checked_add(digit)
}

/// The number that one or more decimal digits stand for. There is none exactly where there is no
/// byte, a byte that isn't a digit, or a value above 18,446,744,073,709,551,615.
#[tactic(auto, using(crate::proofs::NumberLemmas::fold_is_number))]
pub fn read_number(bytes: &[u8]) -> Option<u64>
    ensures { result ≡ number_of bytes.now }
{
    if bytes.is_empty() {
        return None;
    }
    let mut value = 0;
    for b in bytes {
        value = longer(value, *b)?;
    }
    Some(value)
}
