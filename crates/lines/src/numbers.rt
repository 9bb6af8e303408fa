// Numbers in base ten.
ghost use Rattle.std.specs.Prelude.{◌≡◌, ◌&&◌, if◌then◌else◌, Some, None, nat_le};
ghost use Rattle.lines.specs.Numbers.{most, is_digit, longer, digits_from, number_in};

// The number with one digit more, where the byte is a digit and the number still a 64-bit one.
fn append(n: u64, byte: u8) -> Option<u64>
    ensures { result ≡ (if is_digit byte && nat_le (longer n byte) most then Some (longer n byte) else None) }
{
    let digit = char::from(byte).to_digit(10)?;
    n.checked_mul(10)?.checked_add(u64::from(digit))
}

fn digits(field: &[u8]) -> Option<u64>
    ensures { result ≡ digits_from 0 field.now }
{
    let mut n = 0;
    for byte in field {
        n = append(n, *byte)?;
    }
    Some(n)
}

// The number that a field holds, if it holds one.
pub fn number(field: &[u8]) -> Option<u64>
    ensures { result ≡ number_in field.now }
{
    match field {
        [] => None,
        [b'0'] => Some(0),
        [b'0', ..] => None,
        _ => digits(field),
    }
}
