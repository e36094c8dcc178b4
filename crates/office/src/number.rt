ghost use Rattle.std.specs.Prelude.{◌≡◌};
ghost use Rattle.office.specs.Numbers.{digit_added, number_in};

// The number with one decimal digit more, while it fits 32 bits.
fn with_digit(number: u32, byte: u8) -> Option<u32>
    ensures { result ≡ digit_added number byte }
{
    if !byte.is_ascii_digit() {
        return None;
    }
    number.checked_mul(10)?.checked_add(u32::from(byte - b'0'))
}

// The number that decimal digits write, if there is a digit and the number fits 32 bits.
pub fn read_number(digits: &[u8]) -> Option<u32>
    ensures { result ≡ number_in digits.now }
{
    if digits.is_empty() {
        return None;
    }
    let mut number = 0;
    // As a try_fold it got no proof by search, and the chain would be no shorter.
    for byte in digits {
        number = with_digit(number, *byte)?;
    }
    Some(number)
}
