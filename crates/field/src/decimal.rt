ghost use Rattle.std.specs.Prelude.{◌≡◌, ◌^◌, [], ◌∷◌};
ghost use Rattle.field.specs.Decimals.{digits_behind, number_below};

// The value of the digit behind digits of the value.
fn push_digit(value: u64, digit: u8) -> Option<u64>
    ensures { result ≡ digits_behind (2 ^ 64) value (digit ∷ []) }
{
    let digit = char::from(digit).to_digit(10)?;
    value.checked_mul(10)?.checked_add(u64::from(digit))
}

fn all_digits(text: &[u8]) -> Option<u64>
    ensures { result ≡ digits_behind (2 ^ 64) 0 text.now }
{
    let mut value = 0;
    for digit in text {
        value = push_digit(value, *digit)?;
    }
    Some(value)
}

// The number that the text is in decimal, without a leading zero; nothing where it is none, or too large. Not `parse`, which takes a sign
// and leading zeros.
pub fn number(text: &[u8]) -> Option<u64>
    ensures { result ≡ number_below (2 ^ 64) text.now }
{
    match text {
        [] | [b'0', _, ..] => None,
        _ => all_digits(text),
    }
}
