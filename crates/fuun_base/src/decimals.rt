//! Numbers written in decimal.
ghost use Rattle.std.specs.Prelude.{◌≡◌, ◌+◌, ◌≤◌, IfSome, IsTrue, min};
ghost use Rattle.std.specs.List.{list_all};
ghost use Rattle.std.specs.Str.Parse.{digits_value};
ghost use Rattle.fuun_base.specs.Decimals.{is_digit, number_up_to};

/// The number that a text of one or more decimal digits alone writes, where it is at most `most`.
pub fn decimal(text: &[u8], most: u64) -> Option<u64>
    ensures read { result ≡ number_up_to most text.now }
    ensures within { IfSome result (λ value. value ≤ most) }
{
    if text.len() == 0 || !has_digits_alone(text) {
        return None;
    }
    let value = value_up_to(text, most);
    if value <= u128::from(most) {
        Some(value as u64)
    } else {
        None
    }
}

/// Whether a byte is a decimal digit.
pub fn is_digit(byte: u8) -> bool
    ensures { result ≡ is_digit byte }
{
    byte.is_ascii_digit()
}

fn has_digits_alone(text: &[u8]) -> bool
    ensures { result ≡ list_all is_digit text.now }
{
    text.iter().all(|byte| byte.is_ascii_digit())
}

// The number that digits write, or the first above the greatest where it is above.
fn value_up_to(digits: &[u8], most: u64) -> u128
    requires { IsTrue (list_all is_digit digits.now) }
    ensures { result ≡ min (digits_value 10 digits.now) (most + 1) }
{
    let above = u128::from(most) + 1;
    let mut value = 0;
    for digit in digits {
        value = (value * 10 + u128::from(*digit - b'0')).min(above);
    }
    value
}
