//! The numbers that words write.
ghost use Rattle.arc_base.specs.WordNumbers.{natural, number, with_digit};
ghost use Rattle.std.specs.Char.{is_ascii_digit};
ghost use Rattle.std.specs.Prelude.{◌≡◌, ◌<◌, ◌≤◌, ◌^◌, ◌&&◌, nat_le, if◌then◌else◌, IfSome};
ghost use Rattle.std.specs.Prelude.{unsigned_abs};

/// The number with one more digit, or `None` where the byte is no digit or the number is then above
/// the limit.
fn with_digit(value: u64, byte: u8, limit: u64) -> Option<u64>
    requires { limit < 2 ^ 63 }
    ensures { result ≡ (if is_ascii_digit byte && nat_le (with_digit value byte) limit
        then Some (with_digit value byte) else None) }
{
    if !byte.is_ascii_digit() || value > limit / 10 {
        return None;
    }
    let value = 10 * value + u64::from(byte - b'0');
    if value <= limit { Some(value) } else { None }
}

/// The number that a word of decimal digits writes, or `None` if the word is no such number or the
/// number is above the limit. Leading zeros are allowed.
pub fn natural(word: &[u8], limit: u64) -> Option<u64>
    requires { limit < 2 ^ 63 }
    ensures { result ≡ natural limit word.now }
{
    if word.is_empty() {
        return None;
    }
    let mut value = 0;
    for byte in word {
        value = with_digit(value, *byte, limit)?;
    }
    Some(value)
}

/// The whole number that a word writes, decimal digits with or without a minus sign, or `None`
/// where the word is no such number or its absolute value is above the limit. Minus zero is no
/// number.
pub fn number(word: &[u8], limit: u64) -> Option<i64>
    requires { limit < 2 ^ 63 }
    ensures number { result ≡ number limit word.now }
    ensures limit { IfSome result (λ z. unsigned_abs z ≤ limit) }
{
    match word {
        [b'-', digits @ ..] => match natural(digits, limit)? {
            0 => None,
            value => Some(-(value as i64)),
        },
        _ => Some(natural(word, limit)? as i64),
    }
}
