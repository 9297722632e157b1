//! Decimal numbers.

ghost use Rattle.std.specs.Prelude.{◌≡◌, ◌<◌, ◌≤◌, ◌^◌, take, drop, length, IfSome};
ghost use Rattle.std.specs.Char.{is_ascii_digit};
ghost use Rattle.std.specs.List.{prefix_len};
ghost use Rattle.text_lines.specs.Number.{decimal_number};

/// The number that decimal digits write, at least one and at most `most_digits` of them. Condition: at most 19.
pub fn decimal_number(most_digits: usize, word: &[u8]) -> Option<u64>
    requires { most_digits ≤ 19 }
    ensures exact { result ≡ decimal_number most_digits word.now }
    ensures below { IfSome result (λ number. number < 10 ^ most_digits) }
{
    if word.is_empty() || word.len() > most_digits {
        return None;
    }
    let mut number = 0u64;
    for byte in word {
        if !byte.is_ascii_digit() {
            return None;
        }
        number = number * 10 + u64::from(byte - b'0');
    }
    Some(number)
}

/// The number of digits at the front.
fn digit_count(text: &[u8]) -> usize
    ensures count { result ≡ prefix_len is_ascii_digit text.now }
    ensures inside { result ≤ length text.now }
{
    text.iter().take_while(|byte| byte.is_ascii_digit()).count()
}

/// The digits at the front of a text, and what follows them.
pub fn split_digits(text: &[u8]) -> (&[u8], &[u8])
    ensures digits { result.0.now ≡ take (prefix_len is_ascii_digit text.now) text.now }
    ensures rest { result.1.now ≡ drop (prefix_len is_ascii_digit text.now) text.now }
{
    text.split_at(digit_count(text))
}
