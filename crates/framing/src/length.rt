//! Length values: how headers write a number of bytes. (RFC 9112, section 6.2.)
ghost use Rattle.std.specs.Prelude.{◌≡◌};
ghost use Rattle.std.specs.Char.{is_ascii_digit};
ghost use Rattle.std.specs.List.{list_all};
ghost use Rattle.framing.specs.Length as spec;

/// Returns the number that a length value writes, or `None` for any other text. A length value is `0` or one to ten
/// digits without a leading zero.
pub fn length_value(text: &[u8]) -> Option<usize>
    ensures { result ≡ spec.length_value text.now }
{
    if !is_length(text) {
        return None;
    }
    let mut n = 0;
    for digit in text {
        n = n * 10 + (*digit - b'0') as usize;
    }
    Some(n)
}

/// Whether a text is a length value.
fn is_length(text: &[u8]) -> bool
    ensures { result ≡ spec.is_length text.now }
{
    if text.is_empty() || text.len() > 10 {
        return false;
    }
    if text.len() > 1 && text[0] == b'0' {
        return false;
    }
    are_digits(text)
}

fn are_digits(text: &[u8]) -> bool
    ensures { result ≡ list_all is_ascii_digit text.now }
{
    text.iter().all(|c| c.is_ascii_digit())
}
