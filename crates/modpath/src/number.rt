//! Numbers in decimal without leading zeros.

ghost use Rattle.std.specs.Prelude.{◌≡◌, ◌+◌, ◌-◌, ◌*◌, ◌^◌, ◌<◌, ◌≤◌, IfNone, IfSome};
ghost use Rattle.modpath.specs.Path as Spec;

/// Returns `value` with one more decimal digit, or `None` if that has more than 64 bits.
fn next_value(value: u64, digit: u8) -> Option<u64>
    requires { 48 ≤ digit }
    ensures none { IfNone result (2 ^ 64 ≤ value * 10 + (digit - 48)) }
    ensures some { IfSome result (λ sum. (sum ≡ value * 10 + (digit - 48)) × (sum < 2 ^ 64)) }
{
    let tens = value.checked_mul(10)?;
    tens.checked_add(u64::from(digit - b'0'))
}

/// Returns the number that `digits` writes in decimal. It returns `None` if `digits` is empty, has a
/// byte that is not a digit or a leading zero before another digit, or writes more than 64 bits.
pub fn number_of(digits: &[u8]) -> Option<u64>
    ensures { result ≡ Spec.number_of digits.now }
{
    if digits.is_empty() || digits[0] == b'0' && digits.len() > 1 {
        return None;
    }
    let mut value = 0;
    for digit in digits {
        if !digit.is_ascii_digit() {
            return None;
        }
        value = match next_value(value, *digit) {
            Some(sum) => sum,
            None => return None,
        };
    }
    Some(value)
}
