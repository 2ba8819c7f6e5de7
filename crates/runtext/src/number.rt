// Numbers as a text writes them.
ghost use Rattle.std.specs.Prelude.{◌≡◌, ◌<◌, ◌≤◌, length, IfSome};
ghost use Rattle.runtext.specs.Numerals.{sized, digits_read, numeral_read, number_read, Small};

// Whether there are one to five bytes, and no leading zero unless it stands alone.
fn is_sized(digits: &[u8]) -> bool
    ensures { result ≡ sized digits.now }
{
    digits.len() == 1 || (1 < digits.len() && digits.len() <= 5 && digits[0] != b'0')
}

// The number that at most five digits write.
fn digits_value(digits: &[u8]) -> Option<u32>
    requires { length digits.now ≤ 5 }
    ensures is { result ≡ digits_read 0 digits.now }
    ensures small { IfSome result (λ n. n < 100000) }
{
    let mut n: u32 = 0;
    for b in digits {
        if !b.is_ascii_digit() {
            return None;
        }
        n = 10 * n + (*b - b'0') as u32;
    }
    Some(n)
}

// The number that a numeral writes.
fn numeral(digits: &[u8]) -> Option<u32>
    ensures is { result ≡ numeral_read digits.now }
    ensures small { IfSome result (λ n. n < 100000) }
{
    if is_sized(digits) {
        digits_value(digits)
    } else {
        None
    }
}

// The number that the bytes write: a numeral, or a minus and a numeral that is not 0.
pub(crate) fn number(bytes: &[u8]) -> Option<i32>
    ensures is { result ≡ number_read bytes.now }
    ensures small { Small result }
{
    match bytes.strip_prefix(b"-") {
        Some(digits) => match numeral(digits)? {
            0 => None,
            n => Some(-(n as i32)),
        },
        None => Some(numeral(bytes)? as i32),
    }
}
