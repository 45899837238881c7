//! Numbers in texts.
ghost use Rattle.std.specs.Prelude.{◌≡◌, ◌<◌, ◌≤◌, ◌^◌, IfSome};
ghost use Rattle.std.specs.Char.{digit_value};
ghost use Rattle.brl_lines.specs.Numbers.{lenient_number};

/// The value of a digit in any radix to 36, and 36 for any other byte.
fn digit_of(byte: u8) -> u64
    ensures { result ≡ digit_value byte }
{
    match byte {
        b'0'..=b'9' => (byte - b'0') as u64,
        b'A'..=b'Z' => (byte - b'A') as u64 + 10,
        b'a'..=b'z' => (byte - b'a') as u64 + 10,
        _ => 36,
    }
}

/// The number that digits spell in this radix, if it is at most `greatest`. Leading zeros and
/// capital letters are allowed. None for no digits, and for another byte among them.
pub fn read_number(field: &[u8], radix: u64, greatest: u64) -> Option<u64>
    requires radix_from { 1 ≤ radix }
    requires radix_to { radix ≤ 16 }
    requires greatest { greatest < 2 ^ 32 }
    ensures number { result ≡ lenient_number radix greatest field.now }
    ensures limited { IfSome result (λ number. number ≤ greatest) }
{
    if field.is_empty() {
        return None;
    }
    let mut value = 0u64;
    for byte in field {
        let digit = digit_of(*byte);
        if digit >= radix {
            return None;
        }
        value = value * radix + digit;
        if value > greatest {
            return None;
        }
    }
    Some(value)
}
