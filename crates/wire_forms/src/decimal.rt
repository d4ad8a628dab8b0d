// Numbers of a few decimal digits.
ghost use Rattle.std.specs.Prelude.{◌≡◌, ◌-◌, ◌^◌, ◌<◌, ◌≤◌, IfSome, IsTrue, length, min};
ghost use Rattle.std.specs.Char.{is_ascii_digit};
ghost use Rattle.std.specs.List.{list_all};
ghost use Rattle.std.specs.Str.Parse.{digits_value};
ghost use Rattle.wire_forms.specs.Digits.{are_digits, number_of};

/// The number of 1 to `most` decimal digits. Leading zeros are allowed, a sign isn't.
pub fn read_digits(text: &str, most: usize) -> Option<u64>
    requires { most ≤ 19 }
    ensures { result ≡ number_of most text.now }
{
    digits_of(text.as_bytes(), most)
}

/// The same of bytes.
pub fn digits_of(bytes: &[u8], most: usize) -> Option<u64>
    requires { most ≤ 19 }
    ensures number { result ≡ number_of most bytes.now }
    ensures small { IfSome result (λ number. number < 10 ^ length bytes.now) }
{
    if are_digits(bytes, most) {
        Some(value_of(bytes))
    } else {
        None
    }
}

fn are_digits(bytes: &[u8], most: usize) -> bool
    ensures { result ≡ are_digits most bytes.now }
{
    1 <= bytes.len() && bytes.len() <= most && all_digits(bytes)
}

fn all_digits(bytes: &[u8]) -> bool
    ensures { result ≡ list_all is_ascii_digit bytes.now }
{
    bytes.iter().all(|byte| byte.is_ascii_digit())
}

// The number that the digits write, or the largest where it is larger.
fn value_of(digits: &[u8]) -> u64
    requires { IsTrue (list_all is_ascii_digit digits.now) }
    ensures { result ≡ min (digits_value 10 digits.now) (2 ^ 64 - 1) }
{
    let mut value: u64 = 0;
    for digit in digits {
        value = value
            .saturating_mul(10)
            .saturating_add(value_of_digit(*digit));
    }
    value
}

fn value_of_digit(digit: u8) -> u64
    ensures { result ≡ digit - 48 }
{
    u64::from(digit.saturating_sub(b'0'))
}
