// Numbers of JSON, by their digits.
ghost use Rattle.std.specs.Prelude.{◌≡◌, ◌<◌, ◌==◌, IsTrue, length, None, option_map, slice_index, Some, true, false, if◌then◌else◌};
ghost use Rattle.std.specs.Char.{is_ascii_digit};
ghost use Rattle.std.specs.List.{list_all};
ghost use Rattle.std.specs.Str.Parse.{digits_value};
ghost use Rattle.serde_json.specs.Find.{as_u64};
ghost use Rattle.serde_json.specs.Read.{float_of, number_from, number_of};
ghost use Rattle.json_bodies.specs.Fields.{is_number_text};

use fast_float::Numeral;

// The most digits of a number's text: each number of so many is below 2^64.
const MAX_DIGITS: usize = 19;

// The whole number below 2^64 that a number of JSON is, or that it is another one. None is too large for `serde_json`.
pub(crate) fn whole_number(text: &str) -> Option<Option<u64>>
    ensures { result ≡ option_map as_u64 (number_of text.now) }
{
    let bytes = text.as_bytes();
    if has_minus(bytes) {
        negative(&Numeral::scan(&bytes[1..]))
    } else {
        unsigned(&Numeral::scan(bytes))
    }
}

fn has_minus(bytes: &[u8]) -> bool
    ensures value { result ≡ (slice_index bytes.now 0 == 45) }
    ensures some { IsTrue result → 0 < length bytes.now }
{
    !bytes.is_empty() && bytes[0] == b'-'
}

fn unsigned(numeral: &Numeral<'_>) -> Option<Option<u64>>
    ensures { result ≡ option_map as_u64 (number_from false numeral.now) }
{
    match numeral.to_u64() {
        Some(number) => Some(Some(number)),
        None => other(false, numeral),
    }
}

fn negative(numeral: &Numeral<'_>) -> Option<Option<u64>>
    ensures { result ≡ option_map as_u64 (number_from true numeral.now) }
{
    if let Some(number) = numeral.to_i64(true) {
        if number < 0 {
            return Some(None);
        }
    }
    other(true, numeral)
}

// A number that is kept as a float, where it is finite.
fn other(negative: bool, numeral: &Numeral<'_>) -> Option<Option<u64>>
    ensures { result ≡ option_map as_u64 (float_of negative numeral.now) }
{
    if numeral.to_float::<f64>(negative).is_finite() {
        Some(None)
    } else {
        None
    }
}

// The number that a text writes, in 1 to 19 digits.
pub(crate) fn number_of_text(text: &str) -> Option<u64>
    ensures { result ≡ (if is_number_text text.now then Some (digits_value 10 text.now) else None) }
{
    if is_number_text(text) {
        text.parse().ok()
    } else {
        None
    }
}

fn is_number_text(text: &str) -> bool
    ensures { result ≡ is_number_text text.now }
{
    0 < text.len() && text.len() <= MAX_DIGITS && are_digits(text.as_bytes())
}

fn are_digits(bytes: &[u8]) -> bool
    ensures { result ≡ list_all is_ascii_digit bytes.now }
{
    bytes.iter().all(|byte| byte.is_ascii_digit())
}
