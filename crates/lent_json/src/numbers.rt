//! The numbers that texts of numbers are.
ghost use Rattle.std.specs.Prelude.{◌≡◌, ◌<◌, ◌==◌, true, false, length, IsTrue, is_some, option_and_then, slice_index};
ghost use Rattle.serde_json.specs.Find.{as_u64};
ghost use Rattle.serde_json.specs.Read.{number_of, number_from, float_of};

use fast_float::Numeral;

// Whether the float nearest to a numeral is one, and not infinite.
fn is_float(is_negative: bool, numeral: &Numeral<'_>) -> bool
    ensures { result ≡ is_some (float_of is_negative numeral.now) }
{
    numeral.to_float::<f64>(is_negative).is_finite()
}

// Whether a numeral without a minus is a number.
fn is_positive(numeral: &Numeral<'_>) -> bool
    ensures { result ≡ is_some (number_from false numeral.now) }
{
    numeral.to_u64().is_some() || is_float(false, numeral)
}

// Whether a numeral behind a minus is a number.
fn is_negative(numeral: &Numeral<'_>) -> bool
    ensures { result ≡ is_some (number_from true numeral.now) }
{
    match numeral.to_i64(true) {
        Some(number) if number < 0 => true,
        _ => is_float(true, numeral),
    }
}

fn has_minus(bytes: &[u8]) -> bool
    ensures value { result ≡ (slice_index bytes.now 0 == 45) }
    ensures some { IsTrue result → 0 < length bytes.now }
{
    !bytes.is_empty() && bytes[0] == b'-'
}

/// Whether the text of a number is one, and not too large for a float.
pub(crate) fn is_number(text: &str) -> bool
    ensures { result ≡ is_some (number_of text.now) }
{
    let bytes = text.as_bytes();
    if has_minus(bytes) {
        is_negative(&Numeral::scan(&bytes[1..]))
    } else {
        is_positive(&Numeral::scan(bytes))
    }
}

// The whole number that a numeral without a minus is.
fn positive_whole(numeral: &Numeral<'_>) -> Option<u64>
    ensures { result ≡ option_and_then as_u64 (number_from false numeral.now) }
{
    numeral.to_u64()
}

/// The whole number that the text of a number is, where it has no minus, no point and no exponent, and fits 64 bits.
pub(crate) fn whole_of(text: &str) -> Option<u64>
    ensures { result ≡ option_and_then as_u64 (number_of text.now) }
{
    let bytes = text.as_bytes();
    if has_minus(bytes) {
        return None;
    }
    positive_whole(&Numeral::scan(bytes))
}
