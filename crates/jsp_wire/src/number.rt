//! The numbers of JSON.
ghost use Rattle.std.specs.Prelude.{◌≡◌, false, true, option_map};
ghost use Rattle.serde_json.specs.Read.{number_of, number_from};
ghost use Rattle.serde_json.specs.View.{number_view};

use fast_float::Numeral;
use serde_json::Number;

/// The number that these bytes write: an integer where it is one of 64 bits, and else the nearest
/// float, where that is finite.
#[tactic(auto, unfolding(serde_json::specs::Read::number_of))]
pub(crate) fn number(text: &str) -> Option<Number>
    ensures { option_map number_view result ≡ number_of text.now }
{
    let bytes = text.as_bytes();
    if !bytes.is_empty() && bytes[0] == b'-' {
        negative(&Numeral::scan(&bytes[1..]))
    } else {
        positive(&Numeral::scan(bytes))
    }
}

fn positive(numeral: &Numeral<'_>) -> Option<Number>
    ensures { option_map number_view result ≡ number_from false numeral.now }
{
    match numeral.to_u64() {
        Some(n) => Some(Number::from(n)),
        None => Number::from_f64(numeral.to_float::<f64>(false)),
    }
}

fn negative(numeral: &Numeral<'_>) -> Option<Number>
    ensures { option_map number_view result ≡ number_from true numeral.now }
{
    match numeral.to_i64(true) {
        Some(n) if n < 0 => Some(Number::from(n)),
        _ => Number::from_f64(numeral.to_float::<f64>(true)),
    }
}
