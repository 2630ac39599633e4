//! Numbers with a fraction or an exponent.
ghost use Rattle.std.specs.Prelude.{◌≡◌, IfSome, true};
ghost use Rattle.fast_float.specs.Text.{Parts};
ghost use Rattle.json.specs.Print.{IsNumber};
ghost use Rattle.serde_json.specs.Data.{float, number};
ghost use Rattle.serde_json.specs.View.{view};
ghost use Rattle.json_reading.specs.Reals.{float_in, has_float, is_float, numeral_in};

use crate::scalar::byte_at;
use fast_float::Numeral;
use json::is_number;
use serde_json::Value;

/// A number as it is written, with a fraction or an exponent. It is not too large for a float.
#[derive(Clone, Copy, Drop)]
pub struct Real<'a> {
    text: &'a str,
    ghost spelled: { IsNumber text.now },
    ghost finite: { is_float text.now ≡ true },
}

impl<'a> Real<'a> {
    /// The number that the whole text is.
    pub(crate) fn from_text(text: &'a str) -> Option<Real<'a>>
        ensures { IfSome result (λ real. real.text.now ≡ text.entry.now) }
    {
        if is_number(text) && is_float(text) {
            Some(Real { text })
        } else {
            None
        }
    }

    #[tactic(auto, using(crate::proofs::RealLemmas::float_json))]
    pub(crate) fn to_json(&self) -> Value
        ensures { view result ≡ number (float (float_in self.now.text.now)) }
    {
        Value::from(nearest(self.text))
    }
}

/// Whether the number in the text has a minus, and the number without it.
#[inline(always)]
fn numeral(text: &str) -> (bool, Numeral<'_>)
    ensures { result ≡ numeral_in text.now }
{
    let bytes = text.as_bytes();
    if byte_at(bytes, 0) == b'-' {
        (true, Numeral::scan(&bytes[1..]))
    } else {
        (false, Numeral::scan(bytes))
    }
}

/// The float nearest to the number in the text.
#[tactic(auto, unfolding(crate::specs::Reals::float_in))]
fn nearest(text: &str) -> f64
    ensures { result ≡ float_in text.now }
{
    let (negative, numeral) = numeral(text);
    numeral.to_float::<f64>(negative)
}

/// Whether the text begins with a number that has a fraction or an exponent, and is not too large for a float.
#[tactic(auto, unfolding(crate::specs::Reals::is_float))]
fn is_float(text: &str) -> bool
    ensures { result ≡ is_float text.now }
{
    let (negative, numeral) = numeral(text);
    has_float(negative, &numeral)
}

fn has_float(negative: bool, numeral: &Numeral<'_>) -> bool
    ensures { result ≡ has_float negative numeral.now }
{
    let is_integer = !numeral.whole().is_empty()
        && !numeral.has_point()
        && numeral.exponent().is_empty();
    !is_integer && numeral.to_float::<f64>(negative).is_finite()
}
