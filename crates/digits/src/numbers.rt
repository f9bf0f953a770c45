// "A number is an optional `-` and 1 to 18 digits, leading zeros allowed, `-0` being 0."
ghost use Rattle.std.specs.Prelude.{◌≡◌};
ghost use Rattle.page.specs.Fields.{digit, minus, number_of};
ghost use Rattle.digits.specs.Magnitudes.{magnitude_of};

use page::Number;

#[tactic(auto, unfolding(page::specs::Fields::digit))]
pub fn is_digit(b: u8) -> bool
    ensures { result ≡ digit b }
{
    48 <= b && b <= 57
}

pub fn read_digits(ds: &[u8]) -> Option<u64>
    ensures { result ≡ magnitude_of ds.now }
{
    if ds.is_empty() || 18 < ds.len() {
        return None;
    }
    let mut v: u64 = 0;
    for b in ds {
        if !is_digit(*b) {
            return None;
        }
        v = v * 10 + u64::from(*b - 48);
    }
    Some(v)
}

// `-0` is 0.
fn negate(v: u64) -> Number
    ensures { result ≡ minus v }
{
    match v {
        0 => Number::Plus(0),
        _ => Number::Minus(v),
    }
}

pub fn read_number(f: &[u8]) -> Number
    ensures { result ≡ number_of f.now }
{
    match f {
        [45, ds @ ..] => read_digits(ds).map_or(Number::Nothing, negate),
        _ => read_digits(f).map_or(Number::Nothing, Number::Plus),
    }
}
