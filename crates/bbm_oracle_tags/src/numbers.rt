//! Words on lists of numbers.

ghost use Rattle.std.specs.Prelude.{◌≡◌, Some, min, unwrap_or};
ghost use Rattle.bbm_rules.specs.Lists as spec;

/// The least, with one more number.
fn lesser(least: Option<u64>, number: u64) -> Option<u64>
    ensures { result ≡ Some (min number (unwrap_or least number)) }
{
    match least {
        Some(least) => Some(number.min(least)),
        None => Some(number),
    }
}

/// The least of the numbers, None where there are none.
pub fn least(numbers: &[u64]) -> Option<u64>
    ensures { result ≡ spec.least numbers.now }
{
    let mut least = None;
    for number in numbers {
        least = lesser(least, *number);
    }
    least
}
