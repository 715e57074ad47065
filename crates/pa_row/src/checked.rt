// Whether numbers that were read meet the rules of rows, points and weights.
ghost use Rattle.std.specs.Prelude.{◌≡◌, ◌↔◌, ◌<◌, ◌<ℤ◌, ◌^◌, ◌∷◌, ℕ, ℤ, All, AllPairs, IsTrue, map, pos};
ghost use Rattle.pa_math.specs.Divisors.{gcd_all};
ghost use Rattle.pa_row.specs.Width.{Fits, IsCanonical};

use crate::divisor::with_number;
use pa_frac::{MOST_BITS, bounded};

// Whether the number is below `2^126` in absolute value.
#[tactic(auto, using(crate::proofs::Canonical::narrow_test))]
pub(crate) fn is_narrow(n: i128) -> bool
    ensures { IsTrue result ↔ Fits n }
{
    bounded(MOST_BITS, n).is_ok()
}

// Whether each number is below `2^126` in absolute value.
pub(crate) fn are_narrow(numbers: &[i128]) -> bool
    ensures { IsTrue result ↔ All Fits numbers.now }
{
    for n in numbers {
        if !is_narrow(*n) {
            return false;
        }
    }
    true
}

// Whether the number is positive and below `2^126`.
fn is_numerator(n: i128) -> bool
    ensures { IsTrue result ↔ (pos 0 <ℤ n) × Fits n }
{
    n > 0 && is_narrow(n)
}

// Whether each part's number is positive and below `2^126`.
fn are_numerators(parts: &[(u32, i128)]) -> bool
    ensures { IsTrue result ↔ All (λ (part : ℕ × ℤ). (pos 0 <ℤ part.1) × Fits part.1) parts.now }
{
    for (_, n) in parts {
        if !is_numerator(*n) {
            return false;
        }
    }
    true
}

// Whether the places ascend.
fn are_ascending(parts: &[(u32, i128)]) -> bool
    ensures { IsTrue result ↔ AllPairs (λ (a b : ℕ × ℤ). a.0 < b.0) parts.now }
{
    for i in 1..parts.len() {
        if parts[i].0 <= parts[i - 1].0 {
            return false;
        }
    }
    true
}

// The greatest common divisor of the denominator and of all numerators.
fn divisor_of_weights(den: i128, parts: &[(u32, i128)]) -> u128
    requires den { Fits den }
    requires parts { All (λ (part : ℕ × ℤ). Fits part.1) parts.now }
    ensures { pos result ≡ gcd_all (den ∷ map (λ (part : ℕ × ℤ). part.1) parts.now) }
{
    let mut divisor = den.unsigned_abs();
    for (_, n) in parts {
        divisor = with_number(divisor, *n);
    }
    divisor
}

// Whether weights with these numbers are canonical.
pub(crate) fn is_canonical(den: i128, parts: &[(u32, i128)]) -> bool
    ensures { IsTrue result ↔ IsCanonical (record { den = den; parts = parts.now }) }
{
    if !is_numerator(den) || !are_numerators(parts) || !are_ascending(parts) {
        return false;
    }
    divisor_of_weights(den, parts) == 1
}
