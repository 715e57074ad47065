// Whole numbers below a width: products and sums are exact, or they pass it.
ghost use Rattle.pa_frac.specs.Width.{Fits, within};
ghost use Rattle.std.specs.Prelude.{◌≡◌, ◌≤◌, ◌^◌, ◌+ℤ◌, ◌*ℤ◌};

use crate::Wide;

/// The greatest width in bits, which is that of whole numbers. A sum of two such numbers is an `i128`.
pub const MOST_BITS: u32 = 126;

// A product of two numbers below this one does not pass the greatest width.
const HALF: u128 = 1 << (MOST_BITS / 2);

// The least number that passes a width.
#[inline(always)]
fn limit(width: u32) -> u128
    requires { width ≤ MOST_BITS }
    ensures { result ≡ 2 ^ width }
{
    1 << width
}

/// The number itself, or `Wide` where its absolute value reaches `2^width`. The width is at most 126.
#[inline(always)]
pub fn bounded(width: u32, n: i128) -> Result<i128, Wide>
    requires { width ≤ MOST_BITS }
    ensures { result ≡ within width n }
{
    if n.unsigned_abs() < limit(width) {
        Ok(n)
    } else {
        Err(Wide)
    }
}

// The sum of two numbers that do not pass the greatest width.
#[inline(always)]
pub(crate) fn plus(a: i128, b: i128) -> i128
    requires left { Fits MOST_BITS a }
    requires right { Fits MOST_BITS b }
    ensures { result ≡ a +ℤ b }
{
    a + b
}

// The product, or `Wide` where it passes the width.
#[inline(always)]
#[tactic(auto, using(crate::proofs::Width::product_below, crate::proofs::Width::product_most))]
pub(crate) fn times(width: u32, a: i128, b: i128) -> Result<i128, Wide>
    requires { width ≤ MOST_BITS }
    ensures { result ≡ within width (a *ℤ b) }
{
    let Ok(product) = mul_whole(a, b) else {
        return Err(Wide);
    };
    if width < MOST_BITS {
        return bounded(width, product);
    }
    Ok(product)
}

/// The product, or `Wide` where its absolute value reaches `2^126`.
pub fn mul_whole(a: i128, b: i128) -> Result<i128, Wide>
    ensures { result ≡ within MOST_BITS (a *ℤ b) }
{
    if a.unsigned_abs() < HALF && b.unsigned_abs() < HALF {
        return Ok(a * b);
    }
    match a.checked_mul(b) {
        Some(product) => bounded(MOST_BITS, product),
        None => Err(Wide),
    }
}

/// The sum, or `Wide` where its absolute value reaches `2^126`.
pub fn add_whole(a: i128, b: i128) -> Result<i128, Wide>
    ensures { result ≡ within MOST_BITS (a +ℤ b) }
{
    match a.checked_add(b) {
        Some(sum) => bounded(MOST_BITS, sum),
        None => Err(Wide),
    }
}
