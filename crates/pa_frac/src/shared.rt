// What two numbers share.
ghost use Rattle.pa_math.specs.Divisors.{gcd_ℤ};
ghost use Rattle.std.specs.Int.RustNames.{int_div};
ghost use Rattle.std.specs.Prelude.{◌≡◌, ◌<ℤ◌, pos};

use crate::gcd;

// Two numbers without their greatest common divisor.
#[derive(Clone, Copy)]
pub struct Parts {
    pub shared: i128,
    pub left: i128,
    pub right: i128,
}

/// The greatest common divisor of a number and a positive one, as a signed number.
#[tactic(auto, using(crate::proofs::Lowest::shared_at_most))]
pub fn common_divisor(a: i128, b: i128) -> i128
    requires { pos 0 <ℤ b }
    ensures { result ≡ gcd_ℤ a b }
{
    gcd(a.unsigned_abs(), b.unsigned_abs()) as i128
}

/// The quotient by a positive number, rounded toward 0. Where that is 1, nothing is divided.
#[tactic(auto, using(std::proofs::lemmas::Int::quot_is, std::proofs::lemmas::Int::quot_fits, pa_math::proofs::Divisors::quotient_by_one))]
pub fn divided(n: i128, by: i128) -> i128
    requires { pos 0 <ℤ by }
    ensures { result ≡ int_div n by }
{
    if by == 1 { n } else { n / by }
}

// A number and a positive one, without what they share.
#[tactic(auto, using(crate::proofs::Lowest::shared_positive))]
fn split_any(a: i128, b: i128) -> Parts
    requires { pos 0 <ℤ b }
    ensures shared { result.shared ≡ gcd_ℤ a b }
    ensures positive { pos 0 <ℤ result.shared }
    ensures left { result.left ≡ int_div a (gcd_ℤ a b) }
    ensures right { result.right ≡ int_div b (gcd_ℤ a b) }
{
    let shared = common_divisor(a, b);
    Parts {
        shared,
        left: divided(a, shared),
        right: divided(b, shared),
    }
}

// The same, where one look at the second number may do.
#[tactic(auto, using(crate::proofs::Lowest::shared_with_one, pa_math::proofs::Divisors::quotient_by_one))]
pub fn split(a: i128, b: i128) -> Parts
    requires { pos 0 <ℤ b }
    ensures shared { result.shared ≡ gcd_ℤ a b }
    ensures positive { pos 0 <ℤ result.shared }
    ensures left { result.left ≡ int_div a (gcd_ℤ a b) }
    ensures right { result.right ≡ int_div b (gcd_ℤ a b) }
{
    if b == 1 {
        Parts {
            shared: 1,
            left: a,
            right: 1,
        }
    } else {
        split_any(a, b)
    }
}
