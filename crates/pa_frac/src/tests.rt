// What no clause says: values from outside, and generic code at two types.
ghost use Rattle.pa_frac.specs.Operations.{difference_in, is_zero, product_in, quotient_in};
ghost use Rattle.pa_frac.specs.Width.{valued};
ghost use Rattle.pa_math.specs.Answers.{and_then};
ghost use Rattle.std.specs.Prelude.{◌≡◌, true, IfNone, IfSome};

use crate::small20::Small20;
use crate::{Fraction, Narrow62, Wide, Wide126, add_whole, gcd, mul_whole};
use std::cmp::Ordering;
use std::test::Fail;

// The step of a pivot: `a - f p`.
fn step<F: Fraction>(a: F, f: F, p: F) -> Result<F, Wide>
    ensures { valued F.value result ≡ and_then (product_in F.WIDTH (F.value f) (F.value p)) (λ x. difference_in F.WIDTH (F.value a) x) }
{
    let product = f.mul(p)?;
    a.sub(product)
}

// The quotient, where the divisor is not 0.
fn ratio<F: Fraction>(a: F, b: F) -> Option<Result<F, Wide>>
    ensures zero { IfNone result (is_zero (F.value b) ≡ true) }
    ensures value { IfSome result (λ r. valued F.value r ≡ quotient_in F.WIDTH (F.value a) (F.value b)) }
{
    if b.is_zero() {
        return None;
    }
    Some(a.div(b))
}

// The quotient by a fraction above 0.
#[tactic(auto, using(crate::proofs::Signs::nonzero_from_greater))]
fn ratio_above<F: Fraction>(a: F, b: F) -> Option<Result<F, Wide>> {
    match b.sign() {
        Ordering::Greater => Some(a.div(b)),
        _ => None,
    }
}

// The sum of `1 / k` for each k from 1 to below the end.
fn harmonic<F: Fraction>(end: u8) -> Result<F, Wide> {
    let mut sum = F::zero();
    for k in 1..end {
        sum = sum.add(F::from_parts(1, i128::from(k))?)?;
    }
    Ok(sum)
}

// The greatest of a list.
fn greatest<F: Fraction>(first: F, rest: &Vec<F>) -> Result<F, Wide> {
    let mut best = first;
    for x in rest {
        if let Ordering::Less = best.compare(*x)? {
            best = *x;
        }
    }
    Ok(best)
}

// What an operation answers: the two numbers of a fraction, an order, or that a number passes.
#[derive(Debug, PartialEq, Drop)]
enum Outcome {
    Is(i128, i128),
    Ranks(Ordering),
    Passes,
}

fn numbers<F: Fraction>(answer: Result<F, Wide>) -> Outcome {
    match answer {
        Ok(value) => Outcome::Is(value.num(), value.den()),
        Err(Wide) => Outcome::Passes,
    }
}

fn fraction<F: Fraction>(parts: (i128, i128)) -> Option<F> {
    let (num, den) = parts;
    if den < 1 {
        return None;
    }
    F::from_parts(num, den).ok()
}

// What the operation of a name gives of two fractions.
fn answer_of<F: Fraction>(
    operation: &str,
    left: (i128, i128),
    right: (i128, i128),
) -> Option<Outcome> {
    let (x, y) = (fraction::<F>(left)?, fraction::<F>(right)?);
    match operation {
        "add" => Some(numbers(x.add(y))),
        "sub" => Some(numbers(x.sub(y))),
        "mul" => Some(numbers(x.mul(y))),
        "div" => ratio(x, y).map(|answer| numbers(answer)),
        "compare" => match x.compare(y) {
            Ok(order) => Some(Outcome::Ranks(order)),
            Err(Wide) => Some(Outcome::Passes),
        },
        _ => None,
    }
}

#[test]
fn the_greatest_common_divisor_is_exact_at_each_length(rt: HostRuntime) {
    let long: u128 = 1 << 100;
    let cases = [
        (0, 0, 0),
        (0, 7, 7),
        (7, 0, 7),
        (12, 18, 6),
        (1 << 63, 48, 16),
        (600_851_475_143, 6_857 * 71, 486_847),
        (long * 15, 10, 10),
        (10, long * 15, 10),
        (long * 15, long * 21, long * 3),
        (u128::MAX, 1 << 127, 1),
        (u128::MAX, u128::MAX, u128::MAX),
    ];
    for (a, b, expected) in cases {
        assert_eq!(rt; gcd(a, b), expected, "gcd of {a} and {b}");
    }
}

#[test]
fn whole_numbers_are_exact_up_to_126_bits(rt: HostRuntime) {
    let half: i128 = 1 << 63;
    assert!(rt; mul_whole(half, half - 1) == Ok(half * (half - 1)));
    assert!(rt; mul_whole(half, half) == Err(Wide));
    assert!(rt; mul_whole(-half, half) == Err(Wide));
    assert!(rt; mul_whole(i128::MIN, -1) == Err(Wide));
    let last: i128 = (1 << 126) - 1;
    assert!(rt; add_whole(last, 0) == Ok(last));
    assert!(rt; add_whole(last, 1) == Err(Wide));
    assert!(rt; add_whole(-last, -1) == Err(Wide));
    assert!(rt; add_whole(i128::MIN, i128::MAX) == Ok(-1));
}

// The sums whose denominators multiply to more than 126 bits and to less: `2^64 (2^64 - 1)` reaches
// `2^126`, and `2^62 (2^62 - 1)` is `2^124 - 2^62`.
#[test]
fn operations_of_126_bits_are_exact_or_wide(rt: HostRuntime) {
    let last: i128 = (1 << 126) - 1;
    let half: i128 = (1 << 125) + 1;
    let below: i128 = (1 << 124) - (1 << 62);
    let cases = [
        ("add", (1, 1 << 64), (1, (1 << 64) - 1), Outcome::Passes),
        (
            "add",
            (1, 1 << 62),
            (1, (1 << 62) - 1),
            Outcome::Is((1 << 63) - 1, below),
        ),
        ("add", (1, 6), (1, 10), Outcome::Is(4, 15)),
        ("add", (last, 1), (1, 1), Outcome::Passes),
        ("add", (last, 1), (-1, 1), Outcome::Is(last - 1, 1)),
        (
            "add",
            (1, 3 << 100),
            (-1, 5 << 100),
            Outcome::Is(1, 15 << 99),
        ),
        ("add", (half, 2), (half, 2), Outcome::Is(half, 1)),
        ("sub", (1, 2), (1, 3), Outcome::Is(1, 6)),
        ("sub", (7, 4), (7, 4), Outcome::Is(0, 1)),
        ("sub", (-last, 1), (1, 1), Outcome::Passes),
        ("mul", (1 << 100, 3), (3, 1 << 100), Outcome::Is(1, 1)),
        ("mul", (1 << 70, 7), (1 << 70, 9), Outcome::Passes),
        (
            "mul",
            (-(1 << 63), 1),
            ((1 << 63) - 1, 1),
            Outcome::Is((1 << 63) - (1 << 126), 1),
        ),
        ("mul", (0, 1), (5, 7), Outcome::Is(0, 1)),
        ("div", (3, 1), (-2, 5), Outcome::Is(-15, 2)),
        ("div", (1 << 80, 3), (1 << 81, 5), Outcome::Is(5, 6)),
        ("div", (-1, 1 << 63), (-(1 << 63), 1), Outcome::Passes),
        ("div", (0, 1), (-7, 2), Outcome::Is(0, 1)),
        (
            "compare",
            (1, 3 << 100),
            (1, 5 << 100),
            Outcome::Ranks(Ordering::Greater),
        ),
        ("compare", (-1, 2), (1, 3), Outcome::Ranks(Ordering::Less)),
        ("compare", (4, 6), (2, 3), Outcome::Ranks(Ordering::Equal)),
        (
            "compare",
            (1, 1 << 64),
            (1, (1 << 64) - 1),
            Outcome::Ranks(Ordering::Less),
        ),
        (
            "compare",
            (1 << 64, (1 << 63) - 1),
            (1 << 64, (1 << 63) + 1),
            Outcome::Passes,
        ),
        ("compare", (1 << 63, 5), (3, 1 << 63), Outcome::Passes),
    ];
    for (operation, left, right, expected) in cases {
        assert_eq!(rt;
            answer_of::<Wide126>(operation, left, right),
            Some(expected),
            "{operation} {left:?} {right:?}"
        );
    }
    assert!(rt; fraction::<Wide126>((1 << 126, 2)).is_some());
    assert!(rt; fraction::<Wide126>((1 << 126, 3)).is_none());
}

// By hand: `2^32 (2^32 - 1)` reaches `2^62`, and `2^31 (2^31 - 1)` is `2^62 - 2^31`, which does not.
// The sum of `1 / 2^31` and `1 / (2^31 - 1)` has the numerator `2^32 - 1`, which shares nothing with
// either, since it is odd and 1 above twice the second.
#[test]
fn operations_of_62_bits_are_exact_or_wide(rt: HostRuntime) {
    let last: i128 = (1 << 62) - 1;
    let half: i128 = (1 << 61) + 1;
    let below: i128 = (1 << 62) - (1 << 31);
    let cases = [
        ("add", (1, 1 << 32), (1, (1 << 32) - 1), Outcome::Passes),
        (
            "add",
            (1, 1 << 31),
            (1, (1 << 31) - 1),
            Outcome::Is((1 << 32) - 1, below),
        ),
        ("add", (1, 6), (1, 10), Outcome::Is(4, 15)),
        ("add", (last, 1), (1, 1), Outcome::Passes),
        ("add", (last, 1), (last, 1), Outcome::Passes),
        ("add", (last, 1), (-1, 1), Outcome::Is(last - 1, 1)),
        ("add", (1, 3 << 40), (-1, 5 << 40), Outcome::Is(1, 15 << 39)),
        ("add", (half, 2), (half, 2), Outcome::Is(half, 1)),
        ("sub", (7, 4), (7, 4), Outcome::Is(0, 1)),
        ("sub", (-last, 1), (1, 1), Outcome::Passes),
        ("mul", (1 << 50, 3), (3, 1 << 50), Outcome::Is(1, 1)),
        ("mul", (1 << 35, 7), (1 << 35, 9), Outcome::Passes),
        ("mul", (1 << 31, 1), (1 << 31, 1), Outcome::Passes),
        (
            "mul",
            (-(1 << 31), 1),
            ((1 << 31) - 1, 1),
            Outcome::Is(-below, 1),
        ),
        ("div", (3, 1), (-2, 5), Outcome::Is(-15, 2)),
        ("div", (1 << 40, 3), (1 << 41, 5), Outcome::Is(5, 6)),
        ("div", (-1, 1 << 31), (-(1 << 31), 1), Outcome::Passes),
        (
            "compare",
            (1, 3 << 40),
            (1, 5 << 40),
            Outcome::Ranks(Ordering::Greater),
        ),
        ("compare", (4, 6), (2, 3), Outcome::Ranks(Ordering::Equal)),
        (
            "compare",
            (1, 1 << 32),
            (1, (1 << 32) - 1),
            Outcome::Ranks(Ordering::Less),
        ),
        (
            "compare",
            (1 << 32, (1 << 31) - 1),
            (1 << 32, (1 << 31) + 1),
            Outcome::Passes,
        ),
        ("compare", (1 << 31, 5), (3, 1 << 31), Outcome::Passes),
    ];
    for (operation, left, right, expected) in cases {
        assert_eq!(rt;
            answer_of::<Narrow62>(operation, left, right),
            Some(expected),
            "{operation} {left:?} {right:?}"
        );
    }
    assert!(rt; fraction::<Narrow62>((1 << 62, 2)).is_some());
    assert!(rt; fraction::<Narrow62>((1 << 62, 3)).is_none());
    assert!(rt; fraction::<Narrow62>((1, 1 << 62)).is_none());
}

// The harmonic sums up to the last one that is not `Wide`.
#[test]
fn generic_code_runs_at_each_width(rt: HostRuntime) -> Result<(), Fail> {
    assert_eq!(rt;
        numbers(harmonic::<Small20>(13)),
        Outcome::Is(86_021, 27_720)
    );
    assert_eq!(rt; numbers(harmonic::<Small20>(14)), Outcome::Passes);
    assert_eq!(rt;
        numbers(harmonic::<Narrow62>(44)),
        Outcome::Is(532_145_396_070_491_417, 122_332_313_750_680_800)
    );
    assert_eq!(rt; numbers(harmonic::<Narrow62>(45)), Outcome::Passes);
    let longest = Outcome::Is(
        40_866_521_918_642_154_860_585_199_122_889_549_709,
        8_076_030_954_443_701_744_994_070_304_101_969_600,
    );
    assert_eq!(rt; numbers(harmonic::<Wide126>(89)), longest);
    assert_eq!(rt; numbers(harmonic::<Wide126>(90)), Outcome::Passes);
    assert!(rt; fraction::<Small20>((1, 1_048_577)).is_none());
    assert!(rt; pivots::<Small20>() && pivots::<Narrow62>() && pivots::<Wide126>());
    let values = vec![in rt.alloc();
        Narrow62::from_parts(2, 3)?,
        Narrow62::from_parts(-5, 2)?,
        Narrow62::one(),
        Narrow62::from_parts(3, 4)?,
    ]?;
    assert_eq!(rt;
        numbers(greatest(Narrow62::from_parts(1, 2)?, &values)),
        Outcome::Is(1, 1)
    );
    Ok(())
}

// `7/3 - (1/2) (2/3)` is 2, and `2 / (1/3)` is 6.
fn pivots<F: Fraction>() -> bool {
    let (Some(a), Some(f), Some(p)) = (
        fraction::<F>((7, 3)),
        fraction::<F>((1, 2)),
        fraction::<F>((2, 3)),
    ) else {
        return false;
    };
    let (Some(third), Ok(two)) = (fraction::<F>((1, 3)), step(a, f, p)) else {
        return false;
    };
    two.num() == 2
        && two.den() == 1
        && ratio_above(two, third).is_some_and(|answer| numbers(answer) == Outcome::Is(6, 1))
}
