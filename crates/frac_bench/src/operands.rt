// The operands: fractions of a size, from a fixed sequence.
use pa_frac::Fraction;
use std::alloc::{AllocError, Global};

// How many pairs there are of a size.
const PAIRS: usize = 64;

/// The size of the numbers of an operand.
#[derive(Clone, Copy)]
pub(crate) enum Size {
    /// Whole numbers of 20 bits.
    Whole,
    /// Fractions of numbers of 20 bits.
    Small,
    /// Fractions of numbers of 60 bits.
    Long,
    /// Fractions of numbers of 120 bits, whose denominators share most of their factors.
    Longest,
}

impl Size {
    /// The size of a name.
    pub(crate) fn of(name: &str) -> Option<Size> {
        match name {
            "whole" => Some(Size::Whole),
            "small" => Some(Size::Small),
            "long" => Some(Size::Long),
            "longest" => Some(Size::Longest),
            _ => None,
        }
    }
}

// The next number of the sequence (G. Marsaglia's xorshift, 2003).
fn next(state: u64) -> u64 {
    let a = state ^ (state << 13);
    let b = a ^ (a >> 7);
    b ^ (b << 17)
}

/// The pairs of a size that the type holds.
pub(crate) fn pairs<F: Fraction>(alloc: Global, size: Size) -> Result<Vec<(F, F)>, AllocError> {
    let mut pairs = Vec::new(alloc);
    let mut state = 88_172_645_463_325_252;
    for _ in 0..PAIRS {
        let a = next(state);
        let b = next(a);
        let c = next(b);
        let d = next(c);
        state = d;
        let left = operand(size, a, b);
        let right = operand(size, c, d);
        if let (Some(left), Some(right)) = (left, right) {
            pairs.push((left, right))?;
        }
    }
    Ok(pairs)
}

// Two numbers that stand in every operand of 120 bits, one above and one below: the first 112 bits
// of the fractions of the golden ratio and of e.
const ABOVE: i128 = 3_209_015_938_253_828_020_717_412_870_544_621;

const BELOW: i128 = 3_729_532_481_450_552_524_172_391_067_196_660;

// An operand from two words.
fn operand<F: Fraction>(size: Size, n: u64, d: u64) -> Option<F> {
    let (num, den) = match size {
        Size::Whole => (i128::from(n >> 44), 1),
        Size::Small => (i128::from(n >> 44), i128::from(d >> 44)),
        Size::Long => (i128::from(n >> 4), i128::from(d >> 4)),
        Size::Longest => (ABOVE * i128::from(n >> 56), BELOW * i128::from(d >> 56)),
    };
    if den < 1 {
        return None;
    }
    F::from_parts(num, den).ok()
}
