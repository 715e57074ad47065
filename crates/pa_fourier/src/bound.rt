// The bounds of rows as fractions, made once, before any comparison.
ghost use Rattle.std.specs.Prelude.{◌≡◌, ◌<ℤ◌, IfOk, false, map, pos};
ghost use Rattle.pa_frac.specs.Width.{Fits};
ghost use Rattle.pa_math.specs.Rational.{over};
ghost use Rattle.pa_witness.specs.Thinning as thinning;
ghost use Rattle.pa_fourier.specs.Bounds as spec;
ghost use Rattle.pa_fourier.specs.Cleaning as cleaning;

use pa_frac::{Fraction, Wide126};
use pa_row::{Row, divisor_of_all};
use std::alloc::{AllocError, Global};

// The fraction of two numbers that are below the width, which is never `Wide`.
fn fraction_of(num: i128, den: i128) -> Wide126
    requires num { Fits 126 num }
    requires den { Fits 126 den }
    requires positive { pos 0 <ℤ den }
    ensures { spec.fraction result ≡ over num den }
{
    match Wide126::from_parts(num, den) {
        Ok(fraction) => fraction,
        Err(_) => unreachable!(),
    }
}

// The row's bound over the greatest common divisor of its coefficients, or as it is where all are 0.
fn bound_of(row: &Row) -> Wide126
    ensures { thinning.is_constant row.now ≡ false → spec.fraction result ≡ cleaning.bound_of row.now }
{
    let divisor = divisor_of_all(0, &row.c);
    if divisor > 0 {
        fraction_of(row.b, divisor)
    } else {
        fraction_of(row.b, 1)
    }
}

/// The bound of each row over the greatest common divisor of its coefficients.
pub(crate) fn bounds_of(alloc: Global, rows: &[Row]) -> Result<Vec<Wide126>, AllocError>
    ensures { IfOk result (λ bounds. spec.AreBounds rows.now (map spec.fraction bounds.items)) }
{
    let mut bounds = Vec::with_capacity(alloc, rows.len())?;
    for row in rows {
        bounds.push_reserved(bound_of(row));
    }
    Ok(bounds)
}
