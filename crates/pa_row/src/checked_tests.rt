// Numbers that were read, and the sums of lists, on worked values.
use super::*;
use pa_frac::Wide;
use std::alloc::Global;
use std::process::Abort;

// The numbers of rows, points and weights are below this one.
const LIMIT: i128 = 1 << 126;

// Whether the numbers are a row. One that is has them.
fn is_row(rt: &impl Abort, alloc: Global, c: [i128; 2], b: i128) -> bool {
    match Row::checked(Vec::from_array(alloc, c).expect(rt, "memory"), b) {
        Some(row) => {
            assert_eq!(rt; row.c.as_slice(), c.as_slice());
            assert_eq!(rt; row.b, b);
            true
        }
        None => false,
    }
}

// Whether the numbers are a point. One that is has them.
fn is_point(rt: &impl Abort, alloc: Global, p: [i128; 2], q: i128) -> bool {
    match Point::checked(Vec::from_array(alloc, p).expect(rt, "memory"), q) {
        Some(point) => {
            assert_eq!(rt; point.p.as_slice(), p.as_slice());
            assert_eq!(rt; point.q, q);
            true
        }
        None => false,
    }
}

#[test]
fn rows_take_numbers_below_126_bits(rt: HostRuntime) {
    assert!(rt; is_row(&rt, rt.alloc(), [1, -2], 3));
    assert!(rt; is_row(&rt, rt.alloc(), [LIMIT - 1, 1 - LIMIT], LIMIT - 1));
    assert!(rt; !is_row(&rt, rt.alloc(), [LIMIT, 0], 1));
    assert!(rt; !is_row(&rt, rt.alloc(), [0, -LIMIT], 1));
    assert!(rt; !is_row(&rt, rt.alloc(), [0, 0], LIMIT));
    assert!(rt; is_row(&rt, rt.alloc(), [1, 1], 0));
    assert!(rt; is_row(&rt, rt.alloc(), [1, 1], -1));
}

#[test]
fn points_take_numbers_below_126_bits_over_a_positive_one(rt: HostRuntime) {
    assert!(rt; is_point(&rt, rt.alloc(), [1, -2], 3));
    assert!(rt; is_point(&rt, rt.alloc(), [LIMIT - 1, 1 - LIMIT], LIMIT - 1));
    assert!(rt; !is_point(&rt, rt.alloc(), [LIMIT, 0], 1));
    assert!(rt; !is_point(&rt, rt.alloc(), [0, -LIMIT], 1));
    assert!(rt; !is_point(&rt, rt.alloc(), [0, 0], LIMIT));
    assert!(rt; !is_point(&rt, rt.alloc(), [1, 1], 0));
    assert!(rt; !is_point(&rt, rt.alloc(), [1, 1], -1));
}

// Whether the numbers are weights. Weights that they are have them.
fn are_weights(rt: &impl Abort, alloc: Global, den: i128, parts: [(u32, i128); 2]) -> bool {
    match Weights::checked(den, Vec::from_array(alloc, parts).expect(rt, "memory")) {
        Some(weights) => {
            assert_eq!(rt; weights.den, den);
            assert_eq!(rt; weights.parts.as_slice(), parts.as_slice());
            true
        }
        None => false,
    }
}

#[test]
fn weights_take_the_one_form_alone(rt: HostRuntime) {
    assert!(rt; are_weights(&rt, rt.alloc(), 2, [(0, 1), (3, 1)]));
    assert!(rt; are_weights(&rt, rt.alloc(), 1, [(0, 2), (1, 4)]));
    // a common divisor
    assert!(rt; !are_weights(&rt, rt.alloc(), 2, [(0, 2), (1, 4)]));
    // one place twice, and descending places
    assert!(rt; !are_weights(&rt, rt.alloc(), 1, [(1, 1), (1, 1)]));
    assert!(rt; !are_weights(&rt, rt.alloc(), 1, [(2, 1), (1, 1)]));
    // a weight that is not positive, and a wide one
    assert!(rt; !are_weights(&rt, rt.alloc(), 1, [(0, -1), (1, 1)]));
    assert!(rt; !are_weights(&rt, rt.alloc(), 1, [(0, 1), (1, 0)]));
    assert!(rt; !are_weights(&rt, rt.alloc(), 1, [(0, LIMIT), (1, 1)]));
    // a denominator that is not positive, and a wide one
    assert!(rt; !are_weights(&rt, rt.alloc(), 0, [(0, 1), (1, 1)]));
    assert!(rt; !are_weights(&rt, rt.alloc(), -1, [(0, 1), (1, 1)]));
    assert!(rt; !are_weights(&rt, rt.alloc(), LIMIT, [(0, 1), (1, 1)]));
}

#[test]
fn products_are_summed_and_taken_off(rt: HostRuntime) {
    assert_eq!(rt; dot(&[2, -3], &[5, 7, 11]), Ok(-11));
    assert_eq!(rt; dot(&[], &[5]), Ok(0));
    assert_eq!(rt; dot(&[1 << 63], &[1 << 63]), Err(Wide));
    assert_eq!(rt; slack(2, 5, &[1, 3, 7], &[3, 1]), Ok(4));
    assert_eq!(rt; slack(3, -1, &[], &[]), Ok(-3));
    assert_eq!(rt; slack(1 << 63, 1 << 63, &[], &[]), Err(Wide));
    assert_eq!(rt; slack(1, 0, &[1 << 63], &[1 << 63]), Err(Wide));
    assert_eq!(rt; slack(1, 1 << 125, &[-1], &[1 << 125]), Err(Wide));
    assert_eq!(rt; divisor_of_all(-6, &[4, 0, 10]), 2);
    assert_eq!(rt; divisor_of_all(0, &[0, 0]), 0);
}
