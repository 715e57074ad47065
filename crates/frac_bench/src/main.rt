//! Counts operations on fractions: reads lines as `mul small 1000`, an operation, a size of the
//! operands and a number of rounds, does each over 64 pairs, and prints a check sum of the results.
//! A fourth word `narrow` does so with fractions of 62 bits in place of 126.
#![tactic(auto)]

mod operands;

use operands::{Size, pairs};
use pa_frac::{Fraction, Narrow62, Wide, Wide126, gcd};
use std::alloc::{AllocError, Global};
use std::cmp::Ordering;
use std::io;

// The check sum of the results of one operation on each pair, as often as there are rounds.
fn repeat<F: Fraction, O: Fn(F, F) -> i128>(rounds: u32, pairs: &[(F, F)], operation: O) -> i128
    requires { O.IsAlwaysCallable operation }
{
    let mut sum = 0i128;
    for _ in 0..rounds {
        for (left, right) in pairs {
            sum = sum.rotate_left(1).wrapping_add(operation(*left, *right));
        }
    }
    sum
}

fn numbers<F: Fraction>(answer: Result<F, Wide>) -> i128 {
    match answer {
        Ok(value) => value.num() ^ value.den(),
        Err(_) => -1,
    }
}

fn rank(answer: Result<Ordering, Wide>) -> i128 {
    match answer {
        Ok(Ordering::Less) => 2,
        Ok(Ordering::Equal) => 3,
        Ok(Ordering::Greater) => 5,
        Err(_) => -1,
    }
}

fn work<F: Fraction>(operation: &str, rounds: u32, pairs: &[(F, F)]) -> Option<i128> {
    match operation {
        "gcd" => Some(repeat(rounds, pairs, |x, y| {
            gcd(x.num().unsigned_abs(), y.den().unsigned_abs()).cast_signed()
        })),
        "add" => Some(repeat(rounds, pairs, |x, y| numbers(x.add(y)))),
        "sub" => Some(repeat(rounds, pairs, |x, y| numbers(x.sub(y)))),
        "mul" => Some(repeat(rounds, pairs, |x, y| numbers(x.mul(y)))),
        "compare" => Some(repeat(rounds, pairs, |x, y| rank(x.compare(y)))),
        _ => None,
    }
}

// The check sum of an operation of a name over the pairs of a size.
fn counted<F: Fraction>(
    alloc: Global,
    operation: &str,
    size: Size,
    rounds: u32,
) -> Result<Option<i128>, AllocError> {
    let pairs = pairs::<F>(alloc, size)?;
    Ok(work(operation, rounds, &pairs))
}

fn main(rt: HostRuntime) -> io::Result<()> {
    for line in rt.lines(rt.alloc()) {
        let line = line?;
        let mut words = line.split_whitespace();
        let (Some(operation), Some(size), Some(rounds)) = (words.next(), words.next(), words.next())
        else {
            continue;
        };
        let Ok(rounds) = rounds.parse::<u32>() else {
            continue;
        };
        let Some(size) = Size::of(size) else { continue };
        let sum = match words.next() {
            Some("narrow") => counted::<Narrow62>(rt.alloc(), operation, size, rounds)?,
            _ => counted::<Wide126>(rt.alloc(), operation, size, rounds)?,
        };
        if let Some(sum) = sum {
            println!(rt; "{operation} {sum}")?;
        }
    }
    Ok(())
}
