// What a work begins with.
ghost use Rattle.std.specs.Prelude.{◌≡◌, ◌≤◌, ◌<◌, ◌+◌, ◌^◌, false, replicate, take, length};
ghost use Rattle.std.specs.List.{range_with_len};

use pa_frac::Fraction;

/// Writes a number into the first cells.
pub(crate) fn clear<F: Fraction>(cells: &mut [F], count: usize, zero: F)
    requires { count ≤ length cells.old }
    ensures { take count cells.new ≡ replicate count zero }
{
    for i in 0..count {
        cells[i] = zero;
    }
}

/// Writes `first`, `first + 1` and so on into the first places.
pub(crate) fn count_from(basis: &mut [u32], first: u32, count: usize)
    requires room { count ≤ length basis.old }
    requires fits { first + count < 2 ^ 32 }
    ensures { take count basis.new ≡ range_with_len first count }
{
    for i in 0..count {
        basis[i] = first + i as u32;
    }
}

/// Writes false into the first places.
pub(crate) fn turn_back(turned: &mut [bool], count: usize)
    requires { count ≤ length turned.old }
    ensures { take count turned.new ≡ replicate count false }
{
    for i in 0..count {
        turned[i] = false;
    }
}
