// The greatest common divisor, by halving and differences (J. Stein, 1967), on one machine word where both numbers fit.
ghost use Rattle.pa_math.specs.Divisors.{gcd_of};
ghost use Rattle.std.specs.Int.{trailing_zeros, w64, w128};
ghost use Rattle.std.specs.Prelude.{◌≡◌, ◌<◌, ◌≤◌, ◌*◌, ◌%◌, ◌^◌, ℕ};

/// The greatest common divisor, which is 0 at 0 and 0.
#[tactic(auto, using(pa_math::proofs::Divisors::gcd_of_next, pa_math::proofs::Divisors::gcd_of_zero, pa_math::proofs::Divisors::gcd_of_comm))]
pub fn gcd(a: u128, b: u128) -> u128
    ensures { result ≡ gcd_of a b }
{
    match (u64::try_from(a), u64::try_from(b)) {
        (Ok(a), Ok(b)) => u128::from(gcd_of_words(a, b)),
        (Err(_), Ok(b)) => gcd_with_word(a, b),
        (Ok(a), Err(_)) => gcd_with_word(b, a),
        (Err(_), Err(_)) => gcd_of_pairs(a, b),
    }
}

// With one number of a word, a single division leaves two.
#[tactic(auto, using(pa_math::proofs::Divisors::gcd_of_next, pa_math::proofs::Divisors::gcd_of_zero))]
fn gcd_with_word(a: u128, b: u64) -> u128
    ensures { result ≡ gcd_of a b }
{
    if b == 0 {
        return a;
    }
    let rest = a % u128::from(b);
    u128::from(gcd_of_words(b, rest as u64))
}

// Two numbers of one word. The factors of 2 that they share come back at the end.
fn gcd_of_words(a: u64, b: u64) -> u64
    ensures { result ≡ gcd_of a b }
{
    if a == 0 {
        return b;
    }
    if b == 0 {
        return a;
    }
    let twos = a.trailing_zeros().min(b.trailing_zeros());
    gcd_of_odd_words(a, odd_part_of_word(b)) << twos
}

// Two numbers of two words.
fn gcd_of_pairs(a: u128, b: u128) -> u128
    requires left { 0 < a }
    requires right { 0 < b }
    ensures { result ≡ gcd_of a b }
{
    let twos = a.trailing_zeros().min(b.trailing_zeros());
    gcd_of_odd_pairs(a, odd_part_of_pair(b)) << twos
}

// The number without its factors of 2.
fn odd_part_of_word(n: u64) -> u64
    requires { 0 < n }
    ensures odd { result % 2 ≡ 1 }
    ensures factor { result * 2 ^ trailing_zeros w64 n ≡ n }
{
    n >> n.trailing_zeros()
}

fn odd_part_of_pair(n: u128) -> u128
    requires { 0 < n }
    ensures odd { result % 2 ≡ 1 }
    ensures factor { result * 2 ^ trailing_zeros w128 n ≡ n }
{
    n >> n.trailing_zeros()
}

// A number and an odd one, which stays odd.
fn gcd_of_odd_words(a: u64, b: u64) -> u64
    requires { b % 2 ≡ 1 }
    ensures { result ≡ gcd_of a b }
{
    let mut x = a;
    let mut y = b;
    while x != 0 {
        let odd = odd_part_of_word(x);
        x = odd.abs_diff(y);
        y = odd.min(y);
    }
    y
}

fn gcd_of_odd_pairs(a: u128, b: u128) -> u128
    requires { b % 2 ≡ 1 }
    ensures { result ≡ gcd_of a b }
{
    let mut x = a;
    let mut y = b;
    while x != 0 {
        if let (Ok(x), Ok(y)) = (u64::try_from(x), u64::try_from(y)) {
            return u128::from(gcd_of_odd_words(x, y));
        }
        let odd = odd_part_of_pair(x);
        x = odd.abs_diff(y);
        y = odd.min(y);
    }
    y
}
