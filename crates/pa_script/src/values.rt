// The number of a limit.
ghost use Rattle.std.specs.Prelude.{◌≡◌, ◌≤◌, IfSome};
ghost use Rattle.std.specs.List.{AllPass, list_all};
ghost use Rattle.std.specs.Char.{is_ascii_digit};
ghost use Rattle.pa_row.specs.Steps.{IsLimit};
ghost use Rattle.pa_script.specs.Values as spec;

// How large the number of a limit is at most.
const MOST_LIMIT: u32 = 4096;

fn are_digits(word: &[u8]) -> bool
    ensures { result ≡ list_all is_ascii_digit word.now }
{
    word.iter().all(|byte| byte.is_ascii_digit())
}

// The number that digits are, where it is at most 4,096.
fn small_number(digits: &[u8]) -> Option<u32>
    requires { AllPass is_ascii_digit digits.now }
    ensures value { result ≡ spec.small_number digits.now }
    ensures small { IfSome result (λ number. number ≤ MOST_LIMIT) }
{
    let mut number: u32 = 0;
    for digit in digits {
        number = number * 10 + u32::from(*digit - b'0');
        if number > MOST_LIMIT {
            return None;
        }
    }
    Some(number)
}

/// The number of a limit: digits without a leading 0, from 1 to 4,096.
pub(crate) fn limit_in(word: &[u8]) -> Option<u32>
    ensures value { result ≡ spec.limit_in word.now }
    ensures within { IfSome result IsLimit }
{
    if !are_digits(word) || word.starts_with(b"0") {
        return None;
    }
    let number = small_number(word)?;
    if number == 0 {
        return None;
    }
    Some(number)
}
