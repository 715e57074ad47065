// Texts read by the grammar, on worked values. They stand here, so that the grammar is proved once and not again with them.
ghost use Rattle.std.specs.Prelude.{All, IfOk};
ghost use Rattle.pa_grammar.specs.Texts.{IsConstant};

use pa_grammar::{
    Constants, Linear, MOST_TEXT, TermFault, read_plain, read_term, read_term_with, read_value,
};
use pa_names::{Name, Names};
use pa_row::Row;
use std::alloc::{AllocError, Global};
use std::fmt::Write;
use std::process::Abort;

// Texts over `x` and `y`, each with its rows, as columns and a bound, or its fault.
const TERMS: &str = "\
2x <= 1 => 2 0 <= 1
2 * x <= 4 => 1 0 <= 2
1/2 x <= 3 => 1 0 <= 6
0.5 x <= y => 1 -2 <= 0
1e-3 x >= 1 => -1 0 <= -1000
|x - y| <= 2 => 1 -1 <= 2, -1 1 <= 2
2(x + y) = 6 => 1 1 <= 3, -1 -1 <= -3
x <= x => 0 0 <= 0
1 <= 0 => 0 0 <= -1
2 x y <= 1 => syntax at byte 4
x < 1 => syntax at byte 2
 => syntax at byte 0
1234567890123456789 x <= 1 => literal at byte 0
1/0 x <= 1 => literal at byte 2
x + z <= 1 => unknown name at byte 4
|x| >= 1 => not linear at byte 0
1e18 (1e18 (1e18 x)) <= 1 => too wide
|((((((((((((((((x))))))))))))))))| <= 1 => 1 0 <= 1, -1 0 <= 1
|(((((((((((((((((x)))))))))))))))))| <= 1 => syntax at byte 17
((((((((((((((((x)))))))))))))))) <= 1 => 1 0 <= 1
(((((((((((((((((x))))))))))))))))) <= 1 => syntax at byte 16
5 - |y| >= |x| => 1 1 <= 5, 1 -1 <= 5, -1 1 <= 5, -1 -1 <= 5
0|x| <= 1 => 0 0 <= 1, 0 0 <= 1
0|x| >= 1 => 0 0 <= -1, 0 0 <= -1
-0|x| <= 1 => 0 0 <= 1, 0 0 <= 1
0|x| = 1 => not linear at byte 1
x <= |y| <= 1 => not linear at byte 5
1 >= |x| >= 0 => not linear at byte 5
|x| <= |y| => not linear at byte 7
1.000000000000000000 <= x => literal at byte 0
1.00000000000000000 <= x => -1 0 <= -1
1/00 <= x => literal at byte 2
x  => syntax at byte 2
x <=  => syntax at byte 5
   => syntax at byte 2
keep <= 1 => syntax at byte 0
2keep <= x => syntax at byte 1
aaaaaaaaaaaaaaaaaaaaaaaaaaaaaaaaaaaaaaaaaaaaaaaaaaaaaaaaaaaaaaaaa <= 1 => syntax at byte 0
2aaaaaaaaaaaaaaaaaaaaaaaaaaaaaaaaaaaaaaaaaaaaaaaaaaaaaaaaaaaaaaaaa <= 1 => syntax at byte 1
|x| + |y| <= 1 - |x| - |y| => 2 2 <= 1, 2 0 <= 1, 0 2 <= 1, 0 0 <= 1, 2 0 <= 1, 2 -2 <= 1, 0 0 <= 1, 0 -2 <= 1, 0 2 <= 1, 0 0 <= 1, -2 2 <= 1, -2 0 <= 1, 0 0 <= 1, 0 -2 <= 1, -2 0 <= 1, -2 -2 <= 1
|x| + |y| + |x| <= 1 => syntax at byte 12
|x| + |y| + 2|x| <= 1 => syntax at byte 13
1 >= |x| + |y| + |x| => syntax at byte 17
|x| + 2 |y| <= 3 - |x - 1| => 1 1 <= 2, 0 1 <= 1, 1 -1 <= 2, 0 -1 <= 1, 0 1 <= 2, -1 1 <= 1, 0 -1 <= 2, -1 -1 <= 1
123456789012345678 x <= 1 => 123456789012345678 0 <= 1
0.123456789012345678 x <= 1 => 61728394506172839 0 <= 500000000000000000
1234567890123456789 <= x => literal at byte 0
0.0000000000000000001 <= x => literal at byte 0
0000000000000000000001 <= x => -1 0 <= -1
1e18 <= x => -1 0 <= -1000000000000000000
1e-18 x <= 1 => 1 0 <= 1000000000000000000
1e19 <= x => literal at byte 0
1e0018 <= x => -1 0 <= -1000000000000000000
1e99999999999999999999 <= x => literal at byte 0
0e19 <= x => literal at byte 0
2e <= x => unknown name at byte 1
2e+ <= 1 => syntax at byte 4
2. <= x => syntax at byte 1
.5 x <= 1 => syntax at byte 0
1/2/3 <= x => syntax at byte 3
0.5/2 <= x => syntax at byte 3
1/0.5 <= x => syntax at byte 2
2*3 <= x => syntax at byte 2
2*-x <= 1 => syntax at byte 2
x + <= 1 => syntax at byte 4
x + - y <= 1 => syntax at byte 4
(x)(y) <= 1 => syntax at byte 3
|x||y| <= 1 => syntax at byte 3
|2|x|| <= 1 => syntax at byte 3
(|x|) <= 1 => syntax at byte 1
|(x|) <= 1 => syntax at byte 3
()<=1 => syntax at byte 1
x <= 1 >= 2 => syntax at byte 7
x <= y <= 1 = 2 => syntax at byte 12
x = 1 = 2 => syntax at byte 6
x == 1 => 1 0 <= 1, -1 0 <= -1
x === 1 => syntax at byte 4
x =< 1 => syntax at byte 3
x <= 1; => syntax at byte 6
2e z <= 1 => syntax at byte 3
1e19 <= 1/0 => literal at byte 0
z <= 1/0 => literal at byte 7
|z| >= 1 => unknown name at byte 1
|x| >= 1e19 => literal at byte 7
-|x| >= -1 => 1 0 <= 1, -1 0 <= 1
x <= -2|y| => 1 2 <= 0, 1 -2 <= 0
1/2x <= 1 => 1 0 <= 2
x <= y <= 3 => 1 -1 <= 0, 0 1 <= 3
x = 2 y => 1 -2 <= 0, -1 2 <= 0
3 >= x >= y => 1 0 <= 3, -1 1 <= 0
2 (x - 3) >= y => -2 1 <= -6
2 (1 - 3 (x - y)) <= 4 x => -5 3 <= -1
-x <= 0 => -1 0 <= 0
0 <= 0.5 => 0 0 <= 1
x / 2 <= 1 => syntax at byte 2
0.5 x <= 1 => 1 0 <= 2
x <= 1e0018 => 1 0 <= 1000000000000000000
2e <= z => unknown name at byte 1
x <= 0.0000000000000000000 => literal at byte 5
0000000000000000000000 x <= 1e0018 => 0 0 <= 1
1/00 <= z => literal at byte 2
2 x - 3 (y) >= 1 => -2 3 <= -1
";

// Texts over `x` with the constants `cap = 3/2` and `low = -1/3`.
const WITH_CONSTANTS: &str = "\
x <= cap => 2 <= 3
cap x <= 3 => 1 <= 2
2 (cap) + x <= 4 => 1 <= 1
2 cap <= x => syntax at byte 2
x cap <= 1 => syntax at byte 2
cap/2 <= x => syntax at byte 3
cap |x| <= 3 => 1 <= 2, -1 <= 2
-cap <= x => -2 <= 3
cap * x <= low => 9 <= -2
low x <= 1 => -1 <= 3
|x| <= low => 3 <= -1, -3 <= -1
x <= 1 / cap => syntax at byte 9
";

// Plains, each with its numbers, its constant and its denominator, or its fault.
const PLAINS: &str = "\
x => 1 x, 0 over 1
x + 2 y - x => 2 y, 0 over 1
2(y) + x => 2 y, 1 x, 0 over 1
y + x => 1 y, 1 x, 0 over 1
1/2 x + 1/3 y - 1/6 => 3 x, 2 y, -1 over 6
0.5 => 1 over 2
x - x => 0 over 1
3 - 2 (x - 1) => -2 x, 5 over 1
0 x + y => 1 y, 0 over 1
a + b - a + 2 c => 1 b, 2 c, 0 over 1
2 x y => syntax at byte 4
|x| => syntax at byte 0
x <= 1 => syntax at byte 2
 => syntax at byte 0
(x => syntax at byte 2
keep => syntax at byte 0
1e19 x => literal at byte 0
1/0 + x => literal at byte 2
1e18 (1e18 (1e18 x)) => too wide
x + 1e19 | => syntax at byte 9
1e-18 x + 1e-17 y => 1 x, 10 y, 0 over 1000000000000000000
";

// Values, each with its fraction, or its fault.
const VALUES: &str = "\
1/2 => 1/2
-1/2 => -1/2
+ 3 => 3/1
- -1 => syntax at byte 2
1/2/3 => syntax at byte 3
0.5/2 => syntax at byte 3
2x => syntax at byte 1
x => syntax at byte 0
 => syntax at byte 0
1/0 => literal at byte 2
1e19 => literal at byte 0
 5  => 5/1
(1) => syntax at byte 0
1.5e3 => 1500/1
2* => syntax at byte 1
1/ => syntax at byte 2
- => syntax at byte 1
6/4 => 3/2
-0.25 => -1/4
0 => 0/1
";

// The list of the names in a text.
fn names_of(rt: &impl Abort, alloc: Global, text: &str) -> Names {
    let mut names = Names::new(alloc);
    for word in text.split_whitespace() {
        let name = Name::read(alloc, word.as_bytes()).expect(rt, "a name");
        names.add(name).expect(rt, "a new name");
    }
    names
}

// Puts a row behind a text, as `1 -2 <= 3`.
fn push_numbers(text: &mut String, row: &Row) -> Result<(), AllocError> {
    for number in &row.c {
        write!(text, "{number} ")?;
    }
    let bound = row.b;
    write!(text, "<= {bound}")?;
    Ok(())
}

// Rows as `1 -2 <= 3, 0 1 <= 0`.
fn rows_text(alloc: Global, rows: &[Row]) -> Result<String, AllocError> {
    let mut text = String::new(alloc);
    for row in rows {
        if !text.is_empty() {
            text.push_str(", ")?;
        }
        push_numbers(&mut text, row)?;
    }
    Ok(text)
}

// The rows or the refusal.
fn rows_shown(alloc: Global, answer: Result<Vec<Row>, TermFault>) -> Result<String, AllocError> {
    match answer {
        Ok(rows) => rows_text(alloc, &rows),
        Err(fault) => format!(in alloc; "{fault}"),
    }
}

// A sum as `2 x, -1 y, 5 over 3`.
fn linear_text(alloc: Global, linear: &Linear) -> Result<String, AllocError> {
    let mut text = String::new(alloc);
    for place in 0..linear.names.len() {
        let name = str::from_utf8(linear.names.at(place).bytes()).unwrap_or("?");
        let number = linear.c.get(place as usize).copied().unwrap_or(0);
        write!(text, "{number} {name}, ")?;
    }
    let (bound, den) = (linear.b, linear.q);
    write!(text, "{bound} over {den}")?;
    Ok(text)
}

// The sum or the refusal.
fn linear_shown(alloc: Global, answer: Result<Linear, TermFault>) -> Result<String, AllocError> {
    match answer {
        Ok(linear) => linear_text(alloc, &linear),
        Err(fault) => format!(in alloc; "{fault}"),
    }
}

fn value_shown(
    alloc: Global,
    answer: Result<(i128, i128), TermFault>,
) -> Result<String, AllocError> {
    match answer {
        Ok((num, den)) => format!(in alloc; "{num}/{den}"),
        Err(fault) => format!(in alloc; "{fault}"),
    }
}

fn assert_term(rt: &impl Abort, alloc: Global, names: &Names, line: &str) {
    let (text, wanted) = line.split_once(" => ").unwrap_or((line, ""));
    assert!(rt; text.len() <= MOST_TEXT);
    let answer = read_term(alloc, text.as_bytes(), names);
    let shown = rows_shown(alloc, answer).expect(rt, "memory");
    assert_eq!(rt; shown.as_str(), wanted, "{text}");
}

#[test]
fn a_term_has_its_rows_or_its_first_fault(rt: HostRuntime) {
    let names = names_of(&rt, rt.alloc(), "x y");
    for line in TERMS.lines() {
        assert_term(&rt, rt.alloc(), &names, line);
    }
}

// The constants `cap = 3/2` and `low = -1/3`.
fn constants_of(rt: &impl Abort, alloc: Global) -> Result<Constants, AllocError>
    ensures { IfOk result (λ c. All IsConstant c.values.items) }
{
    let names = names_of(rt, alloc, "cap low");
    match Vec::from_array(alloc, [(3, 2), (-1, 3)]) {
        Ok(values) => Ok(Constants { names, values }),
        Err(_) => Err(AllocError),
    }
}

fn assert_with_constants(rt: &impl Abort, alloc: Global, names: &Names, line: &str) {
    let (text, wanted) = line.split_once(" => ").unwrap_or((line, ""));
    assert!(rt; text.len() <= MOST_TEXT);
    let constants = constants_of(rt, alloc).expect(rt, "memory");
    let answer = read_term_with(alloc, text.as_bytes(), names, &constants);
    let shown = rows_shown(alloc, answer).expect(rt, "memory");
    assert_eq!(rt; shown.as_str(), wanted, "{text}");
}

#[test]
fn a_constant_is_a_factor_and_no_variable(rt: HostRuntime) {
    let names = names_of(&rt, rt.alloc(), "x");
    for line in WITH_CONSTANTS.lines() {
        assert_with_constants(&rt, rt.alloc(), &names, line);
    }
}

fn assert_plain(rt: &impl Abort, alloc: Global, line: &str) {
    let (text, wanted) = line.split_once(" => ").unwrap_or((line, ""));
    assert!(rt; text.len() <= MOST_TEXT);
    let shown = linear_shown(alloc, read_plain(alloc, text.as_bytes())).expect(rt, "memory");
    assert_eq!(rt; shown.as_str(), wanted, "{text}");
}

#[test]
fn a_plain_has_its_sum_or_its_first_fault(rt: HostRuntime) {
    for line in PLAINS.lines() {
        assert_plain(&rt, rt.alloc(), line);
    }
}

fn assert_value(rt: &impl Abort, alloc: Global, line: &str) {
    let (text, wanted) = line.split_once(" => ").unwrap_or((line, ""));
    assert!(rt; text.len() <= MOST_TEXT);
    let shown = value_shown(alloc, read_value(alloc, text.as_bytes())).expect(rt, "memory");
    assert_eq!(rt; shown.as_str(), wanted, "{text}");
}

#[test]
fn a_value_has_its_fraction_or_its_first_fault(rt: HostRuntime) {
    for line in VALUES.lines() {
        assert_value(&rt, rt.alloc(), line);
    }
}
