// Lines and scripts on worked values.
use crate::lines::read_op;
use crate::{LineKind, ScriptFault, ScriptLine, read_script, write_line};
use std::alloc::Global;
use std::process::Abort;

// The canonical text of a line, or the first kind of its faults.
fn text_of(alloc: Global, line: &[u8]) -> Result<Vec<u8>, ScriptFault> {
    let op = read_op(alloc, 7, line)?;
    Ok(write_line(alloc, &ScriptLine { number: 7, op })?)
}

fn assert_line(rt: &impl Abort, alloc: Global, line: &[u8], text: &str) {
    match text_of(alloc, line) {
        Ok(written) => assert_eq!(rt; written.as_slice(), text.as_bytes(), "{text}"),
        Err(fault) => assert!(rt; false, "{text}: {fault:?}"),
    }
}

fn assert_written(rt: &impl Abort, alloc: Global, line: &str, text: &str) {
    assert_line(rt, alloc, line.as_bytes(), text);
}

fn assert_fault(rt: &impl Abort, alloc: Global, line: &[u8], kind: LineKind, shows: &str) {
    match text_of(alloc, line) {
        Ok(_) => assert!(rt; false, "{shows}"),
        Err(fault) => assert_eq!(rt; fault, ScriptFault::Line { number: 7, kind }, "{shows}"),
    }
}

// Each of these lines has this kind of fault.
fn assert_faults(rt: &impl Abort, alloc: Global, kind: LineKind, lines: &str) {
    for line in lines.lines() {
        assert_fault(rt, alloc, line.as_bytes(), kind, line);
    }
}

#[test]
fn a_line_is_written_with_single_spaces_and_fractions_in_lowest_terms(rt: HostRuntime) {
    assert_written(&rt, rt.alloc(), "limit\trows  12 ", "limit rows 12");
    assert_written(&rt, rt.alloc(), "limit pivots 4096", "limit pivots 4096");
    assert_written(&rt, rt.alloc(), " merge M =\tA B", "merge M = A B");
    assert_written(&rt, rt.alloc(), "test C at", "test C at");
    assert_written(
        &rt,
        rt.alloc(),
        "test C at x=0.50 y=-6/8 z=+2e3",
        "test C at x=1/2 y=-3/4 z=2000",
    );
    assert_written(
        &rt,
        rt.alloc(),
        "test C at x=-0 y=1e18",
        "test C at x=0 y=1000000000000000000",
    );
    assert_written(&rt, rt.alloc(), "refine A A", "refine A A");
    assert_written(&rt, rt.alloc(), "bound C max p", "bound C max p");
}

#[test]
fn sums_and_lists_of_names_are_written_with_single_spaces(rt: HostRuntime) {
    assert_written(
        &rt,
        rt.alloc(),
        "bound C min 2x - 3/6 y + 4/2",
        "bound C min 2 x - 1/2 y + 2",
    );
    assert_written(
        &rt,
        rt.alloc(),
        "bound C max   1/3 x\t+ 1",
        "bound C max 1/3 x + 1",
    );
    assert_written(&rt, rt.alloc(), "bound C max x - x - 3", "bound C max -3");
    assert_written(&rt, rt.alloc(), "bound C max x - x", "bound C max 0");
    assert_written(&rt, rt.alloc(), "hide R = C x y", "hide R = C x y");
    assert_written(&rt, rt.alloc(), "compose R = A", "compose R = A");
    assert_written(
        &rt,
        rt.alloc(),
        "compose R = A A B  keep x y",
        "compose R = A A B keep x y",
    );
    assert_written(&rt, rt.alloc(), "quotient X = W D", "quotient X = W D");
}

// Lines by the first kind of their faults.
const WORD: &str = "limits rows 5";

const SHAPE: &str = "limit rows
limit rows 1 2
limit columns 0
merge M A B
merge M = A B C
test C x=1
test 1 at x
refine A
bound C max
bound C most x
hide R = C
compose R =
compose R = keep x
compose R = A keep
quotient X W D";

const NAME: &str = "merge 1 = A B
merge keep = A B
test C at =1
test C at 1=a
refine A 2
bound 1 max x <= 1
hide R = C 2 x x
compose R = A keep x keep";

const NUMBER: &str = "limit rows 0
limit rows 4097
limit pivots 007
limit rows +5
limit rows 99999999999999999999
test C at x=1=2
test C at x=
test C at x=2x
test C at x=1/0
test C at x=1234567890123456789
test C at x=1/999999999999999989 y=1/999999999999999967 z=1/999999999999999877
test C at x=1 x=a
bound C max x <= 1
bound C max 1e19 x
bound C max 1e18 (1e18 (1e18 x))";

const REPEAT: &str = "test C at x=1 x=1
hide R = C x x
compose R = A keep x x";

#[test]
fn the_first_kind_of_a_lines_faults_is_told(rt: HostRuntime) {
    assert_faults(&rt, rt.alloc(), LineKind::Word, WORD);
    assert_faults(&rt, rt.alloc(), LineKind::Shape, SHAPE);
    assert_faults(&rt, rt.alloc(), LineKind::Name, NAME);
    assert_faults(&rt, rt.alloc(), LineKind::Number, NUMBER);
    assert_faults(&rt, rt.alloc(), LineKind::Repeat, REPEAT);
}

// A text, some copies of another one, and an end.
fn repeated(
    rt: &impl Abort,
    alloc: Global,
    front: &str,
    piece: &str,
    count: u32,
    end: &str,
) -> Vec<u8> {
    let mut text = Vec::from_slice(alloc, front.as_bytes()).expect(rt, "memory");
    for _ in 0..count {
        text.extend_from_slice(piece.as_bytes())
            .expect(rt, "memory");
    }
    text.extend_from_slice(end.as_bytes()).expect(rt, "memory");
    text
}

// A composition of as many parts.
fn composition(rt: &impl Abort, alloc: Global, part: &str, count: u32, end: &str) -> Vec<u8> {
    repeated(rt, alloc, "compose R =", part, count, end)
}

fn assert_composition_fault(
    rt: &impl Abort,
    alloc: Global,
    part: &str,
    count: u32,
    end: &str,
    kind: LineKind,
) {
    let line = composition(rt, alloc, part, count, end);
    assert_fault(rt, alloc, &line, kind, end);
}

#[test]
fn a_composition_has_at_most_32_parts(rt: HostRuntime) {
    let parts = composition(&rt, rt.alloc(), " A", 32, " keep x");
    assert!(rt; text_of(rt.alloc(), &parts).is_ok());
    assert_composition_fault(&rt, rt.alloc(), " A", 32, " keep", LineKind::Shape);
    assert_composition_fault(&rt, rt.alloc(), " 1", 33, "", LineKind::Limit);
    assert_composition_fault(&rt, rt.alloc(), " 1", 33, " keep", LineKind::Limit);
    assert_composition_fault(&rt, rt.alloc(), " 1", 33, " keep x x", LineKind::Limit);
}

#[test]
fn a_line_has_at_most_4096_bytes(rt: HostRuntime) {
    let long = repeated(&rt, rt.alloc(), "refine A B", " ", 4086, "");
    assert_line(&rt, rt.alloc(), &long, "refine A B");
    let longer = repeated(&rt, rt.alloc(), "refines A", " ", 4088, "");
    assert_fault(&rt, rt.alloc(), &longer, LineKind::Limit, "4,097 bytes");
}

fn assert_numbers(rt: &impl Abort, alloc: Global, text: &[u8], numbers: &[u32]) {
    let script = read_script(alloc, text).expect(rt, "a script");
    assert_eq!(rt; script.lines.len(), numbers.len());
    for (line, number) in script.lines.iter().zip(numbers) {
        assert_eq!(rt; line.number, *number);
    }
}

fn assert_counted(rt: &impl Abort, alloc: Global, text: &str, numbers: &[u32]) {
    assert_numbers(rt, alloc, text.as_bytes(), numbers);
}

#[test]
fn lines_are_counted_with_those_that_are_skipped(rt: HostRuntime) {
    assert_counted(&rt, rt.alloc(), "", &[]);
    assert_counted(&rt, rt.alloc(), "\n\n", &[]);
    assert_counted(&rt, rt.alloc(), "limit rows 1", &[1]);
    assert_counted(
        &rt,
        rt.alloc(),
        "limit rows 1\r\n\r\n \t\r\nmerge M = A B\n",
        &[1, 4],
    );
    assert_counted(
        &rt,
        rt.alloc(),
        "# merge M A B\n#\n  #limit\nlimit rows 1\n",
        &[4],
    );
    assert_counted(
        &rt,
        rt.alloc(),
        "\nmerge M = A B\n\nlimit pivots 9\n",
        &[2, 4],
    );
    assert_counted(&rt, rt.alloc(), "merge M = A B\r\nmerge N = A B", &[1, 2]);
    assert_counted(&rt, rt.alloc(), "limit rows 5\nrefine A B\n", &[1, 2]);
}

fn refusal(alloc: Global, text: &[u8]) -> Option<ScriptFault> {
    read_script(alloc, text).err()
}

fn assert_first(rt: &impl Abort, alloc: Global, text: &str, number: u32, kind: LineKind) {
    let fault = ScriptFault::Line { number, kind };
    assert_eq!(rt; refusal(alloc, text.as_bytes()), Some(fault), "{text}");
}

#[test]
fn the_first_faulty_line_is_told(rt: HostRuntime) {
    assert_first(&rt, rt.alloc(), "merge M A B\n", 1, LineKind::Shape);
    assert_first(
        &rt,
        rt.alloc(),
        "#\n\nlimit rows 0\nlimit\n",
        3,
        LineKind::Number,
    );
    assert_first(
        &rt,
        rt.alloc(),
        "refine A B\nlimit rows 0\n",
        2,
        LineKind::Number,
    );
    assert_first(&rt, rt.alloc(), "limit rows 5\r", 1, LineKind::Number);
    assert_first(&rt, rt.alloc(), "merge M = A B\r", 1, LineKind::Name);
    assert_first(&rt, rt.alloc(), "\r", 1, LineKind::Word);
    assert_first(&rt, rt.alloc(), "limit rows 5\r\r\n", 1, LineKind::Number);
}

// A thousand lines with a meaning, and some end.
fn many_lines(rt: &impl Abort, alloc: Global, end: &str) -> Vec<u8> {
    repeated(rt, alloc, "#\n", "limit rows 1\n", 1000, end)
}

#[test]
fn a_script_has_at_most_1000_lines(rt: HostRuntime) {
    let lines = many_lines(&rt, rt.alloc(), "\n#\n");
    let script = read_script(rt.alloc(), &lines).expect(&rt, "a script");
    assert_eq!(rt; script.lines.len(), 1000);
    let more = many_lines(&rt, rt.alloc(), "\n#\nlimits");
    let kind = LineKind::Limit;
    let fault = ScriptFault::Line { number: 1004, kind };
    assert_eq!(rt; refusal(rt.alloc(), &more), Some(fault));
}

#[test]
fn a_script_has_at_most_262144_bytes(rt: HostRuntime) {
    let comment = repeated(&rt, rt.alloc(), "#", "#", 262_143, "");
    assert_numbers(&rt, rt.alloc(), &comment, &[]);
    let long = repeated(&rt, rt.alloc(), "#", "#", 262_144, "");
    assert_eq!(rt; refusal(rt.alloc(), &long), Some(ScriptFault::TooLong));
}
