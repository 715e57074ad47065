// The texts of contracts, and of what holds of their rows.
ghost use Rattle.std.specs.Prelude.{◌≡◌, ◌++◌, OnOk, IfOk, All, length};
ghost use Rattle.pa_meaning.specs.Contracts.{ports};
ghost use Rattle.pa_cert.specs.AnswerText as spec;

use crate::pieces::{push_number, push_weights};
use pa_contract::{Contract, Tested};
use pa_names::Names;
use pa_row::{Row, Weights};
use pa_script::push_names;
use pa_term::push_row;
use std::alloc::AllocError;

// A word, and then the names.
fn push_names_line(text: &mut Vec<u8>, word: &str, names: &Names) -> Result<(), AllocError>
    ensures { OnOk result (text.new.items ≡ text.old.items ++ spec.names_line word.now names.now) }
{
    text.extend_from_slice(word.as_bytes())?;
    push_names(text, names)?;
    text.extend_from_slice(b"\n")
}

// A word, and then the row.
fn push_row_line(text: &mut Vec<u8>, word: &str, names: &Names, row: &Row) -> Result<(), AllocError>
    requires { length row.now.c ≡ length names.now }
    ensures { OnOk result (text.new.items ≡ text.old.items ++ spec.row_line word.now names.now row.now) }
{
    text.extend_from_slice(word.as_bytes())?;
    push_row(text, row, names)?;
    text.extend_from_slice(b"\n")
}

// A line for each row, which begins with the word.
fn push_rows(text: &mut Vec<u8>, word: &str, names: &Names, rows: &[Row]) -> Result<(), AllocError>
    requires { All (λ row. length row.c ≡ length names.now) rows.now }
    ensures { OnOk result (text.new.items ≡ text.old.items ++ spec.rows_lines word.now names.now rows.now) }
{
    for row in rows {
        push_row_line(text, word, names, row)?;
    }
    Ok(())
}

// Whether there is a mark at a place.
fn is_marked(marks: &[bool], place: usize) -> bool
    ensures { result ≡ spec.is_marked marks.now place }
{
    marks.get(place).copied().unwrap_or(false)
}

// A guarantee, which narrows the inputs where it is marked.
fn push_guarantee(
    text: &mut Vec<u8>,
    marks: &[bool],
    names: &Names,
    place: usize,
    row: &Row,
) -> Result<(), AllocError>
    requires { length row.now.c ≡ length names.now }
    ensures { OnOk result (text.new.items ≡ text.old.items ++ spec.guarantee_line marks.now names.now place row.now) }
{
    let word = if is_marked(marks, place) {
        "narrows "
    } else {
        "guarantee "
    };
    push_row_line(text, word, names, row)
}

// A line for each guarantee.
fn push_guarantees(
    text: &mut Vec<u8>,
    marks: &[bool],
    names: &Names,
    rows: &[Row],
) -> Result<(), AllocError>
    requires { All (λ row. length row.c ≡ length names.now) rows.now }
    ensures { OnOk result (text.new.items ≡ text.old.items ++ spec.guarantees_text marks.now names.now 0 rows.now) }
{
    for (place, row) in rows.iter().enumerate() {
        push_guarantee(text, marks, names, place, row)?;
    }
    Ok(())
}

// The names of a contract's ports, inputs first.
fn port_names(contract: &Contract) -> Result<Names, AllocError>
    ensures { IfOk result (λ names. names ≡ ports contract.now) }
{
    match contract.inputs.union(&contract.outputs) {
        Ok(names) => Ok(names),
        Err(_) => Err(AllocError),
    }
}

// The ports, and then the rows over them, the guarantees by their marks.
pub(crate) fn push_contract(
    text: &mut Vec<u8>,
    marks: &[bool],
    contract: &Contract,
) -> Result<(), AllocError>
    ensures { OnOk result (text.new.items ≡ text.old.items ++ spec.marked_text marks.now contract.now) }
{
    let ports = port_names(contract)?;
    push_names_line(text, "inputs", &contract.inputs)?;
    push_names_line(text, "outputs", &contract.outputs)?;
    push_rows(text, "assume ", &contract.inputs, &contract.assumptions)?;
    push_guarantees(text, marks, &ports, &contract.guarantees)
}

// Whether a row is met.
fn push_word(text: &mut Vec<u8>, kind: &str, place: usize, met: bool) -> Result<(), AllocError>
    ensures { OnOk result (text.new.items ≡ text.old.items ++ spec.word_line kind.now place met) }
{
    text.extend_from_slice(kind.as_bytes())?;
    push_number(text, place as u64)?;
    text.extend_from_slice(if met { b" met\n" } else { b" broken\n" })
}

fn push_words(text: &mut Vec<u8>, kind: &str, words: &[bool]) -> Result<(), AllocError>
    ensures { OnOk result (text.new.items ≡ text.old.items ++ spec.words_lines kind.now 0 words.now) }
{
    for (place, met) in words.iter().enumerate() {
        push_word(text, kind, place, *met)?;
    }
    Ok(())
}

// What a contract is at a point.
pub(crate) fn push_tested(text: &mut Vec<u8>, tested: &Tested) -> Result<(), AllocError>
    ensures { OnOk result (text.new.items ≡ text.old.items ++ spec.tested_text tested.now) }
{
    text.extend_from_slice(if tested.keeps {
        b"keeps\n"
    } else {
        b"breaks\n"
    })?;
    push_words(text, "assume ", &tested.assumptions)?;
    push_words(text, "guarantee ", &tested.guarantees)
}

// Weights that prove the row at a place.
fn push_proof(
    text: &mut Vec<u8>,
    kind: &str,
    place: usize,
    weights: &Weights,
) -> Result<(), AllocError>
    ensures { OnOk result (text.new.items ≡ text.old.items ++ spec.proof_line kind.now place weights.now) }
{
    text.extend_from_slice(kind.as_bytes())?;
    push_number(text, place as u64)?;
    text.extend_from_slice(b" ")?;
    push_weights(text, weights)?;
    text.extend_from_slice(b"\n")
}

fn push_proofs(text: &mut Vec<u8>, kind: &str, proofs: &[Weights]) -> Result<(), AllocError>
    ensures { OnOk result (text.new.items ≡ text.old.items ++ spec.proofs_lines kind.now 0 proofs.now) }
{
    for (place, weights) in proofs.iter().enumerate() {
        push_proof(text, kind, place, weights)?;
    }
    Ok(())
}

// Weights for each assumption of the first contract, and for each guarantee of the second.
pub(crate) fn push_yes(
    text: &mut Vec<u8>,
    assumptions: &[Weights],
    guarantees: &[Weights],
) -> Result<(), AllocError>
    ensures { OnOk result (text.new.items ≡ text.old.items ++ spec.yes_text assumptions.now guarantees.now) }
{
    text.extend_from_slice(b"yes\n")?;
    push_proofs(text, "proof assume ", assumptions)?;
    push_proofs(text, "proof guarantee ", guarantees)
}
