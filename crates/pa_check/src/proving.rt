// Whether weights prove rows.
ghost use Rattle.std.specs.Prelude.{◌≡◌, ℕ, All, Decides, IfOk, length};
ghost use Rattle.pa_meaning.specs.Weights.{Proves};
ghost use Rattle.pa_holds.specs.Refined.{ProveEach};
ghost use Rattle.pa_check.specs.Proofs.{are_below, proof_in, proofs_in};

use pa_frac::Wide;
use pa_row::{Row, Weights, covers, show_canonical};

// Whether each weight's place is below the number.
pub(crate) fn are_placed(parts: &[(u32, i128)], count: usize) -> bool
    ensures { result ≡ are_below count parts.now }
{
    parts.iter().all(|part| (part.0 as usize) < count)
}

/// Whether the weights prove the row over the rows (Farkas, Theorie der einfachen Ungleichungen,
/// 1902). A place that is none of the rows' fails before any sum. `Wide` exactly where all places are
/// in range and `covers` is. All rows have equally many columns.
#[tactic(auto, using(crate::proofs::Proofs::placed_from, crate::proofs::Proofs::proof_told, crate::proofs::Proofs::proof_fails))]
pub fn proves(rows: &[Row], row: &Row, w: &Weights) -> Result<bool, Wide>
    requires columns { All (λ r. length r.c ≡ length row.now.c) rows.now }
    ensures answer { result ≡ proof_in rows.now row.now w.now }
    ensures truth { IfOk result (λ passed. Decides passed (Proves w.now rows.now row.now)) }
{
    if !are_placed(&w.parts, rows.len()) {
        return Ok(false);
    }
    covers(rows, row, w)
}

// Whether there is one weights for each asked row, and each proves its row.
#[tactic(auto, using(crate::proofs::Turns::with_turn, crate::proofs::Turns::with_lacking, crate::proofs::Turns::with_none_left, crate::proofs::Turns::with_too_many))]
fn each_proved(rows: &[Row], asked: &[Row], weights: &[Weights], columns: u32) -> Result<bool, Wide>
    requires columns { All (λ r. length r.c ≡ columns) rows.now }
    requires asked_columns { All (λ r. length r.c ≡ columns) asked.now }
    ensures { result ≡ proofs_in rows.now asked.now weights.now }
{
    for place in 0..asked.len() {
        if place >= weights.len() {
            return Ok(false);
        }
        if !proves(rows, &asked[place], &weights[place])? {
            return Ok(false);
        }
    }
    Ok(asked.len() == weights.len())
}

/// Whether there is one weights for each asked row, and each proves its row over the rows. They are
/// tested in order; one that is lacking fails where it would stand, and one too many after the last.
/// `Wide` exactly where a sum passes 126 bits before a test fails. All rows have this many columns.
#[tactic(auto, using(crate::proofs::Proofs::proofs_told))]
pub fn prove_each(
    rows: &[Row],
    asked: &[Row],
    weights: &[Weights],
    columns: u32,
) -> Result<bool, Wide>
    requires columns { All (λ r. length r.c ≡ columns) rows.now }
    requires asked_columns { All (λ r. length r.c ≡ columns) asked.now }
    ensures answer { result ≡ proofs_in rows.now asked.now weights.now }
    ensures truth { IfOk result (λ passed. Decides passed (ProveEach rows.now asked.now weights.now)) }
{
    show_canonical(weights);
    each_proved(rows, asked, weights, columns)
}
