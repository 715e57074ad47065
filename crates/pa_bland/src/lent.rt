// A problem over rows that are lent.
ghost use Rattle.std.specs.Prelude.{◌≡◌, ◌<◌, ◌≤◌, All, length};
ghost use Rattle.std.specs.List.{slice_index_or};
ghost use Rattle.pa_frac.specs.Width.{Fits};
ghost use Rattle.pa_meaning.specs.Rows.{Row as RowValue};
ghost use Rattle.pa_replay.specs.Problem.{IsPosed};
ghost use Rattle.pa_ring.specs.Sums.{without};

use pa_row::Row;
use std::marker::Model;

/// A problem whose rows and target are lent, without the row at one place: so a list of rows is asked about
/// each of them, and never copied. Past the end of the list no row is left out.
#[derive(Drop)]
pub struct LentProblem<'a> {
    rows: &'a [Row],
    skipped: usize,
    target: &'a [i128],
}

impl<'a> Model for LentProblem<'a> {
    ghost use Rattle.pa_replay.specs.Problem.{Problem as ProblemValue, IsPosed};
    ghost use Rattle.pa_ring.specs.Sums.{without};

    ghost Value = { ProblemValue };

    ghost view = { λ p. record { rows = without p.skipped p.rows.now; target = p.target.now } };

    ghost invariant = { λ p. IsPosed (record { rows = without p.skipped p.rows.now; target = p.target.now }) };
}

impl<'a> LentProblem<'a> {
    /// The problem of these rows without the one at a place, and of this target. The conditions are those of
    /// `Problem`.
    pub fn new(rows: &'a [Row], skipped: usize, target: &'a [i128]) -> LentProblem<'a>
        requires { IsPosed (record { rows = without skipped rows.now; target = target.now }) }
        ensures { result ≡ record { rows = without skipped rows.now; target = target.now } }
    {
        LentProblem {
            rows,
            skipped,
            target,
        }
    }

    /// How many rows there are.
    #[tactic(auto, using(crate::proofs::Omitted::fewer_without, crate::proofs::Omitted::all_without))]
    pub(crate) fn count(&self) -> u32
        ensures count { result ≡ length self.now.rows }
        ensures few { result ≤ 4096 }
        ensures posed { IsPosed self.now }
    {
        let count = self.rows.len();
        if self.skipped < count {
            (count - 1) as u32
        } else {
            count as u32
        }
    }

    /// The row at a place.
    #[tactic(auto, using(crate::proofs::Omitted::row_before, crate::proofs::Omitted::row_behind, crate::proofs::Omitted::place_before, crate::proofs::Omitted::place_behind))]
    pub(crate) fn row(&self, place: usize) -> &Row
        requires { place < length self.now.rows }
        ensures row { (d : RowValue) → result.now ≡ slice_index_or self.now.rows place d }
        ensures columns { length result.now.c ≡ length self.now.target }
    {
        if place < self.skipped {
            &self.rows[place]
        } else {
            &self.rows[place + 1]
        }
    }

    /// The target.
    pub(crate) fn target(&self) -> &[i128]
        ensures target { result.now ≡ self.now.target }
        ensures short { length result.now ≤ 128 }
        ensures narrow { All (Fits 126) result.now }
    {
        self.target
    }
}
