// Rows over which others are shifted.
ghost use Rattle.std.specs.Prelude.{◌≡◌, ◌≤◌, ◌<ℤ◌, [], All, IfOk, length, pos};
ghost use Rattle.pa_math.specs.Answers.{seen_as};
ghost use Rattle.pa_shift.specs.Shifting as spec;
ghost use Rattle.pa_shift.specs.Seen.{with_costs};

use crate::cost::costed_rows;
use pa_frac::Wide;
use pa_row::{Point, Row, RowFault};
use std::alloc::{AllocError, Global};
use std::marker::Model;

/// Rows that are given, over all columns, and a nominal point over the first of them: its columns stay, and those behind
/// them go. What each row costs at the point is held beside it, so that many terms are shifted over the same rows, and more
/// rows can come.
#[derive(Drop)]
pub struct Premises {
    nominal: Point,
    rows: Vec<Row>,
    // The rows over the columns that go, each with its slack at the nominal point, or that one of these is too wide.
    costs: Result<Vec<Row>, Wide>,
}

impl Model for Premises {
    ghost use Rattle.std.specs.Prelude.{◌≡◌, ◌≤◌, All, length};
    ghost use Rattle.pa_math.specs.Answers.{seen_as};
    ghost use Rattle.pa_shift.specs.Shifting.{Premises as PremisesValue, costed_in};

    ghost Value = { PremisesValue };

    ghost view = { λ p. record { nominal = p.nominal; rows = p.rows.items } };

    ghost invariant = { λ p. (seen_as (λ v. v.items) p.costs ≡ costed_in p.nominal p.rows.items)
        × All (λ r. length p.nominal.p ≤ length r.c) p.rows.items };
}

// The rows with these others from the place on.
fn with_rows_at(rows: Vec<Row>, place: usize, mut others: Vec<Row>) -> Result<Vec<Row>, AllocError>
    requires { place ≤ length rows.items }
    ensures { IfOk result (λ all. all.items ≡ spec.with_between place others.items rows.items) }
{
    let mut all = rows;
    let mut rest = all.split_off(place)?;
    all.append(&mut others)?;
    all.append(&mut rest)?;
    Ok(all)
}

// The costs of rows with those of others from the place on, or that one is too wide.
fn more_costs(
    alloc: Global,
    costs: Result<Vec<Row>, Wide>,
    place: usize,
    others: &[Row],
    nominal: &Point,
) -> Result<Result<Vec<Row>, Wide>, AllocError>
    requires columns { All (λ r. length nominal.now.p ≤ length r.c) others.now }
    requires place { IfOk costs (λ rows. place ≤ length rows.items) }
    ensures { IfOk result (λ all. seen_as (λ v. v.items) all ≡ with_costs place (spec.costed_in nominal.now others.now) (seen_as (λ v. v.items) costs)) }
{
    let Ok(rows) = costs else {
        return Ok(Err(Wide));
    };
    match costed_rows(alloc, others, nominal) {
        Ok(more) => {
            let all = with_rows_at(rows, place, more)?;
            Ok(Ok(all))
        }
        Err(RowFault::Wide) => Ok(Err(Wide)),
        Err(RowFault::Memory) => Err(AllocError),
    }
}

impl Premises {
    /// No rows, and this nominal point. Takes no memory.
    pub fn new(alloc: Global, nominal: Point) -> Premises
        ensures { result ≡ record { nominal = nominal; rows = [] } }
    {
        Premises {
            nominal,
            rows: Vec::new(alloc),
            costs: Ok(Vec::new(alloc)),
        }
    }

    /// The nominal point.
    pub fn nominal(&self) -> &Point
        ensures { result.now ≡ self.now.nominal }
    {
        &self.nominal
    }

    /// The rows.
    pub fn rows(&self) -> &[Row]
        ensures { result.now ≡ self.now.rows }
    {
        &self.rows
    }

    /// The rows by themselves. Nothing is copied.
    pub fn into_rows(self) -> Vec<Row>
        ensures { result.items ≡ self.rows }
    {
        let Premises { rows, .. } = self;
        rows
    }

    // Shows a proof that the denominator of the nominal point is positive, as its type says.
    pub(crate) fn show_positive(&self)
        ensures { pos 0 <ℤ self.now.nominal.q }
    {
        let _den = self.nominal.q;
    }

    // The rows over the columns that go, each with its cost, or that a cost is too wide.
    pub(crate) fn costs(&self) -> Result<&[Row], Wide>
        ensures { seen_as (λ rows. rows.now) result ≡ spec.costed_in self.now.nominal self.now.rows }
    {
        match &self.costs {
            Ok(rows) => Ok(rows),
            Err(_) => Err(Wide),
        }
    }

    /// These rows, with others from the given place on: the costs of the others alone are formed. Each of the others has at
    /// least the columns of the nominal point.
    pub fn with_rows(
        self,
        alloc: Global,
        place: usize,
        others: Vec<Row>,
    ) -> Result<Premises, AllocError>
        requires place { place ≤ length self.rows }
        requires columns { All (λ r. length self.nominal.p ≤ length r.c) others.items }
        ensures { IfOk result (λ all. all ≡ record { nominal = self.nominal; rows = spec.with_between place others.items self.rows }) }
    {
        let Premises {
            nominal,
            rows,
            costs,
        } = self;
        let Ok(costs) = more_costs(alloc, costs, place, &others, &nominal) else {
            return Err(AllocError);
        };
        let Ok(rows) = with_rows_at(rows, place, others) else {
            return Err(AllocError);
        };
        Ok(Premises {
            nominal,
            rows,
            costs,
        })
    }
}
