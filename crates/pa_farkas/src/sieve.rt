// Rows that the others of a list imply.
ghost use Rattle.std.specs.Prelude.{◌≡◌, ◌≤◌, ◌<◌, ◌+◌, ◌++◌, ◌∷◌, [], ℕ, All, AllPairs, IfOk, Ok, length, take};
ghost use Rattle.pa_math.specs.Answers.{IsAnswer, and_then, seen_as, told_as};
ghost use Rattle.pa_witness.specs.Thinning.{cleaned as cleaned_rows};
ghost use Rattle.pa_fourier.specs.Cleaning.{clean_in};
ghost use Rattle.pa_tableau.specs.Work.{HasRoom};
ghost use Rattle.pa_bland.specs.Seen.{KeepsRoom};
ghost use Rattle.pa_row.specs.declared.place.Halt.TheVariants as Halt;
ghost use Rattle.pa_row.specs.declared.place.Task.TheVariants as Task;
ghost use Rattle.pa_farkas.specs.Alternatives.{IsCover, IsThinning};
ghost use Rattle.pa_farkas.specs.Answered as spec;
ghost use Rattle.pa_farkas.specs.FewBases.{HasFewBases, IsNotLimited};
ghost use Rattle.pa_farkas.specs.Seen.{CanStart, IsFiltered, IsNext, IsReady, asked_about, dropped as dropped_of, numbers_from, put_back as put_back_of, start_of, taken as taken_of};

use crate::cover::covered_in;
use crate::fault::clean_halt;
use pa_fourier::clean;
use pa_frac::Wide126;
use pa_row::{Dropped, Group, Halt, Row, Task, Weights, copy_rows};
use pa_tableau::Work;
use std::alloc::Global;
use std::marker::Model;

/// A list of rows without those that the others imply.
#[derive(Drop)]
pub struct Thinned {
    /// The rows that stay, in order.
    pub rows: Vec<Row>,
    /// The rows that were dropped, in order, with weights that prove each over the rows that were left then and the
    /// context. They are numbered as they stand after the clean, and the context after them.
    pub drops: Vec<Dropped>,
}

impl Model for Thinned {
    ghost use Rattle.pa_farkas.specs.Alternatives.{Thinning};

    ghost Value = { Thinning };

    ghost view = { λ t. record { rows = t.rows.items; drops = t.drops.items } };
}

// A list of rows that is filtered, with the places that its rows had at first: those in front of `next` stay, and the
// others are yet to be asked about.
#[derive(Drop)]
struct Filter {
    rows: Vec<Row>,
    places: Vec<u32>,
    drops: Vec<Dropped>,
    next: usize,
}

impl Model for Filter {
    ghost use Rattle.pa_farkas.specs.Seen.{Filtering};

    ghost Value = { Filtering };

    ghost view = { λ f. record { rows = f.rows.items; places = f.places.items; drops = f.drops.items; next = f.next } };
}

// The place of a part, by the places of the rows.
fn at_place(part: (u32, i128), places: &[u32]) -> (u32, i128)
    requires { part.0 < length places.now }
    ensures { result ≡ spec.at_place places.now part }
{
    (places[part.0 as usize], part.1)
}

// The weights over rows at these places, by the places.
fn at_places(alloc: Global, w: &Weights, places: &[u32]) -> Result<Weights, Halt>
    requires placed { All (λ part. part.0 < length places.now) w.now.parts }
    requires ascending { AllPairs (λ (a b : ℕ). a < b) places.now }
    ensures { IsAnswer Halt.Memory (Ok (spec.at_places places.now w.now)) result }
{
    let Ok(mut parts) = Vec::with_capacity(alloc, w.parts.len()) else {
        return Err(Halt::Memory);
    };
    for part in &w.parts {
        parts.push_reserved(at_place(*part, places));
    }
    Ok(Weights { den: w.den, parts })
}

// The rows, and copies of the context behind them.
fn joined(alloc: Global, mut rows: Vec<Row>, context: &[Row]) -> Result<Vec<Row>, Halt>
    ensures { IsAnswer Halt.Memory (Ok (rows.items ++ context.now)) (seen_as (λ v. v.items) result) }
{
    let Ok(mut copies) = copy_rows(alloc, context) else {
        return Err(Halt::Memory);
    };
    match rows.append(&mut copies) {
        Ok(()) => Ok(rows),
        Err(_) => Err(Halt::Memory),
    }
}

// The places of this many rows.
fn places_of(alloc: Global, count: usize) -> Result<Vec<u32>, Halt>
    requires { count ≤ 4096 }
    ensures { IsAnswer Halt.Memory (Ok (numbers_from 0 count)) (seen_as (λ v. v.items) result) }
{
    let Ok(mut places) = Vec::with_capacity(alloc, count) else {
        return Err(Halt::Memory);
    };
    for place in 0..count {
        places.push_reserved(place as u32);
    }
    Ok(places)
}

// A row of a filter in hand, with its place and the others.
#[derive(Drop)]
struct InHand {
    row: Row,
    place: u32,
    others: Filter,
}

impl Model for InHand {
    ghost use Rattle.pa_farkas.specs.Seen.{InHand as InHandValue};

    ghost Value = { InHandValue };

    ghost view = { λ t. record { row = t.row; place = t.place; others = t.others } };
}

// The next row is taken in hand.
#[tactic(auto, using(crate::proofs::Filters::row_read))]
fn taken(filter: Filter) -> InHand
    requires next { filter.next < length filter.rows }
    requires place { filter.next < length filter.places }
    ensures { result ≡ taken_of filter }
{
    let Filter {
        mut rows,
        mut places,
        drops,
        next,
    } = filter;
    let row = rows.remove(next);
    let place = places.remove(next);
    InHand {
        row,
        place,
        others: Filter {
            rows,
            places,
            drops,
            next,
        },
    }
}

// The row in hand is put back, and stays.
fn put_back(taken: InHand) -> Result<Filter, Halt>
    requires ready { IsReady taken }
    ensures { IsAnswer Halt.Memory (Ok (put_back_of taken)) result }
{
    let InHand { row, place, others } = taken;
    let Filter {
        mut rows,
        mut places,
        drops,
        next,
    } = others;
    let Ok(()) = rows.insert(next, row) else {
        return Err(Halt::Memory);
    };
    let Ok(()) = places.insert(next, place) else {
        return Err(Halt::Memory);
    };
    Ok(Filter {
        rows,
        places,
        drops,
        next: next + 1,
    })
}

// The drops, and one more.
fn with_drop(mut drops: Vec<Dropped>, row: u32, weights: Weights) -> Result<Vec<Dropped>, Halt>
    ensures { IsAnswer Halt.Memory (Ok (drops.items ++ record { row = row; weights = weights } ∷ [])) (seen_as (λ v. v.items) result) }
{
    match drops.push(Dropped { row, weights }) {
        Ok(()) => Ok(drops),
        Err(_) => Err(Halt::Memory),
    }
}

// The row in hand is dropped by weights over the others.
fn dropped(alloc: Global, taken: InHand, w: Weights) -> Result<Filter, Halt>
    requires placed { All (λ part. part.0 < length taken.others.places) w.parts }
    requires ascending { AllPairs (λ (a b : ℕ). a < b) taken.others.places }
    ensures { IsAnswer Halt.Memory (Ok (dropped_of taken w)) result }
{
    let InHand { place, others, .. } = taken;
    let Filter {
        rows,
        places,
        drops,
        next,
    } = others;
    let weights = at_places(alloc, &w, &places)?;
    let drops = with_drop(drops, place, weights)?;
    Ok(Filter {
        rows,
        places,
        drops,
        next,
    })
}

// Which weights over the others cover the row in hand.
fn cover(
    alloc: Global,
    work: &mut Work<Wide126>,
    taken: &InHand,
    most: u32,
    group: Group,
) -> Result<Option<Weights>, Halt>
    requires ready { IsReady taken.now }
    requires room { HasRoom (length taken.now.row.c) (length taken.now.others.rows) work.old }
    requires most { most ≤ 4096 }
    ensures room { KeepsRoom work.old work.new }
    ensures exact { IsAnswer Halt.Memory (spec.covered_of taken.now.others.rows taken.now.row most (Task.Filter group taken.now.place)) result }
    ensures truth { IfOk result (IsCover taken.now.others.rows taken.now.row) }
{
    let task = Task::Filter {
        group,
        row: taken.place,
    };
    covered_in(alloc, work, &taken.others.rows, &taken.row, most, task)
}

// The row in hand stays, or is dropped where the others cover it.
fn decided(
    alloc: Global,
    work: &mut Work<Wide126>,
    taken: InHand,
    most: u32,
    group: Group,
) -> Result<Filter, Halt>
    requires ready { IsReady taken }
    requires room { HasRoom (length taken.row.c) (length taken.others.rows) work.old }
    requires most { most ≤ 4096 }
    ensures room { KeepsRoom work.old work.new }
    ensures exact { IsAnswer Halt.Memory (asked_about group most taken) result }
    ensures step { IfOk result (IsNext taken) }
{
    match cover(alloc, work, &taken, most, group)? {
        Some(w) => dropped(alloc, taken, w),
        None => put_back(taken),
    }
}

// The first rows of the list, as many as these, stay or are dropped one after another.
fn filtered(
    alloc: Global,
    work: &mut Work<Wide126>,
    start: Filter,
    count: usize,
    columns: u32,
    most: u32,
    group: Group,
) -> Result<Filter, Halt>
    requires start { start ≡ start_of start.rows }
    requires can { CanStart columns start.rows }
    requires count { count ≤ length start.rows }
    requires room { HasRoom columns (length start.rows) work.old }
    requires most { most ≤ 4096 }
    ensures room { KeepsRoom work.old work.new }
    ensures exact { IsAnswer Halt.Memory (spec.filtered group start.rows most [] 0 count) (seen_as (λ f. f.drops) result) }
    ensures state { IfOk result (IsFiltered start.rows count) }
{
    let mut filter = start;
    for _place in 0..count {
        filter = match decided(alloc, work, taken(filter), most, group) {
            Ok(next) => next,
            Err(fault) => return Err(fault),
        };
    }
    Ok(filter)
}

// What is left of the first rows, and their drops.
fn front(filter: Filter) -> Thinned
    requires { filter.next ≤ length filter.rows }
    ensures { result ≡ record { rows = take filter.next filter.rows; drops = filter.drops } }
{
    let Filter {
        mut rows,
        drops,
        next,
        ..
    } = filter;
    rows.truncate(next);
    Thinned { rows, drops }
}

// The rows and the context behind them, before any row was asked about.
fn start(alloc: Global, rows: Vec<Row>, context: &[Row]) -> Result<Filter, Halt>
    requires { length rows.items + length context.now ≤ 4096 }
    ensures { IsAnswer Halt.Memory (Ok (start_of (rows.items ++ context.now))) result }
{
    let rows = joined(alloc, rows, context)?;
    let places = places_of(alloc, rows.len())?;
    Ok(Filter {
        rows,
        places,
        drops: Vec::new(alloc),
        next: 0,
    })
}

// The rows that are not needless at sight, with how many they are, and the context behind them.
#[tactic(auto, using(crate::proofs::FilterTurns::cleaned_fewer))]
fn cleaned(
    alloc: Global,
    rows: &[Row],
    context: &[Row],
    columns: u32,
    group: Group,
) -> Result<(Filter, usize), Halt>
    requires columns { All (λ r. length r.c ≡ columns) rows.now }
    requires few { length rows.now + length context.now ≤ 4096 }
    ensures exact { IsAnswer Halt.Memory (told_as (spec.clean_halt group) (and_then (clean_in columns rows.now) (λ kept. Ok (start_of (kept ++ context.now), length kept)))) result }
    ensures value { IfOk result (λ cleaned. (cleaned.0 ≡ start_of (cleaned_rows columns rows.now ++ context.now)) × (cleaned.1 ≡ length (cleaned_rows columns rows.now))) }
{
    let kept = match clean(alloc, rows, columns) {
        Ok(kept) => kept,
        Err(fault) => return Err(clean_halt(group, fault)),
    };
    let count = kept.len();
    let start = start(alloc, kept, context)?;
    Ok((start, count))
}

// The rows that the clean and the others leave, over a work that serves many questions.
fn thinned_in(
    alloc: Global,
    work: &mut Work<Wide126>,
    rows: &[Row],
    context: &[Row],
    columns: u32,
    most: u32,
    group: Group,
) -> Result<Thinned, Halt>
    requires columns { All (λ r. length r.c ≡ columns) rows.now }
    requires context_columns { All (λ r. length r.c ≡ columns) context.now }
    requires few { length rows.now + length context.now ≤ 4096 }
    requires short { columns ≤ 128 }
    requires room { HasRoom columns (length rows.now + length context.now) work.old }
    requires most { most ≤ 4096 }
    ensures room { KeepsRoom work.old work.new }
    ensures answer { IsAnswer Halt.Memory (spec.thinned_of columns rows.now context.now most group) result }
    ensures truth { IfOk result (IsThinning columns rows.now context.now) }
{
    let (start, count) = cleaned(alloc, rows, context, columns, group)?;
    let filter = filtered(alloc, work, start, count, columns, most, group)?;
    Ok(front(filter))
}

/// The rows without those that are needless at sight, which `pa_fourier::clean` leaves out, and then without those that
/// the others imply, over a work that serves many questions. From the first row to the last, a row is dropped where the
/// rows that are left then and the context cover it, without the row itself (`covered`; J. Telgen, Minimal representation
/// of convex polyhedral sets, 1982). At a point that meets the context, the rows that stay are met exactly where the given
/// ones are. In the drops the rows are numbered as they stand after the clean, and the context behind them.
///
/// Rows and context have this many columns, at most 128, there are at most 4,096 of them together, the work has room, and
/// `most` is at most 4,096. `Wide` names a comparison of the clean by its row, and else `PivotLimit` and `Wide` name the row
/// in hand and the spot, as `covered` does; they come of the first row where they do. `Memory` where memory runs out.
/// `PivotLimit` never comes where `most_bases` of the numbers of rows, with the context, and of columns is at most `most`.
pub fn thin_in(
    alloc: Global,
    work: &mut Work<Wide126>,
    rows: &[Row],
    context: &[Row],
    columns: u32,
    most: u32,
    group: Group,
) -> Result<Thinned, Halt>
    requires columns { All (λ r. length r.c ≡ columns) rows.now }
    requires context_columns { All (λ r. length r.c ≡ columns) context.now }
    requires few { length rows.now + length context.now ≤ 4096 }
    requires short { columns ≤ 128 }
    requires room { HasRoom columns (length rows.now + length context.now) work.old }
    requires most { most ≤ 4096 }
    ensures room { KeepsRoom work.old work.new }
    ensures answer { IsAnswer Halt.Memory (spec.thinned_of columns rows.now context.now most group) result }
    ensures truth { IfOk result (IsThinning columns rows.now context.now) }
    ensures unlimited { HasFewBases (length rows.now + length context.now) columns most → IsNotLimited result }
{
    thinned_in(alloc, work, rows, context, columns, most, group)
}

/// The same in a work of its own.
pub fn thin(
    alloc: Global,
    rows: &[Row],
    context: &[Row],
    columns: u32,
    most: u32,
    group: Group,
) -> Result<Thinned, Halt>
    requires columns { All (λ r. length r.c ≡ columns) rows.now }
    requires context_columns { All (λ r. length r.c ≡ columns) context.now }
    requires few { length rows.now + length context.now ≤ 4096 }
    requires short { columns ≤ 128 }
    requires most { most ≤ 4096 }
    ensures answer { IsAnswer Halt.Memory (spec.thinned_of columns rows.now context.now most group) result }
    ensures truth { IfOk result (IsThinning columns rows.now context.now) }
    ensures unlimited { HasFewBases (length rows.now + length context.now) columns most → IsNotLimited result }
{
    let Ok(mut work) = Work::new(alloc, columns, (rows.len() + context.len()) as u32) else {
        return Err(Halt::Memory);
    };
    thin_in(alloc, &mut work, rows, context, columns, most, group)
}
