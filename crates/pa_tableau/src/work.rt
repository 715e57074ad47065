// The cells, the basis and the signs of a tableau.
ghost use Rattle.std.specs.Prelude.{◌≡◌, ◌≤◌, ◌<◌, ◌+◌, IfOk, false, map, pos, replicate, true, []};
ghost use Rattle.std.specs.List.{slice_index_or, slice_set};
ghost use Rattle.pa_frac.specs.Operations.{is_zero};
ghost use Rattle.pa_math.specs.Rational.{whole};
ghost use Rattle.pa_tableau.specs.Arithmetic.{at_width, left_by};
ghost use Rattle.pa_tableau.specs.Tableau.{cell, cleared, pivoted};
ghost use Rattle.pa_tableau.specs.Work.{HasRoom};

use crate::WideAt;
use crate::cells::{cell_at, pivot_cells, set_at};
use crate::fills::{clear, count_from, turn_back};
use pa_frac::Fraction;
use std::alloc::{AllocError, Global};
use std::marker::Model;

/// A reserved tableau.
#[derive(Drop)]
pub struct Work<F: Fraction> {
    cells: Vec<F>,
    pivot_line: Vec<F>,
    basis: Vec<u32>,
    turned: Vec<bool>,
    most_lines: u32,
    most_rows: u32,
    lines: u32,
    columns: u32,
}

impl<F: Fraction> Model for Work<F> {
    ghost use Rattle.pa_tableau.specs.Work.{Work as WorkValue};
    ghost use Rattle.pa_tableau.specs.LinesOf.{lines_of};
    ghost use Rattle.std.specs.Prelude.{◌+◌, ◌*◌, ◌≤◌, ◌<◌, map, take, length};

    ghost Value = { WorkValue };

    ghost view = { λ w. record {
      most_lines = w.most_lines;
      most_rows = w.most_rows;
      lines = w.lines;
      columns = w.columns;
      table = record {
        lines = lines_of (w.lines + 2) w.columns (map F.value w.cells.items);
        basis = take w.lines w.basis.items;
        turned = take w.lines w.turned.items;
      };
    } };

    ghost invariant = { λ w.
        (w.most_lines ≤ 128) × (w.most_rows ≤ 4096) × (w.lines ≤ w.most_lines) × (w.lines < w.columns) × (w.columns ≤ w.most_lines + w.most_rows + 1)
        × ((w.most_lines + 2) * (w.most_lines + w.most_rows + 1) ≤ length w.cells.items)
        × (w.most_lines + w.most_rows + 1 ≤ length w.pivot_line.items) × (w.most_lines ≤ length w.basis.items) × (w.most_lines ≤ length w.turned.items) };
}

impl<F: Fraction> Work<F> {
    /// Room for any problem with at most `columns` rows of at most `lines` numbers. The conditions
    /// are that `lines` is at most 128 and `columns` at most 4,096.
    pub fn new(alloc: Global, lines: u32, columns: u32) -> Result<Work<F>, AllocError>
        requires lines { lines ≤ 128 }
        requires columns { columns ≤ 4096 }
        ensures { IfOk result (λ w. (w.most_lines ≡ lines) × (w.most_rows ≡ columns)) }
    {
        let width = lines as usize + columns as usize + 1;
        let zero = F::zero();
        Ok(Work {
            cells: Vec::from_elem(alloc, zero, (lines as usize + 2) * width)?,
            pivot_line: Vec::from_elem(alloc, zero, width)?,
            basis: Vec::from_elem(alloc, 0, lines as usize)?,
            turned: Vec::from_elem(alloc, false, lines as usize)?,
            most_lines: lines,
            most_rows: columns,
            lines: 0,
            columns: 1,
        })
    }

    /// Begins a tableau of a problem with `rows` rows of `lines` numbers: all cells are 0, the basic
    /// column of line i is the i-th artificial one, `rows + i`, and no sign is turned.
    pub fn begin(&mut self, lines: u32, rows: u32)
        requires { HasRoom lines rows self.old }
        ensures { self.new ≡ record self.old { lines = lines; columns = lines + rows + 1; table = cleared lines rows } }
    {
        self.lines = lines;
        self.columns = lines + rows + 1;
        clear(
            &mut self.cells,
            (lines as usize + 2) * self.columns as usize,
            F::zero(),
        );
        count_from(&mut self.basis, rows, lines as usize);
        turn_back(&mut self.turned, lines as usize);
    }

    /// The pivot.
    pub fn pivot(&mut self, number: u32, line: u32, column: u32) -> Result<(), WideAt>
        requires line { line < self.old.lines }
        requires column { column + 1 < self.old.columns }
        requires nonzero { is_zero (cell self.old.table line column) ≡ false }
        ensures table { left_by result self.new.table ≡ pivoted (at_width F.WIDTH) number line column self.old.table }
        ensures room { (self.new.most_lines ≡ self.old.most_lines) × (self.new.most_rows ≡ self.old.most_rows) × (self.new.lines ≡ self.old.lines) × (self.new.columns ≡ self.old.columns) }
    {
        self.basis[line as usize] = column;
        pivot_cells(
            number,
            line,
            column,
            self.lines + 2,
            self.columns,
            &mut self.pivot_line,
            &mut self.cells,
        )
    }

    /// A cell.
    pub fn cell(&self, line: u32, column: u32) -> F
        requires line { line < self.now.lines + 2 }
        requires column { column < self.now.columns }
        ensures { F.value result ≡ cell self.now.table line column }
    {
        cell_at(&self.cells, self.columns as usize, line, column as usize)
    }

    /// The basic column of a line.
    pub fn basis(&self, line: u32) -> u32
        requires { line < self.now.lines }
        ensures { result ≡ slice_index_or self.now.table.basis line 0 }
    {
        self.basis[line as usize]
    }

    /// Whether the sign of a line is -1.
    pub fn is_turned(&self, line: u32) -> bool
        requires { line < self.now.lines }
        ensures { result ≡ slice_index_or self.now.table.turned line false }
    {
        self.turned[line as usize]
    }

    /// Makes the sign of a line -1.
    pub fn turn(&mut self, line: u32)
        requires { line < self.old.lines }
        ensures { self.new ≡ record self.old { table = record self.old.table { turned = slice_set self.old.table.turned line true } } }
    {
        self.turned[line as usize] = true;
    }

    /// Writes a cell.
    pub fn set(&mut self, line: u32, column: u32, value: F)
        requires line { line < self.old.lines + 2 }
        requires column { column < self.old.columns }
        ensures { self.new ≡ record self.old { table = record self.old.table { lines = slice_set self.old.table.lines line (slice_set (slice_index_or self.old.table.lines line []) column (F.value value)) } } }
    {
        set_at(
            &mut self.cells,
            self.columns as usize,
            line,
            column as usize,
            value,
        );
    }
}
