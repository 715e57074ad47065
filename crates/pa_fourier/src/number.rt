// Numbers of a row in a column.
ghost use Rattle.std.specs.Prelude.{◌≡◌, ◌<◌, length};
ghost use Rattle.pa_ring.specs.Sums.{number_at};
ghost use Rattle.pa_row.specs.Width.{Fits};
ghost use Rattle.pa_meaning.specs.Rows.{without_column};

use pa_row::Row;

// The number of the row in the column.
#[tactic(auto, using(pa_meaning::proofs::Places::number_at_read))]
pub(crate) fn number_in(row: &Row, column: u32) -> i128
    requires { column < length row.now.c }
    ensures value { result ≡ number_at row.now.c column }
    ensures narrow { Fits result }
{
    row.c[column as usize]
}

// Takes the column out of the row.
pub(crate) fn remove_column(row: &mut Row, column: u32)
    requires { column < length row.old.c }
    ensures { row.new ≡ without_column column row.old }
{
    row.c.remove(column as usize);
}
