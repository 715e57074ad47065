// The sums of a direction with rows.
ghost use Rattle.std.specs.Prelude.{◌≡◌, ◌≤◌, All, length};
ghost use Rattle.pa_shift.specs.Shifting as spec;

use pa_frac::Wide;
use pa_row::{Row, dot};

/// How much the target rises along the direction, once the sums of the rows with the direction were formed.
#[tactic(auto, using(crate::proofs::Turns::rise_turn, crate::proofs::Turns::rise_end))]
pub(crate) fn rise(rows: &[Row], target: &[i128], direction: &[i128]) -> Result<i128, Wide>
    requires columns { All (λ r. length r.c ≤ length direction.now) rows.now }
    requires target_columns { length target.now ≤ length direction.now }
    ensures { result ≡ spec.rise_in direction.now target.now rows.now }
{
    for row in rows {
        match dot(&row.c, direction) {
            Ok(_) => {}
            Err(wide) => return Err(wide),
        }
    }
    dot(target, direction)
}
