// Rows equal to a row (RD).
ghost use Rattle.std.specs.Prelude.{◌≡◌, [], ◌∷◌, cond, ◌+◌, ◌≤◌, length};
ghost use Rattle.laws.specs.Lists.{any};
ghost use Rattle.laws.specs.Rows.{row};
ghost use Rattle.laws.specs.Attempt.{gives};
ghost use Rattle.meaning.specs.Operators.{same_row};
ghost use Rattle.tables.specs.Layout.{table_at, Inside, Owes};

use tables::{Laid, Stand};

// Whether some row of s equals the row of width w at cell a. The search is left at the first equal row: there are
// rows left exactly where one was found. At most s's cells are looked at.
pub fn has_equal(work: &[i64], a: usize, w: usize, s: Stand) -> bool
    requires { (a + w ≤ length work.now) × Inside (length work.now) s × (s.width ≡ w) }
    ensures { result ≡ any (same_row (row work.now a w)) (table_at work.now s) }
{
    // As it is: a form that document 01 names, a labelled break in nested loops, left at the first equal row.
    let mut b = s.at;
    let mut left = s.rows;
    'search: while 0 < left {
        let mut i: usize = 0;
        loop {
            if i == w {
                break 'search;
            }
            if !cells::same(work[a + i], work[b + i]) {
                break;
            }
            i += 1;
        }
        b += w;
        left -= 1;
    }
    0 < left
}

// The row, where it equals no row of s.
pub fn minus(work: &mut [i64], a: usize, w: usize, s: Stand, at: usize, room: usize) -> Laid
    requires { (a + w ≤ at) × (at ≤ room) × (room ≤ length work.old) × Inside at s × (s.width ≡ w) }
    ensures { Owes room at w
        (gives (cond (any (same_row (row work.old a w)) (table_at work.old s))
        [] (row work.old a w ∷ [])))
        work.old work.new result }
{
    if has_equal(work, a, w, s) {
        Ok(0)
    } else {
        crate::repeat(work, a, w, at, room)
    }
}
