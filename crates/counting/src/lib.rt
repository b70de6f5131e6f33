// How many rows a group has (RC).
#![tactic(auto)]

ghost use Rattle.std.specs.Prelude.{◌≡◌, [], ◌∷◌, ◌+◌, ◌≤◌, ◌<◌, pos, length};
ghost use Rattle.laws.specs.Attempt.{gives};
ghost use Rattle.meaning.specs.Operators.{group_of};
ghost use Rattle.tables.specs.Layout.{table_at, Inside, Owes};
ghost use Rattle.members.specs.Grouped.{in_front};

use tables::order::{cell_at, holds};
use tables::{Laid, Stand, Unlaid};

// A row of two cells.
pub fn pair(work: &mut [i64], x: i64, y: i64, at: usize, room: usize) -> Laid
    requires { (at ≤ room) × (room ≤ length work.old) }
    ensures { Owes room at 2 (gives ((x ∷ y ∷ []) ∷ [])) work.old work.new result }
{
    if room - at < 2 {
        return Err(Unlaid::Full);
    }
    work[at] = x;
    work[at + 1] = y;
    Ok(1)
}

// How many rows hold the first row's cell of column c. Each row is looked at once.
pub fn count_rows(work: &[i64], s: Stand, c: usize) -> usize
    requires { Inside (length work.now) s × (c < s.width) × (0 < s.rows) }
    ensures { (result ≤ s.rows) × (result ≡ length
        (group_of (table_at work.now s) c (in_front (table_at work.now s) c))) }
{
    let x = cell_at(work, s, c, 0);
    let mut n: usize = 0;
    for i in 0..s.rows {
        if holds(work, s, c, i, x) {
            n += 1;
        }
    }
    n
}

// The row that RC makes of the first row's group, whose rows are all in s: the cell, and how many rows it has.
pub fn count_group(work: &mut [i64], s: Stand, c: usize, at: usize, room: usize) -> Laid
    requires inside { Inside at s × (0 < s.rows) × (at ≤ room) × (room ≤ length work.old) }
    requires c_lt_width { (c < s.width) × (room ≤ 65536) }
    ensures { Owes room at 2 (gives ((in_front (table_at work.old s) c
        ∷ pos (length (group_of (table_at work.old s) c (in_front (table_at work.old s) c))) ∷ [])
        ∷ []))
        work.old work.new result }
{
    let x = cell_at(work, s, c, 0);
    let n = count_rows(work, s, c);
    pair(work, x, n as i64, at, room)
}
