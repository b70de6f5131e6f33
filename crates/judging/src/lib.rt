// The truth of a group's items (RE), by rule QI: its first item decides, and whether there are more.
#![tactic(auto)]

ghost use Rattle.std.specs.Prelude.{◌≡◌, cond, [], ◌∷◌, ◌≤◌, ◌<◌, length, get_or, drop};
ghost use Rattle.cells.specs.Cell;
ghost use Rattle.items.specs.Answers;
ghost use Rattle.laws.specs.Attempt.{gives, attempt};
ghost use Rattle.meaning.specs.Operators.{group_of, items_in_order};
ghost use Rattle.meaning.specs.World;
ghost use Rattle.tables.specs.Layout.{table_at, Inside, Owes};
ghost use Rattle.members.specs.Grouped.{in_front};
ghost use Rattle.judging.specs.Foremost.{least};
ghost use Rattle.tables.specs.Order.{cell_at};

use counting::{count_rows, pair};
use tables::order::{cell_at, holds, precedes};
use tables::{Laid, Stand, Unlaid};

// Of the rows `best` and i the one that comes first in the group of x: row i, where it is of the group and has the
// lesser column 1.
fn better(work: &[i64], s: Stand, x: i64, best: usize, i: usize) -> usize
    requires { Inside (length work.now) s × (s.width ≡ 3) × (best < s.rows) × (i < s.rows) }
    ensures { result ≡ cond (Cell.same x (cell_at (table_at work.now s) 0 i))
        (cond (Cell.before (cell_at (table_at work.now s) 1 i) (cell_at (table_at work.now s) 1 best))
        i best) best }
{
    if holds(work, s, 0, i, x) && precedes(work, s, 1, i, best) {
        i
    } else {
        best
    }
}

// The row that comes first in the group of the first row: least column 1, then earliest. Each row is looked at once.
fn first_of(work: &[i64], s: Stand) -> usize
    requires { Inside (length work.now) s × (s.width ≡ 3) × (0 < s.rows) }
    ensures { (result < s.rows) × (get_or (table_at work.now s) result []
        ≡ least (get_or (table_at work.now s) 0 [])
        (group_of (drop 1 (table_at work.now s)) 0 (in_front (table_at work.now s) 0))) }
{
    let x = cell_at(work, s, 0, 0);
    let mut best: usize = 0;
    for i in 1..s.rows {
        best = better(work, s, x, best, i);
    }
    best
}

// The truth of items of which this one is the first, and the only one where it is alone: no other matters.
fn judge(item: i64, alone: bool) -> Option<bool>
    ensures { Answers.judged result ≡ World.truth (item ∷ cond alone [] (item ∷ [])) }
{
    if alone {
        let one = [item; 1];
        return items::truth(&one);
    }
    let two = [item; 2];
    items::truth(&two)
}

// The truth of the items of the first row's group. Each row is looked at twice.
pub fn group_truth(work: &[i64], s: Stand) -> Option<bool>
    requires { Inside (length work.now) s × (s.width ≡ 3) × (0 < s.rows) }
    ensures { Answers.judged result ≡ World.truth
        (items_in_order (group_of (table_at work.now s) 0 (in_front (table_at work.now s) 0))) }
{
    let first = first_of(work, s);
    let n = count_rows(work, s, 0);
    judge(cell_at(work, s, 2, first), n == 1)
}

// The row that RE makes of the first row's group, whose rows are all in s: the cell, and the truth of its items.
pub fn truth_group(work: &mut [i64], s: Stand, at: usize, room: usize) -> Laid
    requires inside { Inside at s × (0 < s.rows) × (at ≤ room) × (room ≤ length work.old) }
    requires width_value { s.width ≡ 3 }
    ensures { Owes room at 2 (attempt (World.truth
        (items_in_order (group_of (table_at work.old s) 0 (in_front (table_at work.old s) 0))))
        (λ b. gives ((in_front (table_at work.old s) 0 ∷ Cell.truth_cell b ∷ []) ∷ [])))
        work.old work.new result }
{
    let judged = group_truth(work, s);
    let b = judged.ok_or(Unlaid::Fails)?;
    let x = cell_at(work, s, 0, 0);
    pair(work, x, cells::truth_cell(b), at, room)
}
