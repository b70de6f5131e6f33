// The operator RN: rows in rising order by p and the keys, ties as they stood, numbered from 1 within equal p.
#![tactic(auto)]

mod laying;

ghost use Rattle.std.specs.Prelude.{◌+◌, ◌≤◌, length};
ghost use Rattle.laws.specs.Attempt.{gives};
ghost use Rattle.meaning.specs.Operators;
ghost use Rattle.tables.specs.Layout.{table_at, Inside, Owes};
ghost use Rattle.row_order.specs.Order.{columns_of, KeyColumns};

use row_order::Keys;
use tables::{Laid, Stand, Unlaid};

// RN of the table, laid at `at`. It never fails. Room is tested before anything is sorted: at most 32,768 rows are.
// `order` and `aside` are lent to work in: what they hold does not matter.
pub fn number(
    work: &mut [i64],
    s: Stand,
    p: usize,
    keys: Keys,
    order: &mut [u16],
    aside: &mut [u16],
    at: usize,
    room: usize,
) -> Laid
    requires inside { (Inside at s) × (at ≤ room) × (room ≤ length work.old) × (room ≤ 65536) }
    requires key_columns { KeyColumns s.width p keys }
    requires in_bounds { (32768 ≤ length order.old) × (16384 ≤ length aside.old) }
    ensures { Owes room at (s.width + 1)
        (gives (Operators.number (table_at work.old s) p (columns_of keys)))
        work.old work.new result }
{
    let n = s.rows;
    if n == 0 {
        return Ok(0);
    }
    if room - at < n * (s.width + 1) {
        return Err(Unlaid::Full);
    }
    sorting::arrange(work, s, p, keys, order, aside);
    laying::lay(work, s, p, order, at);
    Ok(n)
}
