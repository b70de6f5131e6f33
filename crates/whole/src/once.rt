// Cells that occur once (RK).
ghost use Rattle.std.specs.Prelude.{◌≡◌, ◌+◌, ◌≤◌, ◌<◌, length};
ghost use Rattle.laws.specs.Attempt.{gives, provided};
ghost use Rattle.meaning.specs.Operators;
ghost use Rattle.tables.specs.Layout.{table_at, Inside, Owes};

use tables::order::{cell_at, occurs, rises};
use tables::{Laid, Stand, Unlaid};

// Whether no cell of column c stands there again further down: each row against those below it.
fn apart(work: &[i64], s: Stand, c: usize) -> bool
    requires { Inside (length work.now) s × (c < s.width) }
    ensures { result ≡ Operators.once (Operators.column (table_at work.now s) c) }
{
    for i in 0..s.rows {
        let next = i + 1;
        let below = Stand {
            at: s.at + next * s.width,
            rows: s.rows - next,
            ..s
        };
        if occurs(work, cell_at(work, s, c, i), below, c) {
            return false;
        }
    }
    true
}

// Whether no cell of column c occurs twice. One pass where the column rises; else each row against those below it.
pub fn unrepeated(work: &[i64], s: Stand, c: usize) -> bool
    requires { Inside (length work.now) s × (c < s.width) }
    ensures { result ≡ Operators.once (Operators.column (table_at work.now s) c) }
{
    rises(work, s, c) || apart(work, s, c)
}

// RK: the table once more, where no cell of column c occurs twice.
pub fn once(work: &mut [i64], s: Stand, c: usize, at: usize, room: usize) -> Laid
    requires { Inside at s × (at ≤ room) × (room ≤ length work.old) × (c < s.width) }
    ensures { Owes room at s.width
        (provided (Operators.once (Operators.column (table_at work.old s) c))
        (gives (table_at work.old s)))
        work.old work.new result }
{
    if !unrepeated(work, s, c) {
        return Err(Unlaid::Fails);
    }
    crate::again(work, s, at, room)
}
