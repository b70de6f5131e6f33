// The cells that a call is lent: how many of them count, and how they are copied and cleared.
#![tactic(auto)]

ghost use Rattle.std.specs.Prelude.{◌≡◌, ◌+◌, ◌≤◌, pos, length, take};
ghost use Rattle.laws.specs.Rows.{row, laid, padded};
ghost use Rattle.meaning.specs.Calls.{room};
ghost use Rattle.lent.specs.Apart.{Apart};

use codes::limits::CELLS;

// The cells of work that count.
#[tactic(auto, unfolding(meaning::specs::Calls::room))]
pub fn room_of(lent: usize) -> usize
    ensures { result ≡ room lent }
{
    lent.min(CELLS)
}

// Copies n cells to `to`: down over themselves, or up past themselves.
pub fn copy(work: &mut [i64], from: usize, n: usize, to: usize)
    requires { Apart from n to × (from + n ≤ length work.old) × (to + n ≤ length work.old) }
    ensures { work.new ≡ laid work.old to (row work.old from n) }
{
    work.copy_within(from..from + n, to);
}

// Zeroes every cell from `from` on.
pub fn clear(work: &mut [i64], from: usize)
    requires { from ≤ length work.old }
    ensures { work.new ≡ padded (pos 0) (length work.old) (take from work.old) }
{
    work[from..].fill(0);
}
