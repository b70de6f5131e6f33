// Tables laid end to end in lent cells: where one stands, what an operator answers, and how the cells of a column are
// ordered.
#![tactic(auto)]

pub mod order;

ghost use Rattle.std.specs.Prelude.{◌≡◌, ◌+◌, ◌≤◌, length};
ghost use Rattle.laws.specs.Rows.{row, laid};

// Where a table stands: its first cell, its rows and its width.
#[derive(Clone, Copy)]
pub struct Stand {
    pub at: usize,
    pub rows: usize,
    pub width: usize,
}

// Why an operator lays no table: its rows would pass the room, or it fails.
#[derive(Clone, Copy)]
pub enum Unlaid {
    Full,
    Fails,
}

// What an operator answers: how many rows it laid, or why none.
pub type Laid = Result<usize, Unlaid>;

// Copies n cells that stand below `to` to there.
pub fn copy(work: &mut [i64], from: usize, n: usize, to: usize)
    requires { (from + n ≤ to) × (to + n ≤ length work.old) }
    ensures { work.new ≡ laid work.old to (row work.old from n) }
{
    work.copy_within(from..from + n, to);
}
