// The rows in the order of their numbers, each with its counter.
ghost use Rattle.std.specs.Prelude.{◌≡◌, [], ◌∷◌, ◌++◌, ◌+◌, ◌≤◌, ◌<◌, pos, length};
ghost use Rattle.laws.specs.Rows.{row, laid, flat};
ghost use Rattle.meaning.specs.Operators.{in_group};
ghost use Rattle.row_order.specs.Order.{from, Low};
ghost use Rattle.numbering.specs.Numbered.{counter_of, numbered_rows, Layable};

use row_order::{start, tied};
use tables::{Stand, copy};

// The row of width w at cell a, and its counter, laid at `to`.
fn lay_row(work: &mut [i64], a: usize, w: usize, c: usize, to: usize)
    requires { (a + w ≤ to) × (to + w < length work.old) × (c ≤ 65536) }
    ensures { work.new ≡ laid work.old to (row work.old a w ++ (pos c ∷ [])) }
{
    copy(work, a, w, to);
    work[to + w] = c as i64;
}

// Whether rows i and j are of one group: by p, and all of them where p is 255.
// As it is: (a) 255 for no p is the word of the definition, Operators.number, and of the record RN.
fn in_group(work: &[i64], s: Stand, p: usize, i: u16, j: u16) -> bool
    requires { Low s }
    ensures { result ≡ in_group p (from work.now s i) (from work.now s j) }
{
    p == 255 || tied(work, start(s, i), start(s, j), p)
}

// The counter of row i, where row j stands in front of it and has the counter c.
fn counter(work: &[i64], s: Stand, p: usize, i: u16, j: u16, c: usize) -> usize
    requires { (Low s) × (c < 65536) }
    ensures { result ≡ counter_of (in_group p (from work.now s i) (from work.now s j)) c }
{
    if in_group(work, s, p, i, j) { c + 1 } else { 1 }
}

// The rows of the table in the order of their numbers, laid from `at` on.
pub fn lay(work: &mut [i64], s: Stand, p: usize, order: &[u16], at: usize)
    requires { Layable work.old s p order.now at }
    ensures { work.new ≡ laid work.old at
        (flat (numbered_rows work.old s p (row order.now 0 s.rows))) }
{
    let n = s.rows;
    let w = s.width;
    let mut to = at;
    let mut c: usize = 0;
    let mut last: u16 = 0;
    for i in 0..n {
        let k = order[i];
        c = counter(work, s, p, k, last, c);
        lay_row(work, start(s, k), w, c, to);
        to += w + 1;
        last = k;
    }
}
