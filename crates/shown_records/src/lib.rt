// The records of a plan, one after another, and the fields of each.
#![tactic(auto)]

ghost use Rattle.std.specs.Prelude.{◌≡◌, ◌+◌, ◌-◌, ◌≤◌, ◌<◌, length};
ghost use Rattle.shown_records.specs.Records.{Within, size_of, field_at, Ahead};

use cells::{byte, fits, int8, word2};
use codes::marks::{RA, RD, RJ, RU, RX};

// A record: the offset after it, and the width of its table; none where it does not suit the tables before it.
#[derive(Clone, Copy)]
pub struct Seen {
    pub next: usize,
    pub width: Option<usize>,
}

// What a field shows: a number or a cell.
#[derive(Clone, Copy)]
pub enum Shown {
    Number(usize),
    Cell(i64),
}

// The record of operator n, whose table is made of tables whose widths stand first in a lent slice; none where no
// record stands. Widths are 1 to 6, so no operator makes a table of another.
pub fn look(plan: &[u8], at: usize, widths: &[u8], n: usize) -> Option<Seen>
    requires { n ≤ length widths.now }
    ensures { Within (length plan.now) at result }
{
    if !fits(plan, at, 2) {
        return None;
    }
    let Some(found) = plan_records::read(plan, at) else {
        return None;
    };
    let width = plan_widths::width_of(plan, found.operator, widths, n);
    Some(Seen {
        next: found.next,
        width: width.filter(|w| matches!(w, 1..=6)),
    })
}

// How many bytes a field has that begins so many bytes after its record.
#[tactic(auto, unfolding(crate::specs::Records::size_of))]
fn size(mark: usize, after: usize) -> usize
    ensures { result ≡ size_of mark after }
{
    match (mark, after) {
        (_, 2) => 2,
        (RA, _) => 8,
        (RU | RD, _) => 2,
        (RJ, 5) | (RX, 6) => 2,
        _ => 1,
    }
}

// The field at an offset, of the record that stands at `at` and ends at `end`, and the offset after it; none where
// the record has no more.
#[tactic(auto, using(crate::proofs::Fielding::size_some))]
pub fn next_field(plan: &[u8], at: usize, from: usize, end: usize) -> Option<(Shown, usize)>
    requires { (at + 2 ≤ from) × (from < end) × (end ≤ length plan.now) }
    ensures { (result ≡ field_at plan.now at from end) × Ahead from end result }
{
    let n = size(word2(plan, at), from - at);
    if end - from < n {
        return None;
    }
    let shown = match n {
        8 => Shown::Cell(int8(plan, from)),
        2 => Shown::Number(word2(plan, from)),
        _ => Shown::Number(byte(plan, from)),
    };
    Some((shown, from + n))
}
