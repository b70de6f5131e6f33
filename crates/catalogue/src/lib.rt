// The catalogue's check: every row, then the sizes.
#![tactic(auto)]

ghost use Rattle.std.specs.Prelude.{◌≡◌, ◌+◌, ◌*◌, ◌-◌, ◌≤◌, ◌<◌, length};
ghost use Rattle.codes.specs.Refusals.{refusal};
ghost use Rattle.codes.specs.declared.refusals.Reason.TheVariants as Reasons;
ghost use Rattle.meaning.specs.Calls;
ghost use Rattle.meaning.specs.Catalogue;
ghost use Rattle.doc_rows.specs.Fields;
ghost use Rattle.catalogue.specs.Answers;

use cells::Rank;
use codes::limits::ROWS;
use codes::refusals::{Reason, Refusal};

// The refusal of the row at an offset.
fn unsound(at: usize) -> Refusal
    ensures { result ≡ refusal Reasons.Catalogue at }
{
    Refusal {
        reason: Reason::Catalogue,
        place: at,
    }
}

// The row checks, left to right: the number of rows, or the refusal of the first row that is unsound.
fn rows_sound(doc: &[u8]) -> Result<usize, Refusal>
    ensures { Answers.counted result ≡ Catalogue.rows_sound 2048 doc.now 0 0 }
{
    let mut most: usize = 0;
    for r in 0..ROWS {
        let at = 10 * r;
        if doc.len() <= at {
            return Ok(r);
        }
        let Some(level) = sound_rows::read_row(doc, Rank(r), most) else {
            return Err(unsound(at));
        };
        most = level + 1;
    }
    let end = 10 * ROWS;
    if doc.len() <= end {
        Ok(ROWS)
    } else {
        Err(unsound(end))
    }
}

// How many rows directly after the row of rank r are deeper.
fn deeper(doc: &[u8], rows: usize, r: usize) -> usize
    requires { (10 * rows ≤ length doc.now) × (r < rows) }
    ensures { result ≡ Catalogue.deeper (Catalogue.catalogue_of doc.now rows)
        (Fields.level_at doc.now r) (r + 1) (rows - (r + 1)) }
{
    let l = doc_rows::level(doc, Rank(r));
    for v in r + 1..rows {
        if doc_rows::level(doc, Rank(v)) <= l {
            return v - (r + 1);
        }
    }
    rows - (r + 1)
}

// The exact sizes, in row order. Each is counted from its row on: a row is looked at from one row of each level at
// most.
fn sizes_exact(doc: &[u8], rows: usize) -> Result<usize, Refusal>
    requires { 10 * rows ≤ length doc.now }
    ensures { Answers.answered result
        ≡ Calls.catalogue_answer (Catalogue.sizes_exact (Catalogue.catalogue_of doc.now rows) 0 rows) }
{
    for r in 0..rows {
        if doc_rows::size(doc, Rank(r)) != deeper(doc, rows, r) {
            return Err(unsound(10 * r));
        }
    }
    Ok(rows)
}

// The whole check: every row by itself, then the sizes. It gives the number of rows.
pub fn check(doc: &[u8]) -> Result<usize, Refusal>
    ensures { Answers.answered result ≡ Calls.catalogue_call doc.now }
{
    let rows = rows_sound(doc)?;
    sizes_exact(doc, rows)
}
