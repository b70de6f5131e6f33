// The text that the printing program prints, from what the translator and the two engines told.
#![tactic(auto)]

mod items;

ghost use Rattle.std.specs.Prelude.{◌≡◌, ◌+◌, ◌*◌, ◌^◌, ◌≤◌, ◌<◌, length};
ghost use Rattle.laws.specs.Rows.{rows_at, laid};
ghost use Rattle.meaning.specs.Operators;
ghost use Rattle.pen.specs.Penned.{Pens};
ghost use Rattle.lines.specs.Text;
ghost use Rattle.verdicts.specs.Compared;
ghost use Rattle.verdicts.specs.Compared.{GaveStands};
ghost use Rattle.lines.specs.Placed.{Put, room_for};

use verdicts::comparing::verdict;
use verdicts::{Told, ToldRefusal, Verdict};

// Copies the items of the runner's last table, its column 2, so that the cells can be lent again. Each row is looked
// at once.
pub fn copy_items(work: &[i64], start: usize, rows: usize, kept: &mut [i64])
    requires { (start + rows * 3 ≤ length work.now) × (rows ≤ length kept.old) }
    ensures { kept.new
        ≡ laid kept.old 0 (Operators.column (rows_at work.now start rows 3) 2) }
{
    for i in 0..rows {
        kept[i] = work[start + i * 3 + 2];
    }
}

// `refused n at p`.
// As it is: (a) the contracts decide each lent byte, and `Display` says nothing of what is written.
fn put_refusal(text: &mut [u8], at: usize, refusal: ToldRefusal) -> usize
    requires { at + 64 < 2 ^ 64 }
    ensures { Pens at (Text.refused_line refusal.number refusal.place) text.old text.new result
        × (result ≤ at + 64) }
{
    let a = pen::put_word(text, at, b"refused ");
    let b = pen::put_number(text, a, refusal.number);
    items::put_line(text, b, b" at ", refusal.place)
}

// The number of items and each item, or the refusal.
fn put_first(text: &mut [u8], at: usize, told: Told, cells: &[i64]) -> usize
    requires { (at + room_for (Compared.told told) < 2 ^ 64) × GaveStands (length cells.now) (Compared.told told) }
    ensures { Pens at (Text.first_lines (Compared.told told) cells.now) text.old text.new result
        × (result + 64 ≤ at + room_for (Compared.told told)) }
{
    match told {
        Ok(n) => {
            let a = items::put_line(text, at, b"items ", n);
            items::put_items(text, a, &cells[..n])
        }
        Err(refusal) => put_refusal(text, at, refusal),
    }
}

// `same` and the verdict.
fn put_verdict(text: &mut [u8], at: usize, v: Verdict) -> usize
    requires { at + 64 < 2 ^ 64 }
    ensures { Pens at (Text.same_line v) text.old text.new result × (result ≤ at + 64) }
{
    match v {
        Verdict::Agree => pen::put_word(text, at, b"same yes\n"),
        Verdict::Differ => pen::put_word(text, at, b"same no\n"),
        Verdict::Room => pen::put_word(text, at, b"same room\n"),
    }
}

// All lines, and how many bytes they are: the translator's refusal; or what the runner told and gave, and whether the
// evaluator told and gave the same.
pub fn write(
    text: &mut [u8],
    translated: Told,
    ran: Told,
    cells: &[i64],
    evaluated: Told,
    others: &[i64],
) -> usize
    requires in_bounds { (128 ≤ length text.old) × (room_for (Compared.told ran) ≤ length text.old) }
    requires gave_stands { GaveStands (length cells.now) (Compared.told ran)
        × GaveStands (length others.now) (Compared.told evaluated) }
    ensures { Put text.old text.new 0
        (Text.text (Compared.told translated) (Compared.told ran) cells.now (Compared.told evaluated)
        others.now) result }
{
    match translated {
        Err(refusal) => put_refusal(text, 0, refusal),
        Ok(_) => {
            let a = put_first(text, 0, ran, cells);
            let v = verdict(ran, cells, evaluated, others);
            put_verdict(text, a, v)
        }
    }
}
