// Items put into a lent slice.
ghost use Rattle.std.specs.Prelude.{◌++◌, ◌+◌, ◌*◌, ◌^◌, ◌≤◌, ◌<◌, length};
ghost use Rattle.laws.specs.Lists.{gather};
ghost use Rattle.pen.specs.Penned.{Pens};
ghost use Rattle.pen.specs.Decimal.{decimal};
ghost use Rattle.lines.specs.Text;

use cells::Item;

// A word, a number in decimal, and the line's end.
pub fn put_line(text: &mut [u8], at: usize, word: &[u8], n: usize) -> usize
    requires { at + length word.now + 21 < 2 ^ 64 }
    ensures { Pens at (word.now ++ (decimal n ++ Text.line_end)) text.old text.new result
        × (result ≤ at + length word.now + 21) }
{
    let a = pen::put_word(text, at, word);
    let b = pen::put_number(text, a, n);
    pen::put(text, b, b'\n')
}

// `int Z`.
fn put_integer(text: &mut [u8], at: usize, z: i32) -> usize
    requires { at + 32 < 2 ^ 64 }
    ensures { Pens at (Text.integer_line z) text.old text.new result × (result ≤ at + 32) }
{
    let a = pen::put_word(text, at, b"int ");
    let b = pen::put_signed(text, a, z);
    pen::put(text, b, b'\n')
}

// `bool 0` or `bool 1`.
fn put_truth(text: &mut [u8], at: usize, b: bool) -> usize
    requires { at + 32 < 2 ^ 64 }
    ensures { Pens at (Text.truth_line b) text.old text.new result × (result ≤ at + 32) }
{
    if b {
        pen::put_word(text, at, b"bool 1\n")
    } else {
        pen::put_word(text, at, b"bool 0\n")
    }
}

// The line of a cell's item.
fn put_item(text: &mut [u8], at: usize, cell: i64) -> usize
    requires { at + 32 < 2 ^ 64 }
    ensures { Pens at (Text.item_line cell) text.old text.new result × (result ≤ at + 32) }
{
    match cells::item_of(cell) {
        Some(Item::Integer(z)) => put_integer(text, at, z),
        Some(Item::Truth(b)) => put_truth(text, at, b),
        Some(Item::Node(rank)) => put_line(text, at, b"node ", rank.0),
        None => at,
    }
}

// The lines of items, one after another.
pub fn put_items(text: &mut [u8], at: usize, cells: &[i64]) -> usize
    requires { at + 32 * length cells.now < 2 ^ 64 }
    ensures { Pens at (gather Text.item_line cells.now) text.old text.new result
        × (result ≤ at + 32 * length cells.now) }
{
    let mut end = at;
    for cell in cells {
        end = put_item(text, end, *cell);
    }
    end
}
