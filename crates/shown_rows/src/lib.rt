// The text of a row: its cells in columns of 12 characters, each at the right of its own.
#![tactic(auto)]

ghost use Rattle.std.specs.Prelude.{◌≡◌, ◌++◌, ◌+◌, ◌^◌, ◌≤◌, ◌<◌, length};
ghost use Rattle.pen.specs.Penned.{Pens};
ghost use Rattle.pen.specs.Decimal.{decimal};
ghost use Rattle.lines.specs.Text.{node_word};
ghost use Rattle.lines.specs.Placed.{Put};
ghost use Rattle.shown_rows.specs.Rows.{truth_word, cell_text, at_right, column, row_line};

use cells::Item;

// `false` or `true`.
// As it is: (d) the words are others than those of `lines`, and so is the room.
fn put_truth(text: &mut [u8], at: usize, b: bool) -> usize
    requires { at + 25 < 2 ^ 64 }
    ensures { Pens at (truth_word b) text.old text.new result × (result ≤ at + 25) }
{
    if b {
        pen::put_word(text, at, b"true")
    } else {
        pen::put_word(text, at, b"false")
    }
}

// `node` and the rank.
fn put_node(text: &mut [u8], at: usize, rank: usize) -> usize
    requires { at + 25 < 2 ^ 64 }
    ensures { Pens at (node_word ++ decimal rank) text.old text.new result × (result ≤ at + 25) }
{
    let a = pen::put_word(text, at, b"node ");
    pen::put_number(text, a, rank)
}

// An integer as itself, `false`, `true`, or `node` and its rank. Every cell of a table holds an item.
// As it is: (a) the contracts decide each lent byte, and `Display` says nothing of what is written.
pub fn put_cell(text: &mut [u8], at: usize, cell: i64) -> usize
    requires { at + 25 < 2 ^ 64 }
    ensures { Pens at (cell_text cell) text.old text.new result × (result ≤ at + 25) }
{
    match cells::item_of(cell) {
        Some(Item::Integer(z)) => pen::put_signed(text, at, z),
        Some(Item::Truth(b)) => put_truth(text, at, b),
        Some(Item::Node(rank)) => put_node(text, at, rank.0),
        None => at,
    }
}

// A word at the right of its column.
fn put_right(text: &mut [u8], at: usize, word: &[u8]) -> usize
    requires { at + 12 + length word.now < 2 ^ 64 }
    ensures { Pens at (at_right word.now) text.old text.new result
        × (result ≤ at + 12 + length word.now) }
{
    let n = word.len();
    if 12 <= n {
        return pen::put_word(text, at, word);
    }
    let blanks = [b' '; 12];
    let a = pen::put_word(text, at, &blanks[n..]);
    pen::put_word(text, a, word)
}

// A cell in its column.
fn put_column(text: &mut [u8], at: usize, cell: i64) -> usize
    requires { at + 37 < 2 ^ 64 }
    ensures { Pens at (column cell) text.old text.new result × (result ≤ at + 37) }
{
    let mut word = [0u8; 25];
    let n = put_cell(&mut word, 0, cell);
    put_right(text, at, &word[0..n])
}

// The line of a row.
pub fn put_row(text: &mut [u8], row: &[i64]) -> usize
    requires { (length row.now ≤ 6) × (223 ≤ length text.old) }
    ensures { Put text.old text.new 0 (row_line row.now) result }
{
    let mut end: usize = 0;
    for cell in row {
        end = put_column(text, end, *cell);
    }
    pen::put(text, end, b'\n')
}
