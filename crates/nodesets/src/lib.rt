// Mark sets: one flag for each rank. Cells to mark sets, and back to cells by rising rank.
#![tactic(auto)]

ghost use Rattle.std.specs.Prelude.{◌≤◌, ◌≡◌, [], map, length};
ghost use Rattle.cells.specs.Cell.{node_cell};
ghost use Rattle.laws.specs.Rows.{laid};
ghost use Rattle.meaning.specs.Catalogue.{Catalogue};
ghost use Rattle.meaning.specs.World;
ghost use Rattle.nodesets.specs.Nodes.{ranks, CellRoom, MarkSet, found, FromOne, FromAll, rows_of};

use cells::{Item, Rank};

// The cell of an iteration, as a table's first column has it. It is never taken for a rank.
#[derive(Clone, Copy)]
pub struct Iteration(pub i64);

// What stops marking: a cell that is not a node's.
#[derive(Clone, Copy, PartialEq, Eq)]
pub struct NotANode;

// The rank of an item of a catalogue with that many rows.
fn rank_in(item: Item, rows: usize) -> Option<Rank>
    ensures { (c : Catalogue) → c.rows ≡ rows → found result ≡ World.rank_in c (Some item) }
{
    match item {
        Item::Node(rank) => if rank.0 < rows { Some(rank) } else { None },
        Item::Integer(_) | Item::Truth(_) => None,
    }
}

// The rank of the node that a cell holds.
pub fn rank_of(cell: i64, rows: usize) -> Option<Rank>
    ensures { (c : Catalogue) → c.rows ≡ rows → found result ≡ World.rank_of c cell }
{
    rank_in(cells::item_of(cell)?, rows)
}

// Takes every mark away.
pub fn clear(rows: usize, marks: &mut [bool])
    requires { rows ≤ length marks.old }
    ensures { MarkSet rows [] marks.new }
{
    marks[..rows].fill(false);
}

// Marks the node that a cell holds.
pub fn mark_one(cell: i64, rows: usize, marks: &mut [bool]) -> Result<(), NotANode>
    requires { rows ≤ length marks.old }
    ensures { (c : Catalogue) → c.rows ≡ rows → FromOne c cell result marks.old marks.new }
{
    let rank = rank_of(cell, rows).ok_or(NotANode)?;
    marks[rank.0] = true;
    Ok(())
}

// Marks the nodes of a list of cells, and no other.
pub fn mark(cells: &[i64], rows: usize, marks: &mut [bool]) -> Result<(), NotANode>
    requires { rows ≤ length marks.old }
    ensures { (c : Catalogue) → c.rows ≡ rows → FromAll c cells.now result marks.new }
{
    clear(rows, marks);
    for cell in cells {
        mark_one(*cell, rows, marks)?;
    }
    Ok(())
}

// How many ranks are marked.
pub fn count(marks: &[bool], rows: usize) -> usize
    requires { rows ≤ length marks.now }
    ensures { result ≡ length (ranks rows marks.now) }
{
    let mut n: usize = 0;
    for v in 0..rows {
        n += usize::from(marks[v]);
    }
    n
}

// Writes the cells of the marked nodes, by rising rank, from a place on. Answers how many they are.
pub fn write(marks: &[bool], rows: usize, work: &mut [i64], at: usize) -> usize
    requires { CellRoom marks.now rows work.old at 1 }
    ensures { (result ≡ length (ranks rows marks.now))
        × (work.new ≡ laid work.old at (map node_cell (ranks rows marks.now))) }
{
    let mut n: usize = 0;
    for v in 0..rows {
        if marks[v] {
            work[at + n] = cells::node_cell(Rank(v));
            n += 1;
        }
    }
    n
}

// Writes a row for each marked node, by rising rank, from a place on: the iteration's cell, then the node's. Answers
// how many rows they are.
pub fn write_rows(
    marks: &[bool],
    rows: usize,
    iteration: Iteration,
    work: &mut [i64],
    at: usize,
) -> usize
    requires { CellRoom marks.now rows work.old at 2 }
    ensures { (result ≡ length (ranks rows marks.now))
        × (work.new ≡ laid work.old at (rows_of iteration.0 (ranks rows marks.now))) }
{
    let cell = iteration.0;
    let mut n: usize = 0;
    for v in 0..rows {
        if marks[v] {
            work[at + 2 * n] = cell;
            work[at + 2 * n + 1] = cells::node_cell(Rank(v));
            n += 1;
        }
    }
    n
}
