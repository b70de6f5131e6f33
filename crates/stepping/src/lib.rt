// One group of RX: the nodes that a step reaches from the nodes of an iteration.
#![tactic(auto)]

ghost use Rattle.std.specs.Prelude.{◌≡◌, [], ◌∷◌, map, ◌*◌, ◌≤◌, ◌<◌, length, get_or};
ghost use Rattle.laws.specs.Lists.{all};
ghost use Rattle.laws.specs.Attempt.{gives, attempt};
ghost use Rattle.meaning.specs.Catalogue.{Catalogue, catalogue_of};
ghost use Rattle.meaning.specs.Operators.{cell, column, group_of};
ghost use Rattle.meaning.specs.World;
ghost use Rattle.step_parts.specs.Steps.{Ready};
ghost use Rattle.nodesets.specs.Nodes.{FromAll};
ghost use Rattle.tables.specs.Layout.{table_at, Inside, Owes};
ghost use Rattle.members.specs.Grouped.{in_front};
ghost use Rattle.stepping.specs.Marking.{is_node, FromRow};

use codes::{Axis, Test};
use members::cell_at;
use nodesets::{Iteration, NotANode};
use tables::{Laid, Stand, Unlaid};

// Whether a cell holds a node of a catalogue with that many rows.
fn is_node(cell: i64, rows: usize) -> bool
    ensures { (c : Catalogue) → c.rows ≡ rows → result ≡ is_node c cell }
{
    nodesets::rank_of(cell, rows).is_some()
}

// Whether column 1 holds nodes only. Each row is looked at once.
pub fn all_nodes(work: &[i64], s: Stand, rows: usize) -> bool
    requires { Inside (length work.now) s × (s.width ≡ 2) }
    ensures { (c : Catalogue) → c.rows ≡ rows
        → result ≡ all (is_node c) (column (table_at work.now s) 1) }
{
    for i in 0..s.rows {
        if !is_node(cell_at(work, s, 1, i), rows) {
            return false;
        }
    }
    true
}

// The iteration whose rows are looked for: the first row's cell of column 0.
fn iteration_of(work: &[i64], s: Stand) -> Iteration
    requires { Inside (length work.now) s × (s.width ≡ 2) × (0 < s.rows) }
    ensures { result.0 ≡ in_front (table_at work.now s) 0 }
{
    Iteration(cell_at(work, s, 0, 0))
}

// Marks the node of row i, where the row is of the iteration.
fn mark_row(
    work: &[i64],
    s: Stand,
    iteration: Iteration,
    i: usize,
    rows: usize,
    marks: &mut [bool],
) -> Result<(), NotANode>
    requires { Inside (length work.now) s × (s.width ≡ 2) × (i < s.rows) × (rows ≤ length marks.old) }
    ensures { (c : Catalogue) → c.rows ≡ rows
        → FromRow c iteration.0 (get_or (table_at work.now s) i []) result marks.old
        marks.new }
{
    if !cells::same(iteration.0, cell_at(work, s, 0, i)) {
        return Ok(());
    }
    nodesets::mark_one(cell_at(work, s, 1, i), rows, marks)
}

// Marks the nodes of the iteration, which is the first row's, and no other. Each row is looked at once, and each flag
// is cleared.
fn mark_group(
    work: &[i64],
    s: Stand,
    iteration: Iteration,
    rows: usize,
    marks: &mut [bool],
) -> Result<(), NotANode>
    requires inside { Inside (length work.now) s × (s.width ≡ 2) × (0 < s.rows) × (rows ≤ length marks.old) }
    requires iteration_value { iteration.0 ≡ in_front (table_at work.now s) 0 }
    ensures { (c : Catalogue) → c.rows ≡ rows → FromAll c
        (column (group_of (table_at work.now s) 0 (in_front (table_at work.now s) 0)) 1)
        result marks.new }
{
    nodesets::clear(rows, marks);
    for i in 0..s.rows {
        mark_row(work, s, iteration, i, rows, marks)?;
    }
    Ok(())
}

// The rows that RX makes of the first row's group, whose rows are all in s: the cell and a node of the step, by
// rising rank. Each row of s is looked at once, and each of the catalogue's a few times.
pub fn step_group(
    doc: &[u8],
    rows: usize,
    axis: Axis,
    test: Test,
    work: &mut [i64],
    s: Stand,
    from: &mut [bool],
    to: &mut [bool],
    at: usize,
    room: usize,
) -> Laid
    requires inside { Inside at s × (0 < s.rows) × (at ≤ room) × (room ≤ length work.old) }
    requires width_value { (s.width ≡ 2) × Ready doc.now rows from.old to.old }
    ensures { Owes room at 2 (attempt (World.step (catalogue_of doc.now rows) axis test
        (column (group_of (table_at work.old s) 0 (in_front (table_at work.old s) 0)) 1))
        (λ ys. gives (map (λ y. in_front (table_at work.old s) 0 ∷ y ∷ []) ys)))
        work.old work.new result }
{
    let iteration = iteration_of(work, s);
    let Ok(()) = mark_group(work, s, iteration, rows, from) else {
        return Err(Unlaid::Fails);
    };
    axes::step(doc, rows, axis, test, from, to);
    let n = nodesets::count(to, rows);
    if room - at < 2 * n {
        return Err(Unlaid::Full);
    }
    nodesets::write_rows(to, rows, iteration, work, at);
    Ok(n)
}
