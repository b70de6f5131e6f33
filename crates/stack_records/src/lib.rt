// What the records of a query that read the catalogue or an item's value do with what their operands left on the stack.
#![tactic(auto)]

ghost use Rattle.std.specs.Prelude.{ℕ, ◌-◌, ◌*◌, ◌≤◌, ◌<◌, length, Ok};
ghost use Rattle.meaning.specs.Catalogue.{Catalogue, catalogue_of};
ghost use Rattle.meaning.specs.World.{world_of};
ghost use Rattle.step_parts.specs.Steps.{Ready};
ghost use Rattle.stack.specs.Stack.{stood, paired, Fit, FitPair, EndsPair, Ends, At, Leaves, Lent};
ghost use Rattle.stack_records.specs.Arms.{rooted, applied, valued, Valued, stepped, Reaches};

use codes::refusals::Stop;
use codes::{Axis, Function, Test};
use nodesets::NotANode;
use stack::{Pair, Stood};

// QR: adds the root of fragment k, where there is one.
pub fn root(
    doc: &[u8],
    rows: usize,
    k: usize,
    at: usize,
    next: usize,
    work: &mut [i64],
    top: usize,
    room: usize,
) -> Result<Stood, Stop>
    requires { (10 * rows ≤ length doc.now) × (rows < 65536) × (1 ≤ k) × Lent top room work.old }
    ensures { Leaves top room (rooted (world_of (catalogue_of doc.now rows)) (room - top) at k)
        (At next)
        work.old work.new result }
{
    let cell = items::root(doc, rows, k).ok_or(Stop::Failed(at))?;
    stack::put(cell, at, next, work, top, room)
}

// QO: a function of the two operands.
pub fn apply(
    f: Function,
    pair: Pair,
    at: usize,
    work: &mut [i64],
    top: usize,
) -> Result<Stood, Stop>
    requires { FitPair top (length work.old) (Ok pair) }
    ensures { (c : Catalogue) (room : ℕ) → FitPair top room (Ok pair) → Leaves top room
        (applied (world_of c) at f (paired work.old top (Ok pair))) (EndsPair (Ok pair)) work.old
        work.new result }
{
    let Pair {
        first,
        second,
        count,
        next,
    } = pair;
    if first > 1 || second > 1 {
        return Err(Stop::Failed(at));
    }
    if first == 0 || second == 0 {
        return Ok(Stood {
            length: 0,
            count,
            next,
        });
    }
    let cell = items::arith(f, work[top], work[top + 1]).ok_or(Stop::Failed(at))?;
    work[top] = cell;
    Ok(Stood {
        length: 1,
        count,
        next,
    })
}

// Puts each item's value in its place, where every one has a value.
fn take_values(doc: &[u8], rows: usize, cells: &mut [i64]) -> Option<()>
    requires { 10 * rows ≤ length doc.now }
    ensures { Valued (world_of (catalogue_of doc.now rows)) cells.old cells.new result }
{
    for cell in cells.iter_mut() {
        *cell = items::value(doc, rows, *cell)?;
    }
    Some(())
}

// QD: each item's value in its place.
pub fn values(
    doc: &[u8],
    rows: usize,
    operand: Stood,
    at: usize,
    work: &mut [i64],
    top: usize,
) -> Result<Stood, Stop>
    requires { (10 * rows ≤ length doc.now) × Fit top (length work.old) (Ok operand) }
    ensures { (room : ℕ) → Fit top room (Ok operand) → Leaves top room
        (valued (world_of (catalogue_of doc.now rows)) at (stood work.old top (Ok operand)))
        (Ends (Ok operand))
        work.old work.new result }
{
    let end = top + operand.length;
    take_values(doc, rows, &mut work[top..end]).ok_or(Stop::Failed(at))?;
    Ok(operand)
}

// Leaves in `to` the marks of the nodes that a step from some items reaches, where every item is a node.
fn reach(
    doc: &[u8],
    rows: usize,
    axis: Axis,
    test: Test,
    cells: &[i64],
    from: &mut [bool],
    to: &mut [bool],
) -> Result<(), NotANode>
    requires { Ready doc.now rows from.old to.old }
    ensures { Reaches doc.now rows axis test cells.now to.new result }
{
    nodesets::mark(cells, rows, from)?;
    axes::step(doc, rows, axis, test, from, to);
    Ok(())
}

// QX: the nodes that a step reaches, in the place of its items.
pub fn step(
    doc: &[u8],
    rows: usize,
    axis: Axis,
    test: Test,
    operand: Stood,
    at: usize,
    work: &mut [i64],
    top: usize,
    room: usize,
    from: &mut [bool],
    to: &mut [bool],
) -> Result<Stood, Stop>
    requires { Lent top room work.old × Fit top room (Ok operand) × Ready doc.now rows from.old to.old }
    ensures { Leaves top room
        (stepped (world_of (catalogue_of doc.now rows)) (room - top) at axis test
        (stood work.old top (Ok operand)))
        (Ends (Ok operand)) work.old work.new result }
{
    let end = top + operand.length;
    reach(doc, rows, axis, test, &work[top..end], from, to)
        .ok()
        .ok_or(Stop::Failed(at))?;
    let n = nodesets::count(to, rows);
    if room - end < n {
        return Err(Stop::Full(at));
    }
    nodesets::write(to, rows, work, top);
    let reached = Stood {
        length: n,
        count: operand.length + n,
        next: operand.next,
    };
    Ok(stack::raise(operand.count, reached))
}
