// The groups of a table, one after another: one loop for RC, RE and RX.
#![tactic(auto)]

ghost use Rattle.std.specs.Prelude.{◌≡◌, ◌*◌, ◌≤◌, ◌<◌, length};
ghost use Rattle.meaning.specs.Catalogue.{Catalogue, catalogue_of};
ghost use Rattle.meaning.specs.Operators.{column};
ghost use Rattle.meaning.specs.World.{world_of};
ghost use Rattle.tables.specs.Layout.{table_at, Inside, Owes};
ghost use Rattle.tables.specs.Laying.{succeeds, Settled};
ghost use Rattle.gathering.specs.declared.Gather.TheVariants as Gathers;
ghost use Rattle.members.specs.Grouped.{in_front};
ghost use Rattle.tables.specs.Order.{climbs};
ghost use Rattle.gathering.specs.Gathered;

use codes::{Axis, Test};
use counting::count_group;
use judging::{group_truth, truth_group};
use members::{opens, part};
use stepping::step_group;
use tables::{Laid, Stand};

// What an operator makes of each group: how many rows it has, by a column; the truth of its items; the nodes of a step.
#[derive(Clone, Copy)]
pub enum Gather {
    Count(usize),
    Truth,
    Step(Axis, Test),
}

// The column that the groups go by.
fn column_of(gather: Gather) -> usize
    ensures { result ≡ Gathered.column_of gather }
{
    match gather {
        Gather::Count(c) => c,
        Gather::Truth => 0,
        Gather::Step(_, _) => 0,
    }
}

// What is made of the group of the first row of s, whose rows are all in s.
// As it is: (d) a closure would want a contract that says what `Gathered.made` says of each case.
fn lay_group(
    doc: &[u8],
    rows: usize,
    gather: Gather,
    work: &mut [i64],
    s: Stand,
    from: &mut [bool],
    to: &mut [bool],
    at: usize,
    room: usize,
) -> Laid
    requires inside { Inside at s × (0 < s.rows) × (at ≤ room) × (room ≤ length work.old) }
    requires asks { Gathered.Asks gather s.width room doc.now rows from.old to.old }
    ensures { Owes room at 2
        (Gathered.made gather (world_of (catalogue_of doc.now rows)) (table_at work.old s)
        (in_front (table_at work.old s) (Gathered.column_of gather)))
        work.old work.new result }
{
    match gather {
        Gather::Count(c) => count_group(work, s, c, at, room),
        Gather::Truth => truth_group(work, s, at, room),
        Gather::Step(axis, test) => step_group(doc, rows, axis, test, work, s, from, to, at, room),
    }
}

// What is made of the group that row i opens: no rows, where it opens none.
fn turn(
    doc: &[u8],
    rows: usize,
    gather: Gather,
    work: &mut [i64],
    s: Stand,
    up: bool,
    i: usize,
    from: &mut [bool],
    to: &mut [bool],
    at: usize,
    room: usize,
) -> Laid
    requires inside { Inside at s × (i < s.rows) × (at ≤ room) × (room ≤ length work.old) }
    requires asks { Gathered.Asks gather s.width room doc.now rows from.old to.old }
    requires up_value { up ≡ climbs (column (table_at work.old s) (Gathered.column_of gather)) }
    ensures { Owes room at 2
        (Gathered.turn gather (world_of (catalogue_of doc.now rows)) (table_at work.old s) i)
        work.old work.new result }
{
    let c = column_of(gather);
    if !opens(work, s, c, up, i) {
        return Ok(0);
    }
    let group = part(work, s, c, up, i);
    lay_group(doc, rows, gather, work, group, from, to, at, room)
}

// What is made of every group, by first appearance, where it fails for none. `up` says whether the groups' column
// climbs: each row is then looked at a few times, else it is set against the rows above and, where it opens a group,
// those below. A step costs each group the catalogue's rows, too.
pub fn each_group(
    doc: &[u8],
    rows: usize,
    gather: Gather,
    work: &mut [i64],
    s: Stand,
    up: bool,
    from: &mut [bool],
    to: &mut [bool],
    at: usize,
    room: usize,
) -> Laid
    requires inside { Inside at s × (at ≤ room) × (room ≤ length work.old) }
    requires asks { Gathered.Asks gather s.width room doc.now rows from.old to.old }
    requires up_value { up ≡ climbs (column (table_at work.old s) (Gathered.column_of gather)) }
    requires settled { Settled (Gathered.whole gather (world_of (catalogue_of doc.now rows)) (table_at work.old s)) }
    ensures { Owes room at 2
        (Gathered.whole gather (world_of (catalogue_of doc.now rows)) (table_at work.old s))
        work.old work.new result }
{
    let mut top = at;
    let mut n = 0;
    for i in 0..s.rows {
        let m = turn(doc, rows, gather, work, s, up, i, from, to, top, room)?;
        top += m * 2;
        n += m;
    }
    Ok(n)
}

// Whether the items of the group that row i opens have a truth: so too, where it opens none.
fn settled(work: &[i64], s: Stand, up: bool, i: usize) -> bool
    requires inside { Inside (length work.now) s × (s.width ≡ 3) × (i < s.rows) }
    requires up_value { up ≡ climbs (column (table_at work.now s) 0) }
    ensures { (c : Catalogue)
        → result ≡ succeeds (Gathered.turn Gathers.Truth (world_of c) (table_at work.now s) i) }
{
    if !opens(work, s, 0, up, i) {
        return true;
    }
    group_truth(work, part(work, s, 0, up, i)).is_some()
}

// Whether the items of every group have a truth. It costs what laying the groups' rows does.
pub fn settles(work: &[i64], s: Stand, up: bool) -> bool
    requires inside { Inside (length work.now) s × (s.width ≡ 3) }
    requires up_value { up ≡ climbs (column (table_at work.now s) 0) }
    ensures { (c : Catalogue)
        → result ≡ succeeds (Gathered.whole Gathers.Truth (world_of c) (table_at work.now s)) }
{
    for i in 0..s.rows {
        if !settled(work, s, up, i) {
            return false;
        }
    }
    true
}
