// Each operator on the tables that the directory names.
#![tactic(auto)]

ghost use Rattle.std.specs.Prelude.{◌≡◌, true, ◌&&◌, ◌||◌, ◌++◌, ◌+◌, ◌*◌, ◌≤◌, ◌<◌, eqb, ltb, length};
ghost use Rattle.laws.specs.Attempt.{gives, provided, each};
ghost use Rattle.meaning.specs.Catalogue.{catalogue_of};
ghost use Rattle.meaning.specs.Operators;
ghost use Rattle.meaning.specs.Plan.{columns, columns_at};
ghost use Rattle.meaning.specs.World.{world_of};
ghost use Rattle.tables.specs.Layout.{table_at, Owes};
ghost use Rattle.rowwise.specs.Tasks;
ghost use Rattle.step_parts.specs.Steps.{Ready};
ghost use Rattle.row_order.specs.Order.{columns_of};
ghost use Rattle.directory.specs.Directory.{stand_at};
ghost use Rattle.directory.specs.Sound.{TableStands, wide};

use codes::{Axis, Test};
use directory::stand;
use row_order::Keys;
use rowwise::Task;
use tables::Laid;

// The row-wise operators, RA RP RS RF: a task for each row of table t.
pub fn rowwise(
    plan: &[u8],
    doc: &[u8],
    rows: usize,
    directory: &[usize],
    t: usize,
    task: Task,
    work: &mut [i64],
    at: usize,
    room: usize,
) -> Laid
    requires table_stands { TableStands directory.now at t × (at ≤ room) × (room ≤ length work.old)
        × (10 * rows ≤ length doc.now) }
    requires suits { Tasks.Suits plan.now at (wide directory.now t) task }
    requires bound { (1 ≤ Tasks.wider (wide directory.now t) task) × (Tasks.wider (wide directory.now t) task ≤ 6) }
    ensures { Owes room at (Tasks.wider (wide directory.now t) task)
        (each (Tasks.made plan.now (catalogue_of doc.now rows) work.old task)
        (table_at work.old (stand_at directory.now t)))
        work.old work.new result }
{
    let s = stand(directory, t);
    rowwise::each::rowwise(plan, doc, rows, work, s, task, at, room)
}

// RD: the rows of table t equal to no row of table u.
pub fn minus(
    plan: &[u8],
    doc: &[u8],
    rows: usize,
    directory: &[usize],
    t: usize,
    u: usize,
    work: &mut [i64],
    at: usize,
    room: usize,
) -> Laid
    requires table_stands { TableStands directory.now at t × TableStands directory.now at u × (at ≤ room)
        × (room ≤ length work.old) }
    requires rows_in_bounds { (10 * rows ≤ length doc.now) × (wide directory.now t ≡ wide directory.now u) }
    ensures { Owes room at (wide directory.now t)
        (each (Tasks.made plan.now (catalogue_of doc.now rows) work.old
        (Task.Minus (stand_at directory.now u)))
        (table_at work.old (stand_at directory.now t)))
        work.old work.new result }
{
    let other = stand(directory, u);
    rowwise(
        plan,
        doc,
        rows,
        directory,
        t,
        Task::Minus(other),
        work,
        at,
        room,
    )
}

// RU: the rows of table t, then those of table u.
pub fn union(
    directory: &[usize],
    t: usize,
    u: usize,
    work: &mut [i64],
    at: usize,
    room: usize,
) -> Laid
    requires table_stands { TableStands directory.now at t × TableStands directory.now at u × (at ≤ room)
        × (room ≤ length work.old) }
    requires t_value { wide directory.now t ≡ wide directory.now u }
    ensures { Owes room at (wide directory.now t)
        (gives (table_at work.old (stand_at directory.now t)
        ++ table_at work.old (stand_at directory.now u)))
        work.old work.new result }
{
    let s = stand(directory, t);
    let other = stand(directory, u);
    whole::union(work, s, other, at, room)
}

// RJ: for each row of table t, each row of table u with equal cells in columns c and d; both rows joined.
pub fn join(
    directory: &[usize],
    t: usize,
    c: usize,
    u: usize,
    d: usize,
    work: &mut [i64],
    at: usize,
    room: usize,
) -> Laid
    requires table_stands { TableStands directory.now at t × TableStands directory.now at u × (at ≤ room)
        × (room ≤ length work.old) }
    requires c_bound { (c < wide directory.now t) × (d < wide directory.now u)
        × (wide directory.now t + wide directory.now u ≤ 6) }
    ensures { Owes room at (wide directory.now t + wide directory.now u)
        (gives (Operators.join (table_at work.old (stand_at directory.now t)) c
        (table_at work.old (stand_at directory.now u)) d))
        work.old work.new result }
{
    let s = stand(directory, t);
    let other = stand(directory, u);
    joining::join(work, s, c, other, d, at, room)
}

// RK: table t once more, where no cell of column c occurs twice.
pub fn once(
    directory: &[usize],
    t: usize,
    c: usize,
    work: &mut [i64],
    at: usize,
    room: usize,
) -> Laid
    requires { TableStands directory.now at t × (at ≤ room) × (room ≤ length work.old)
        × (c < wide directory.now t) }
    ensures { Owes room at (wide directory.now t)
        (provided (Operators.once (Operators.column (table_at work.old (stand_at directory.now t))
        c))
        (gives (table_at work.old (stand_at directory.now t))))
        work.old work.new result }
{
    let s = stand(directory, t);
    whole::once::once(work, s, c, at, room)
}

// RO: table t with the cell of fragment k's root.
pub fn root(
    plan: &[u8],
    doc: &[u8],
    rows: usize,
    directory: &[usize],
    t: usize,
    k: usize,
    work: &mut [i64],
    at: usize,
    room: usize,
) -> Laid
    requires table_stands { TableStands directory.now at t × (at ≤ room) × (room ≤ length work.old)
        × (wide directory.now t + 1 ≤ 6) }
    requires rows_in_bounds { (10 * rows ≤ length doc.now) × (rows ≤ 2048) × (1 ≤ k) }
    ensures { Owes room at (wide directory.now t + 1)
        (Operators.rooted (world_of (catalogue_of doc.now rows))
        (table_at work.old (stand_at directory.now t)) k)
        work.old work.new result }
{
    let s = stand(directory, t);
    whole::root(plan, doc, rows, work, s, k, at, room)
}

// The keys of RN: n columns, bytes of the plan from an offset on.
fn keys(plan: &[u8], n: usize, from: usize) -> Keys
    requires { (1 ≤ n) × (n ≤ 2) × (from + n ≤ length plan.now) }
    ensures { columns_of result ≡ columns_at plan.now from n }
{
    let first = cells::byte(plan, from);
    if n == 1 {
        return Keys::One(first);
    }
    Keys::Two(first, cells::byte(plan, from + 1))
}

// RN: the rows of table t in rising order by p and the keys, numbered.
pub fn number(
    plan: &[u8],
    directory: &[usize],
    t: usize,
    p: usize,
    n: usize,
    from: usize,
    work: &mut [i64],
    order: &mut [u16],
    aside: &mut [u16],
    at: usize,
    room: usize,
) -> Laid
    requires table_stands { TableStands directory.now at t × (at ≤ room) × (room ≤ length work.old) × (room ≤ 65536) }
    requires le_n { (1 ≤ n) × (n ≤ 2) × (from + n ≤ length plan.now) }
    requires n_value { ((eqb p 255 || ltb p (wide directory.now t))
        && columns (wide directory.now t) (columns_at plan.now from n)) ≡ true }
    requires in_bounds { (32768 ≤ length order.old) × (16384 ≤ length aside.old) }
    ensures { Owes room at (wide directory.now t + 1)
        (gives (Operators.number (table_at work.old (stand_at directory.now t)) p
        (columns_at plan.now from n)))
        work.old work.new result }
{
    let s = stand(directory, t);
    let by = keys(plan, n, from);
    numbering::number(work, s, p, by, order, aside, at, room)
}

// RC: each cell of column c of table t, and how many rows hold it.
pub fn counts(
    directory: &[usize],
    t: usize,
    c: usize,
    work: &mut [i64],
    at: usize,
    room: usize,
) -> Laid
    requires { TableStands directory.now at t × (at ≤ room) × (room ≤ length work.old) × (room ≤ 65536)
        × (c < wide directory.now t) }
    ensures { Owes room at 2
        (gives (Operators.counts (table_at work.old (stand_at directory.now t)) c))
        work.old work.new result }
{
    let s = stand(directory, t);
    groups::counts(work, s, c, at, room)
}

// RE: each cell of column 0 of table t, and the truth of its group.
pub fn truths(
    doc: &[u8],
    rows: usize,
    directory: &[usize],
    t: usize,
    work: &mut [i64],
    at: usize,
    room: usize,
) -> Laid
    requires table_stands { TableStands directory.now at t × (at ≤ room) × (room ≤ length work.old)
        × (10 * rows ≤ length doc.now) }
    requires t_value { wide directory.now t ≡ 3 }
    ensures { Owes room at 2
        (Operators.truths (world_of (catalogue_of doc.now rows))
        (table_at work.old (stand_at directory.now t)))
        work.old work.new result }
{
    let s = stand(directory, t);
    groups::truths(doc, rows, work, s, at, room)
}

// RX: per different cell of column 0 of table t, the step's nodes from column 1.
pub fn steps(
    doc: &[u8],
    rows: usize,
    directory: &[usize],
    t: usize,
    axis: Axis,
    test: Test,
    work: &mut [i64],
    from: &mut [bool],
    to: &mut [bool],
    at: usize,
    room: usize,
) -> Laid
    requires table_stands { TableStands directory.now at t × (at ≤ room) × (room ≤ length work.old)
        × (wide directory.now t ≡ 2) }
    requires ready { Ready doc.now rows from.old to.old }
    ensures { Owes room at 2
        (Operators.steps (world_of (catalogue_of doc.now rows)) axis test
        (table_at work.old (stand_at directory.now t)))
        work.old work.new result }
{
    let s = stand(directory, t);
    groups::steps(doc, rows, work, s, axis, test, from, to, at, room)
}
