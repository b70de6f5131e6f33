// One loop over the rows for all row-wise operators.
ghost use Rattle.std.specs.Prelude.{◌≡◌, ◌+◌, ◌*◌, ◌≤◌, ◌<◌, length};
ghost use Rattle.laws.specs.Lists.{all};
ghost use Rattle.laws.specs.Rows.{row};
ghost use Rattle.laws.specs.Attempt.{each};
ghost use Rattle.meaning.specs.Catalogue.{catalogue_of};
ghost use Rattle.tables.specs.Layout.{table_at, Inside, Owes};
ghost use Rattle.tables.specs.Laying.{Settled};
ghost use Rattle.rowwise.specs.Tasks;

use crate::Task;
use rows::{added, search};
use tables::{Laid, Stand, Unlaid};

// The width of the rows that a task makes of rows of width w.
fn wider(w: usize, task: Task) -> usize
    requires { Tasks.wider w task ≤ 6 }
    ensures { result ≡ Tasks.wider w task }
{
    match task {
        Task::Attach(_) | Task::Apply(_, _, _) | Task::Value(_) => w + 1,
        Task::Project(n, _) => n,
        Task::Minus(_) | Task::Select(_) => w,
    }
}

// What the task makes of the row at a.
// As it is: (d) a closure would want a contract that says what `Tasks.made` says of each case.
pub fn lay_row(
    plan: &[u8],
    doc: &[u8],
    rows: usize,
    task: Task,
    work: &mut [i64],
    a: usize,
    w: usize,
    at: usize,
    room: usize,
) -> Laid
    requires w_bound { (a + w ≤ at) × (at ≤ room) × (room ≤ length work.old) }
    requires rows_in_bounds { (10 * rows ≤ length doc.now) × Tasks.Suits plan.now at w task }
    ensures { Owes room at (Tasks.wider w task)
        (Tasks.made plan.now (catalogue_of doc.now rows) work.old task
        (row work.old a w))
        work.old work.new result }
{
    match task {
        Task::Attach(cell) => rows::attach(work, a, w, cell, at, room),
        Task::Project(n, k) => rows::project(plan, k, n, work, a, w, at, room),
        Task::Minus(s) => search::minus(work, a, w, s, at, room),
        Task::Select(k) => rows::select(work, a, w, k, at, room),
        Task::Apply(f, k, d) => added::apply(work, a, w, f, k, d, at, room),
        Task::Value(k) => added::value(doc, rows, work, a, w, k, at, room),
    }
}

// Whether the task does not fail on the row at a.
fn settles_row(doc: &[u8], rows: usize, work: &[i64], a: usize, w: usize, task: Task) -> bool
    requires { (a + w ≤ length work.now) × (10 * rows ≤ length doc.now) × Tasks.Worked w task }
    ensures { result ≡ Tasks.settling (catalogue_of doc.now rows) task (row work.now a w) }
{
    match task {
        Task::Apply(f, k, d) => items::arith(f, work[a + k], work[a + d]).is_some(),
        Task::Value(k) => items::value(doc, rows, work[a + k]).is_some(),
        _ => true,
    }
}

// Whether the task fails on no row of s. Each row is looked at once.
fn settles(doc: &[u8], rows: usize, work: &[i64], s: Stand, task: Task) -> bool
    requires { Inside (length work.now) s × (10 * rows ≤ length doc.now) × Tasks.Worked s.width task }
    ensures { result
        ≡ all (Tasks.settling (catalogue_of doc.now rows) task) (table_at work.now s) }
{
    let w = s.width;
    for i in 0..s.rows {
        let a = s.at + i * w;
        if !settles_row(doc, rows, work, a, w, task) {
            return false;
        }
    }
    true
}

// What the task makes of every row of s, one after another, where it fails on none.
fn each_row(
    plan: &[u8],
    doc: &[u8],
    rows: usize,
    work: &mut [i64],
    s: Stand,
    task: Task,
    at: usize,
    room: usize,
) -> Laid
    requires inside { Inside at s × (at ≤ room) × (room ≤ length work.old) × (10 * rows ≤ length doc.now) }
    requires suits { Tasks.Suits plan.now at s.width task }
    requires bound { (1 ≤ Tasks.wider s.width task) × (Tasks.wider s.width task ≤ 6) }
    requires settled { Settled (each (Tasks.made plan.now (catalogue_of doc.now rows) work.old task)
        (table_at work.old s)) }
    ensures { Owes room at (Tasks.wider s.width task)
        (each (Tasks.made plan.now (catalogue_of doc.now rows) work.old task)
        (table_at work.old s))
        work.old work.new result }
{
    let w = s.width;
    let step = wider(w, task);
    let mut top = at;
    let mut n: usize = 0;
    let mut a = s.at;
    for i in 0..s.rows {
        let m = lay_row(plan, doc, rows, task, work, a, w, top, room)?;
        top += m * step;
        n += m;
        a += w;
    }
    Ok(n)
}

// The row-wise operators: what the task makes of every row of s. Failing comes before room. Two passes over the rows
// of s; a row costs its own width, and for Minus the cells of the other table.
pub fn rowwise(
    plan: &[u8],
    doc: &[u8],
    rows: usize,
    work: &mut [i64],
    s: Stand,
    task: Task,
    at: usize,
    room: usize,
) -> Laid
    requires inside { Inside at s × (at ≤ room) × (room ≤ length work.old) × (10 * rows ≤ length doc.now) }
    requires suits { Tasks.Suits plan.now at s.width task }
    requires bound { (1 ≤ Tasks.wider s.width task) × (Tasks.wider s.width task ≤ 6) }
    ensures { Owes room at (Tasks.wider s.width task)
        (each (Tasks.made plan.now (catalogue_of doc.now rows) work.old task)
        (table_at work.old s))
        work.old work.new result }
{
    if !settles(doc, rows, work, s, task) {
        return Err(Unlaid::Fails);
    }
    each_row(plan, doc, rows, work, s, task, at, room)
}
