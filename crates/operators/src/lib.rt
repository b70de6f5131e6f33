// What each operator of a plan does with the tables that stand before it.
#![tactic(auto)]

ghost use Rattle.std.specs.Prelude.{◌≤◌, length};
ghost use Rattle.meaning.specs.Catalogue.{catalogue_of};
ghost use Rattle.meaning.specs.Operators.{make};
ghost use Rattle.meaning.specs.World.{world_of};
ghost use Rattle.tables.specs.Layout.{Owes};
ghost use Rattle.step_parts.specs.Steps.{Ready};
ghost use Rattle.plan_records.specs.Decoded.{operator_of};
ghost use Rattle.directory.specs.Directory.{tables_in, ListedTables};
ghost use Rattle.directory.specs.Sound.{made_width, SoundOperator};

use plan_records::Operator;
use rowwise::Task;
use tables::Laid;

// The end of the tables: how many stand, and the cells that they fill.
#[derive(Clone, Copy)]
pub struct Top {
    pub tables: usize,
    pub cells: usize,
}

// The table that an operator makes, laid behind those that stand. `order`, `aside`, `from` and `to` are lent to work
// in: what they hold does not matter.
pub fn perform(
    plan: &[u8],
    doc: &[u8],
    rows: usize,
    operator: Operator,
    directory: &[usize],
    top: Top,
    work: &mut [i64],
    order: &mut [u16],
    aside: &mut [u16],
    from: &mut [bool],
    to: &mut [bool],
    room: usize,
) -> Laid
    requires listed_tables { ListedTables directory.now top.tables top.cells
        × SoundOperator plan.now directory.now top.tables operator }
    requires cells_le_room { (top.cells ≤ room) × (room ≤ length work.old) × (room ≤ 65536) }
    requires in_bounds { (32768 ≤ length order.old) × (16384 ≤ length aside.old)
        × Ready doc.now rows from.old to.old }
    ensures { Owes room top.cells (made_width directory.now operator)
        (make (world_of (catalogue_of doc.now rows)) (operator_of plan.now operator)
        (tables_in work.old directory.now top.tables))
        work.old work.new result }
{
    let at = top.cells;
    match operator {
        Operator::One => whole::one(work, at, room),
        Operator::Attach { t, cell } => {
            arms::rowwise(
                plan,
                doc,
                rows,
                directory,
                t,
                Task::Attach(cell),
                work,
                at,
                room,
            )
        }
        Operator::Project { t, n, from: k } => {
            arms::rowwise(
                plan,
                doc,
                rows,
                directory,
                t,
                Task::Project(n, k),
                work,
                at,
                room,
            )
        }
        Operator::Union { t, u } => arms::union(directory, t, u, work, at, room),
        Operator::Minus { t, u } => arms::minus(plan, doc, rows, directory, t, u, work, at, room),
        Operator::Select { t, c } => {
            arms::rowwise(
                plan,
                doc,
                rows,
                directory,
                t,
                Task::Select(c),
                work,
                at,
                room,
            )
        }
        Operator::Join { t, c, u, d } => arms::join(directory, t, c, u, d, work, at, room),
        Operator::Number { t, p, n, from: k } => {
            arms::number(plan, directory, t, p, n, k, work, order, aside, at, room)
        }
        Operator::Apply { t, f, c, d } => {
            arms::rowwise(
                plan,
                doc,
                rows,
                directory,
                t,
                Task::Apply(f, c, d),
                work,
                at,
                room,
            )
        }
        Operator::Value { t, c } => {
            arms::rowwise(
                plan,
                doc,
                rows,
                directory,
                t,
                Task::Value(c),
                work,
                at,
                room,
            )
        }
        Operator::Counts { t, c } => arms::counts(directory, t, c, work, at, room),
        Operator::Truths { t } => arms::truths(doc, rows, directory, t, work, at, room),
        Operator::Once { t, c } => arms::once(directory, t, c, work, at, room),
        Operator::Step { t, axis, test } => {
            arms::steps(
                doc, rows, directory, t, axis, test, work, from, to, at, room,
            )
        }
        Operator::Root { t, k } => arms::root(plan, doc, rows, directory, t, k, work, at, room),
    }
}
