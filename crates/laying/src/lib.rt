// One operator of a plan: its table laid behind those that stand, and entered.
#![tactic(auto)]

ghost use Rattle.std.specs.Prelude.{◌≤◌, ◌<◌, length};
ghost use Rattle.meaning.specs.Catalogue.{catalogue_of};
ghost use Rattle.meaning.specs.Operators.{make};
ghost use Rattle.meaning.specs.World.{world_of};
ghost use Rattle.step_parts.specs.Steps.{Ready};
ghost use Rattle.plan_records.specs.Decoded.{operator_of};
ghost use Rattle.directory.specs.Directory.{tables_in, ListedTables};
ghost use Rattle.directory.specs.Sound.{made_width, SoundOperator};
ghost use Rattle.laying.specs.Goes.{Goes};

use directory::{enter, width};
use operators::{Top, perform};
use plan_records::Operator;
use tables::{Stand, Unlaid};

// What one operator comes to: the end of the tables with its own, or why it laid none.
pub type Turned = Result<Top, Unlaid>;

// Lays the table of one operator behind those that stand, and enters it.
pub fn lay(
    plan: &[u8],
    doc: &[u8],
    rows: usize,
    operator: Operator,
    top: Top,
    directory: &mut [usize],
    work: &mut [i64],
    order: &mut [u16],
    aside: &mut [u16],
    from: &mut [bool],
    to: &mut [bool],
    room: usize,
) -> Turned
    requires listed_tables { ListedTables directory.old top.tables top.cells
        × SoundOperator plan.now directory.old top.tables operator }
    requires tables_bound { (top.tables < 512) × (top.cells ≤ room) × (room ≤ length work.old) × (room ≤ 65536) }
    requires in_bounds { (32768 ≤ length order.old) × (16384 ≤ length aside.old)
        × Ready doc.now rows from.old to.old }
    ensures { Goes room top (made_width directory.old operator)
        (make (world_of (catalogue_of doc.now rows)) (operator_of plan.now operator)
        (tables_in work.old directory.old top.tables))
        work.old work.new directory.old directory.new result }
{
    let n = perform(
        plan, doc, rows, operator, directory, top, work, order, aside, from, to, room,
    )?;
    let w = width(directory, operator);
    let s = Stand {
        at: top.cells,
        rows: n,
        width: w,
    };
    enter(directory, top.tables, s);
    Ok(Top {
        tables: top.tables + 1,
        cells: top.cells + n * w,
    })
}
