// The work of the runner: the tables of a sound plan, laid end to end in the lent cells.
#![tactic(auto)]

ghost use Rattle.std.specs.Prelude.{◌≡◌, ◌≤◌, ◌<◌, length, MatchResult, Ok, Err};
ghost use Rattle.meaning.specs.Calls.{room};
ghost use Rattle.meaning.specs.Catalogue.{catalogue_of};
ghost use Rattle.meaning.specs.World.{world_of};
ghost use Rattle.step_parts.specs.Steps.{Known, Ready};
ghost use Rattle.running.specs.Leaving.{Walks, AcceptedPlan, carried_out, refused_at};

use codes::limits::ROWS;
use codes::refusals::Stop;
use directory::stand;
use laying::{Turned, lay};
use operators::Top;
use tables::Unlaid;

// The tables of a plan: the start and the rows of the last one, and the cells that all fill.
#[derive(Clone, Copy)]
pub struct Tables {
    pub start: usize,
    pub rows: usize,
    pub filled: usize,
}

// What the operators of a plan come to: their tables; or the place of refusal 6 or 7.
pub type Walked = Result<Tables, Stop>;

// The refusal of the operator at an offset.
fn refused(unlaid: Unlaid, at: usize) -> Stop
    ensures { result ≡ refused_at unlaid at }
{
    match unlaid {
        Unlaid::Full => Stop::Full(at),
        Unlaid::Fails => Stop::Failed(at),
    }
}

// What the operator at an offset came to, with its refusal.
fn located(turned: Turned, at: usize) -> Result<Top, Stop>
    ensures { MatchResult turned (λ top. result ≡ Ok top) (λ unlaid. result ≡ Err (refused_at unlaid at)) }
{
    turned.map_err(|unlaid| refused(unlaid, at))
}

// Performs the operators of a sound plan in order. Each record is read once; what its operator costs is said there.
fn walk(
    plan: &[u8],
    doc: &[u8],
    rows: usize,
    directory: &mut [usize],
    work: &mut [i64],
    order: &mut [u16],
    aside: &mut [u16],
    from: &mut [bool],
    to: &mut [bool],
    room: usize,
) -> Walked
    requires accepted_plan { AcceptedPlan plan.now × (length directory.old ≡ 1536) × (room ≤ length work.old)
        × (room ≤ 65536) }
    requires in_bounds { (32768 ≤ length order.old) × (16384 ≤ length aside.old)
        × Ready doc.now rows from.old to.old }
    ensures { Walks (carried_out plan.now doc.now rows room) work.new result }
{
    let mut at = 0;
    let mut top = Top {
        tables: 0,
        cells: 0,
    };
    // As it is: a record says where the next one begins, so no range counts them.
    while at < plan.len() {
        let Some(found) = plan_records::read(plan, at) else {
            // never: an accepted plan has a sound record at each offset before its end
            return Err(Stop::Failed(at));
        };
        let operator = found.operator;
        let turned = lay(
            plan, doc, rows, operator, top, directory, work, order, aside, from, to, room,
        );
        top = located(turned, at)?;
        at = found.next;
    }
    let last = stand(directory, top.tables - 1);
    Ok(Tables {
        start: last.at,
        rows: last.rows,
        filled: top.cells,
    })
}

// Runs a sound plan over a sound catalogue. The directory and what the operators work in are made here, once a run.
pub fn work_out(plan: &[u8], doc: &[u8], rows: usize, work: &mut [i64]) -> Walked
    requires { AcceptedPlan plan.now × Known doc.now rows }
    ensures { Walks (carried_out plan.now doc.now rows (room (length work.old)))
        work.new result }
{
    let mut directory = [0usize; 1536];
    let mut order = [0u16; 32768];
    let mut aside = [0u16; 16384];
    let mut from = [false; ROWS];
    let mut to = [false; ROWS];
    let room = lent::room_of(work.len());
    walk(
        plan,
        doc,
        rows,
        &mut directory,
        work,
        &mut order,
        &mut aside,
        &mut from,
        &mut to,
        room,
    )
}
