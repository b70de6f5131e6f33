// The cells of the table of an operator, asked of the runner: the plan to run, and where the table then stands.
#![tactic(auto)]

ghost use Rattle.std.specs.Prelude.{◌≡◌, ◌+◌, ◌≤◌, ◌<◌, length};
ghost use Rattle.lines.specs.Placed.{Put};
ghost use Rattle.runner.specs.Answers.{answered};
ghost use Rattle.shown_tables.specs.Places.{asked_plan, place_in, placed, PlaceStands};

use runner::Ran;

// The cells of a table, from `start` up to `end`.
#[derive(Clone, Copy)]
pub struct Place {
    pub start: usize,
    pub end: usize,
}

// Writes the plan that ends with operator n, whose record ends at `end`. The last table of a plan has width 3:
// where that of operator n has not, three columns of it follow, `RP n 3 0 0 0`.
pub fn ask(plan: &[u8], end: usize, n: usize, width: usize, asked: &mut [u8]) -> usize
    requires { (end ≤ length plan.now) × (end + 8 ≤ length asked.old) × (n < 512) }
    ensures { Put asked.old asked.new 0 (asked_plan plan.now end n width) result }
{
    let a = pen::put_word(asked, 0, &plan[0..end]);
    if width == 3 {
        return a;
    }
    let more = [0x52u8, 0x50, (n / 256) as u8, (n % 256) as u8, 3, 0, 0, 0];
    pen::put_word(asked, a, &more)
}

// The cells from `start` up to `end`, where all up to there are in the room.
fn within(start: usize, end: usize, room: usize) -> Option<Place>
    requires { start ≤ end }
    ensures { (result ≡ placed start end room) × PlaceStands room result }
{
    if room < end {
        return None;
    }
    Some(Place { start, end })
}

// Where the table of that width stands after the run of that plan, if all tables up to it are in the room. Its
// three columns, where they were asked for, have as many rows and stand directly behind it. The runner lays tables
// end to end, so the tests that find no place for it find none that is missing.
pub fn place_of(ran: Ran, width: usize, room: usize) -> Option<Place>
    requires { (width ≤ 6) × (room ≤ 65536) }
    ensures { (result ≡ place_in (answered ran) width room) × PlaceStands room result }
{
    let Ok(tables) = ran else {
        return None;
    };
    if tables.filled < tables.start {
        return None;
    }
    if width == 3 {
        return within(tables.start, tables.filled, room);
    }
    if room < tables.rows {
        return None;
    }
    let cells = tables.rows * width;
    if tables.start < cells {
        return None;
    }
    within(tables.start - cells, tables.start, room)
}
