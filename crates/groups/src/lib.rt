// The operators that go by groups, RC, RE and RX: a group is the rows that hold one cell. Groups come by first
// appearance.
#![tactic(auto)]

ghost use Rattle.std.specs.Prelude.{◌≡◌, ◌*◌, ◌≤◌, ◌<◌, length};
ghost use Rattle.laws.specs.Attempt.{gives};
ghost use Rattle.meaning.specs.Catalogue.{catalogue_of};
ghost use Rattle.meaning.specs.Operators;
ghost use Rattle.meaning.specs.World.{world_of};
ghost use Rattle.step_parts.specs.Steps.{Ready};
ghost use Rattle.tables.specs.Layout.{table_at, Inside, Owes};

use codes::{Axis, Test};
use gathering::Gather;
use tables::{Laid, Stand, Unlaid};

// RC: each cell of column c with how many rows hold it. Few looks at each row where the column climbs; else at most
// each row against each other, twice. It has no use for a catalogue or for marks.
pub fn counts(work: &mut [i64], s: Stand, c: usize, at: usize, room: usize) -> Laid
    requires { Inside at s × (at ≤ room) × (room ≤ length work.old) × (room ≤ 65536) × (c < s.width) }
    ensures { Owes room at 2 (gives (Operators.counts (table_at work.old s) c))
        work.old work.new result }
{
    let up = tables::order::climbs(work, s, c);
    let doc = [0; 1];
    let mut from = [false; 1];
    let mut to = [false; 1];
    gathering::each_group(
        &doc,
        0,
        Gather::Count(c),
        work,
        s,
        up,
        &mut from,
        &mut to,
        at,
        room,
    )
}

// RE: each cell of column 0 with the truth of its group's items. Failing comes before room. Few looks at each row
// where the column climbs; else at most each row against each other, a few times. It has no use for marks.
pub fn truths(doc: &[u8], rows: usize, work: &mut [i64], s: Stand, at: usize, room: usize) -> Laid
    requires { Inside at s × (at ≤ room) × (room ≤ length work.old) × (10 * rows ≤ length doc.now)
        × (s.width ≡ 3) }
    ensures { Owes room at 2
        (Operators.truths (world_of (catalogue_of doc.now rows)) (table_at work.old s))
        work.old work.new result }
{
    let up = tables::order::climbs(work, s, 0);
    if !gathering::settles(work, s, up) {
        return Err(Unlaid::Fails);
    }
    let mut from = [false; 1];
    let mut to = [false; 1];
    gathering::each_group(
        doc,
        rows,
        Gather::Truth,
        work,
        s,
        up,
        &mut from,
        &mut to,
        at,
        room,
    )
}

// RX: per different cell of column 0 the nodes of a step from its nodes in column 1, each once, by rising rank.
// Failing comes before room. Each group costs the catalogue's rows; few looks at each row where column 0 climbs, else
// at most each row against each other, twice.
pub fn steps(
    doc: &[u8],
    rows: usize,
    work: &mut [i64],
    s: Stand,
    axis: Axis,
    test: Test,
    from: &mut [bool],
    to: &mut [bool],
    at: usize,
    room: usize,
) -> Laid
    requires inside { Inside at s × (at ≤ room) × (room ≤ length work.old) × (s.width ≡ 2) }
    requires ready { Ready doc.now rows from.old to.old }
    ensures { Owes room at 2
        (Operators.steps (world_of (catalogue_of doc.now rows)) axis test (table_at work.old s))
        work.old work.new result }
{
    if !stepping::all_nodes(work, s, rows) {
        return Err(Unlaid::Fails);
    }
    let up = tables::order::climbs(work, s, 0);
    gathering::each_group(
        doc,
        rows,
        Gather::Step(axis, test),
        work,
        s,
        up,
        from,
        to,
        at,
        room,
    )
}
