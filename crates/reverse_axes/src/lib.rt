// The axes that look back: parent, ancestor and preceding. Each is one pass over the rows, downwards: it takes the
// marks of the contexts and leaves the marks of the nodes that are reached.
#![tactic(auto)]

ghost use Rattle.codes.specs.declared.Axis.TheVariants as Axes;
ghost use Rattle.step_parts.specs.Steps.{Ready, Step};

use cells::Rank;
use codes::Test;
use step_parts::{end_of, level_of, pick, takes};

// The rows whose sizes cover a marked row: `next` is the least marked rank so far.
pub fn ancestor_step(doc: &[u8], rows: usize, test: Test, from: &[bool], to: &mut [bool])
    requires { Ready doc.now rows from.now to.old }
    ensures { Step doc.now rows Axes.Ancestor test from.now
        to.old to.new }
{
    let mut next = Rank(rows);
    for v in (0..rows).rev() {
        let end = end_of(doc, rows, Rank(v));
        to[v] = takes(next.0 <= end.0, doc, test, Rank(v));
        next = pick(from[v], Rank(v), next);
    }
}

// The rows that end before a marked row of their fragment: `last` is the greatest marked rank of the fragment so far,
// none past a root.
pub fn preceding_step(doc: &[u8], rows: usize, test: Test, from: &[bool], to: &mut [bool])
    requires { Ready doc.now rows from.now to.old }
    ensures { Step doc.now rows Axes.Preceding test from.now
        to.old to.new }
{
    let mut last = Rank(0);
    for v in (0..rows).rev() {
        let end = end_of(doc, rows, Rank(v));
        to[v] = takes(end.0 < last.0, doc, test, Rank(v));
        let latest = pick(from[v] & (last.0 == 0), Rank(v), last);
        let level = level_of(doc, rows, Rank(v));
        last = pick(level == 0, Rank(0), latest);
    }
}

// The parents of the marked rows: `waits` has for each level whether a marked row of that level has not met its parent
// yet.
pub fn parent_step(doc: &[u8], rows: usize, test: Test, from: &[bool], to: &mut [bool])
    requires { Ready doc.now rows from.now to.old }
    ensures { Step doc.now rows Axes.Parent test from.now
        to.old to.new }
{
    let mut waits = [false; 65];
    for v in (0..rows).rev() {
        let level = level_of(doc, rows, Rank(v));
        to[v] = takes(waits[level + 1], doc, test, Rank(v));
        let waiting = waits[level] | from[v];
        waits[level + 1] = false;
        waits[level] = waiting;
    }
}
