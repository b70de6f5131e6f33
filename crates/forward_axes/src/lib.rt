// The axes that look ahead: self, child, descendant, descendant-or-self and following. Each is one pass over the rows,
// upwards: it takes the marks of the contexts and leaves the marks of the nodes that are reached.
#![tactic(auto)]

ghost use Rattle.codes.specs.declared.Axis.TheVariants as Axes;
ghost use Rattle.step_parts.specs.Steps.{Ready, Step, or_self};

use cells::Rank;
use codes::Test;
use step_parts::{end_of, level_of, pick, takes};

// The marked rows themselves.
pub fn self_step(doc: &[u8], rows: usize, test: Test, from: &[bool], to: &mut [bool])
    requires { Ready doc.now rows from.now to.old }
    ensures { Step doc.now rows Axes.Itself test from.now
        to.old to.new }
{
    for v in 0..rows {
        to[v] = takes(from[v], doc, test, Rank(v));
    }
}

// The descendants of the marked rows, with those rows themselves or without: `until` is past the last row that the size
// of a marked row covers.
pub fn descendant_step(
    doc: &[u8],
    rows: usize,
    test: Test,
    own: bool,
    from: &[bool],
    to: &mut [bool],
)
    requires { Ready doc.now rows from.now to.old }
    ensures { Step doc.now rows (or_self own) test from.now
        to.old to.new }
{
    let mut until = Rank(0);
    for v in 0..rows {
        let marked = from[v];
        let on = (v < until.0) | (own & marked);
        to[v] = takes(on, doc, test, Rank(v));
        let end = end_of(doc, rows, Rank(v));
        until = pick(marked & (until.0 <= end.0), Rank(end.0 + 1), until);
    }
}

// The rows after all that a marked row of their fragment covers: `least` is the least end of such rows, none past a
// root.
pub fn following_step(doc: &[u8], rows: usize, test: Test, from: &[bool], to: &mut [bool])
    requires { Ready doc.now rows from.now to.old }
    ensures { Step doc.now rows Axes.Following test from.now
        to.old to.new }
{
    let mut least = Rank(rows);
    for v in 0..rows {
        let level = level_of(doc, rows, Rank(v));
        let entered = pick(level == 0, Rank(rows), least);
        to[v] = takes(entered.0 < v, doc, test, Rank(v));
        let end = end_of(doc, rows, Rank(v));
        least = pick(from[v] & (end.0 < entered.0), end, entered);
    }
}

// The children of the marked rows: at one more than a level, `opens` has the mark of the last row of that level.
pub fn child_step(doc: &[u8], rows: usize, test: Test, from: &[bool], to: &mut [bool])
    requires { Ready doc.now rows from.now to.old }
    ensures { Step doc.now rows Axes.Child test from.now
        to.old to.new }
{
    let mut opens = [false; 65];
    for v in 0..rows {
        let level = level_of(doc, rows, Rank(v));
        let on = opens[level];
        to[v] = takes(on, doc, test, Rank(v));
        opens[level + 1] = from[v];
    }
}
