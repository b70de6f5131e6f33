// Steps over mark sets: a step takes the marks of its contexts and leaves the marks of the nodes that it reaches, in
// one pass over the rows for each axis.
#![tactic(auto)]

ghost use Rattle.step_parts.specs.Steps.{Ready, Step};

use codes::{Axis, Test};

// A step: the marks of the nodes that some marked row has on the axis, in its own fragment, and that pass the test.
// What `to` marked before does not matter.
pub fn step(doc: &[u8], rows: usize, axis: Axis, test: Test, from: &[bool], to: &mut [bool])
    requires { Ready doc.now rows from.now to.old }
    ensures { Step doc.now rows axis test from.now
        to.old to.new }
{
    match axis {
        Axis::Child => forward_axes::child_step(doc, rows, test, from, to),
        Axis::Descendant => forward_axes::descendant_step(doc, rows, test, false, from, to),
        Axis::DescendantOrSelf => forward_axes::descendant_step(doc, rows, test, true, from, to),
        Axis::Itself => forward_axes::self_step(doc, rows, test, from, to),
        Axis::Parent => reverse_axes::parent_step(doc, rows, test, from, to),
        Axis::Ancestor => reverse_axes::ancestor_step(doc, rows, test, from, to),
        Axis::Following => forward_axes::following_step(doc, rows, test, from, to),
        Axis::Preceding => reverse_axes::preceding_step(doc, rows, test, from, to),
    }
}
