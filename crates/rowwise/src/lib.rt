// The row-wise operators RA, RP, RD, RS and RF over the rows of a table.
#![tactic(auto)]

pub mod each;

use codes::Function;
use tables::Stand;

// What a row-wise operator does with each row. The columns of Project stand in the plan's bytes: how many, and from
// where on.
#[derive(Clone, Copy)]
pub enum Task {
    Attach(i64),
    Project(usize, usize),
    Minus(Stand),
    Select(usize),
    Apply(Function, usize, usize),
    Value(usize),
}
