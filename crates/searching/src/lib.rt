// The part of a table that a cell can join with: it is searched for where the table's column climbs, and else it is
// the whole table.
#![tactic(auto)]

pub mod search;

// A part of a table's rows: its first row, and the row that it ends before.
#[derive(Clone, Copy)]
pub struct Part {
    pub start: usize,
    pub end: usize,
}
