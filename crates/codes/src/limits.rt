// The bounds that document 01 sets, each named once.

// Rows of a catalogue.
pub const ROWS: usize = 2048;
// The deepest level of a row.
pub const DEEPEST: usize = 63;
// Records of a query.
pub const RECORDS: usize = 128;
// Levels of nesting of a query.
pub const LEVELS: usize = 32;
// Operators of a plan.
pub const OPERATORS: usize = 512;
// Cells of work that count.
pub const CELLS: usize = 65536;
