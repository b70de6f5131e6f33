// Writing the records of a plan over lent bytes. Each function takes the position to write at and gives the position
// after. No function loops.
#![tactic(auto)]

ghost use Rattle.std.specs.Prelude.{[], ◌∷◌, ◌++◌, ◌+◌, ◌^◌, ◌<◌, length};
ghost use Rattle.cells.specs.Bytes.{bytes_of};
ghost use Rattle.meaning.specs.Plan.{RT, RA, RP, RU, RD, RS, RJ, RN, RF, RV, RC, RE, RK, RX, RO};
ghost use Rattle.meaning.specs.Written.{operator_bytes};
ghost use Rattle.pen.specs.Penned.{Pens};
ghost use Rattle.writing.specs.Listed.{columns_of, keys_of};

use codes::{Axis, Function, Test, marks};

// The columns of a projection: the rules of the translation name one to four.
#[derive(Clone, Copy)]
pub enum Columns {
    One(u8),
    Two(u8, u8),
    Three(u8, u8, u8),
    Four(u8, u8, u8, u8),
}

// The keys of a numbering.
#[derive(Clone, Copy)]
pub enum Keys {
    One(u8),
    Two(u8, u8),
}

// Writes how many columns there are, then each.
fn put_columns(plan: &mut [u8], at: usize, columns: Columns) -> usize
    requires { at + 5 < 2 ^ 64 }
    ensures { Pens at (length (columns_of columns) ∷ columns_of columns)
        plan.old plan.new result }
{
    match columns {
        Columns::One(a) => pen::put_pair(plan, at, 1, a),
        Columns::Two(a, b) => pen::put_three(plan, at, 2, a, b),
        Columns::Three(a, b, c) => pen::put_four(plan, at, 3, a, b, c),
        Columns::Four(a, b, c, d) => {
            let first = pen::put(plan, at, 4);
            pen::put_four(plan, first, a, b, c, d)
        }
    }
}

// Writes how many keys there are, then each.
fn put_keys(plan: &mut [u8], at: usize, keys: Keys) -> usize
    requires { at + 3 < 2 ^ 64 }
    ensures { Pens at (length (keys_of keys) ∷ keys_of keys) plan.old plan.new result }
{
    match keys {
        Keys::One(a) => pen::put_pair(plan, at, 1, a),
        Keys::Two(a, b) => pen::put_three(plan, at, 2, a, b),
    }
}

// Writes a mark and the number of a table: what every record but RT opens with.
fn head(plan: &mut [u8], at: usize, mark: usize, t: usize) -> usize
    requires { at + 4 < 2 ^ 64 }
    ensures { Pens at (bytes_of 2 mark ++ bytes_of 2 t) plan.old plan.new result }
{
    let table = pen::put2(plan, at, mark);
    pen::put2(plan, table, t)
}

// Writes a record of one table and one byte.
fn with_byte(plan: &mut [u8], at: usize, mark: usize, t: usize, byte: u8) -> usize
    requires { at + 5 < 2 ^ 64 }
    ensures { Pens at (bytes_of 2 mark ++ bytes_of 2 t ++ byte ∷ []) plan.old plan.new result }
{
    let field = head(plan, at, mark, t);
    pen::put(plan, field, byte)
}

// Writes a record of two tables.
fn with_table(plan: &mut [u8], at: usize, mark: usize, t: usize, u: usize) -> usize
    requires { at + 6 < 2 ^ 64 }
    ensures { Pens at (bytes_of 2 mark ++ bytes_of 2 t ++ bytes_of 2 u) plan.old plan.new result }
{
    let table = head(plan, at, mark, t);
    pen::put2(plan, table, u)
}

// RT: one row, one cell, 1.
pub fn one(plan: &mut [u8], at: usize) -> usize
    requires { at + 16 < 2 ^ 64 }
    ensures { Pens at (operator_bytes RT) plan.old plan.new result }
{
    pen::put2(plan, at, marks::RT)
}

// RA: adds a column of that cell.
pub fn attach(plan: &mut [u8], at: usize, t: usize, cell: i64) -> usize
    requires { at + 16 < 2 ^ 64 }
    ensures { Pens at (operator_bytes (RA t cell)) plan.old plan.new result }
{
    let field = head(plan, at, marks::RA, t);
    pen::put8(plan, field, cell)
}

// RP: those columns.
pub fn project(plan: &mut [u8], at: usize, t: usize, columns: Columns) -> usize
    requires { at + 16 < 2 ^ 64 }
    ensures { Pens at (operator_bytes (RP t (columns_of columns))) plan.old plan.new result }
{
    let field = head(plan, at, marks::RP, t);
    put_columns(plan, field, columns)
}

// RU: rows of t, then u.
pub fn union(plan: &mut [u8], at: usize, t: usize, u: usize) -> usize
    requires { at + 16 < 2 ^ 64 }
    ensures { Pens at (operator_bytes (RU t u)) plan.old plan.new result }
{
    with_table(plan, at, marks::RU, t, u)
}

// RD: rows of t equal to no row of u.
pub fn minus(plan: &mut [u8], at: usize, t: usize, u: usize) -> usize
    requires { at + 16 < 2 ^ 64 }
    ensures { Pens at (operator_bytes (RD t u)) plan.old plan.new result }
{
    with_table(plan, at, marks::RD, t, u)
}

// RS: rows whose column c is true.
pub fn select(plan: &mut [u8], at: usize, t: usize, c: u8) -> usize
    requires { at + 16 < 2 ^ 64 }
    ensures { Pens at (operator_bytes (RS t c)) plan.old plan.new result }
{
    with_byte(plan, at, marks::RS, t, c)
}

// RJ: for each row of t, each row of u with equal cells in columns c and d; both rows joined.
pub fn join(plan: &mut [u8], at: usize, t: usize, c: u8, u: usize, d: u8) -> usize
    requires { at + 16 < 2 ^ 64 }
    ensures { Pens at (operator_bytes (RJ t c u d)) plan.old plan.new result }
{
    let field = head(plan, at, marks::RJ, t);
    let table = pen::put(plan, field, c);
    let last = pen::put2(plan, table, u);
    pen::put(plan, last, d)
}

// RN: rows in rising order by column p (255: none), then the keys; adds a column counting from 1 within equal p.
pub fn number(plan: &mut [u8], at: usize, t: usize, p: u8, keys: Keys) -> usize
    requires { at + 16 < 2 ^ 64 }
    ensures { Pens at (operator_bytes (RN t p (keys_of keys))) plan.old plan.new result }
{
    let field = head(plan, at, marks::RN, t);
    let list = pen::put(plan, field, p);
    put_keys(plan, list, keys)
}

// RF: adds a function of two cells.
pub fn apply(plan: &mut [u8], at: usize, t: usize, f: Function, c: u8, d: u8) -> usize
    requires { at + 16 < 2 ^ 64 }
    ensures { Pens at (operator_bytes (RF t f c d)) plan.old plan.new result }
{
    let field = head(plan, at, marks::RF, t);
    pen::put_three(plan, field, u8::from(f), c, d)
}

// RF with function 7: adds the value of one cell.
pub fn value(plan: &mut [u8], at: usize, t: usize, c: u8) -> usize
    requires { at + 16 < 2 ^ 64 }
    ensures { Pens at (operator_bytes (RV t c)) plan.old plan.new result }
{
    let field = head(plan, at, marks::RF, t);
    pen::put_pair(plan, field, 7, c)
}

// RC: how many rows hold each cell of column c.
pub fn counts(plan: &mut [u8], at: usize, t: usize, c: u8) -> usize
    requires { at + 16 < 2 ^ 64 }
    ensures { Pens at (operator_bytes (RC t c)) plan.old plan.new result }
{
    with_byte(plan, at, marks::RC, t, c)
}

// RE: the truth of each group.
pub fn truths(plan: &mut [u8], at: usize, t: usize) -> usize
    requires { at + 16 < 2 ^ 64 }
    ensures { Pens at (operator_bytes (RE t)) plan.old plan.new result }
{
    head(plan, at, marks::RE, t)
}

// RK: t, where no cell of column c occurs twice.
pub fn once(plan: &mut [u8], at: usize, t: usize, c: u8) -> usize
    requires { at + 16 < 2 ^ 64 }
    ensures { Pens at (operator_bytes (RK t c)) plan.old plan.new result }
{
    with_byte(plan, at, marks::RK, t, c)
}

// RX: a step from the nodes of each group.
pub fn step(plan: &mut [u8], at: usize, t: usize, axis: Axis, test: Test) -> usize
    requires { at + 16 < 2 ^ 64 }
    ensures { Pens at (operator_bytes (RX t axis test)) plan.old plan.new result }
{
    let field = head(plan, at, marks::RX, t);
    let name = pen::put_pair(plan, field, u8::from(axis), codes::test_number(test));
    pen::put2(plan, name, codes::test_name(test))
}

// RO: adds the root of fragment k.
pub fn root(plan: &mut [u8], at: usize, t: usize, k: u8) -> usize
    requires { at + 16 < 2 ^ 64 }
    ensures { Pens at (operator_bytes (RO t k)) plan.old plan.new result }
{
    with_byte(plan, at, marks::RO, t, k)
}
