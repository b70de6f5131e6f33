// The record of each operator: all its bytes are there, and its own fields are in their ranges.
ghost use Rattle.std.specs.Prelude.{◌≡◌, Some};
ghost use Rattle.cells.specs.Cell;
ghost use Rattle.meaning.specs.Plan;
ghost use Rattle.plan_records.specs.Decoded.{Means, pair_field};
ghost use Rattle.plan_records.specs.Arms;

use crate::{Decoded, Operator};
use cells::{Item, byte, fits, int8, item_of, word2};
use codes::{Axis, Function, test_of};

// An operator that was read, and the offset after its record.
pub fn sound(operator: Operator, next: usize) -> Option<Decoded>
    ensures { result ≡ Some (record { operator = operator; next = next }) }
{
    Some(Decoded { operator, next })
}

// The two tables of RU and RD.
// As it is: (d) the two read other fields, and share no more than their shape.
pub fn two_tables(plan: &[u8], at: usize) -> Option<(usize, usize)>
    ensures { pair_field result ≡ Arms.two_tables plan.now at }
{
    if !fits(plan, at, 6) {
        return None;
    }
    Some((word2(plan, at + 2), word2(plan, at + 4)))
}

// The table and the column of RS, RC and RK.
pub fn column(plan: &[u8], at: usize) -> Option<(usize, usize)>
    ensures { pair_field result ≡ Arms.column plan.now at }
{
    if !fits(plan, at, 5) {
        return None;
    }
    Some((word2(plan, at + 2), byte(plan, at + 4)))
}

// RT: no field.
pub fn one(plan: &[u8], at: usize) -> Option<Decoded>
    ensures { Means plan.now result (Arms.one plan.now at) }
{
    if !fits(plan, at, 2) {
        return None;
    }
    let next = at + 2;
    sound(Operator::One, next)
}

// Whether a cell holds an integer or a boolean.
fn plain(cell: i64) -> bool
    ensures { result ≡ Plan.plain_in (Cell.held cell) }
{
    let Some(item) = item_of(cell) else {
        return false;
    };
    !matches!(item, Item::Node(_))
}

// RA: a table, then a cell of eight bytes, an integer or a boolean.
pub fn attach(plan: &[u8], at: usize) -> Option<Decoded>
    ensures { Means plan.now result (Arms.attach plan.now at) }
{
    if !fits(plan, at, 12) {
        return None;
    }
    let next = at + 12;
    let t = word2(plan, at + 2);
    let cell = int8(plan, at + 4);
    if !plain(cell) {
        return None;
    }
    sound(Operator::Attach { t, cell }, next)
}

// RP: a table, how many columns (1 to 6), then the columns.
pub fn project(plan: &[u8], at: usize) -> Option<Decoded>
    ensures { Means plan.now result (Arms.project plan.now at) }
{
    if !fits(plan, at, 5) {
        return None;
    }
    let n = byte(plan, at + 4);
    let size = 5 + n;
    if !fits(plan, at, size) {
        return None;
    }
    let next = at + size;
    let t = word2(plan, at + 2);
    let from = at + 5;
    match n {
        1..=6 => sound(Operator::Project { t, n, from }, next),
        0 | 7.. => None,
    }
}

// RJ: a table and a column, twice.
pub fn join(plan: &[u8], at: usize) -> Option<Decoded>
    ensures { Means plan.now result (Arms.join plan.now at) }
{
    if !fits(plan, at, 8) {
        return None;
    }
    let next = at + 8;
    let t = word2(plan, at + 2);
    let c = byte(plan, at + 4);
    let u = word2(plan, at + 5);
    let d = byte(plan, at + 7);
    sound(Operator::Join { t, c, u, d }, next)
}

// RN: a table, p, how many keys (1 or 2), then the keys.
pub fn number(plan: &[u8], at: usize) -> Option<Decoded>
    ensures { Means plan.now result (Arms.number plan.now at) }
{
    if !fits(plan, at, 6) {
        return None;
    }
    let n = byte(plan, at + 5);
    let size = 6 + n;
    if !fits(plan, at, size) {
        return None;
    }
    let next = at + size;
    let t = word2(plan, at + 2);
    let p = byte(plan, at + 4);
    let from = at + 6;
    match n {
        1..=2 => sound(Operator::Number { t, p, n, from }, next),
        0 | 3.. => None,
    }
}

// RF with function 7: the value of one column.
fn value(plan: &[u8], at: usize) -> Option<Decoded>
    ensures { Means plan.now result (Arms.value plan.now at) }
{
    if !fits(plan, at, 6) {
        return None;
    }
    let next = at + 6;
    let t = word2(plan, at + 2);
    let c = byte(plan, at + 5);
    sound(Operator::Value { t, c }, next)
}

// RF with function 1 to 6 of two columns.
fn apply(plan: &[u8], at: usize) -> Option<Decoded>
    ensures { Means plan.now result (Arms.apply plan.now at) }
{
    if !fits(plan, at, 7) {
        return None;
    }
    let next = at + 7;
    let t = word2(plan, at + 2);
    let c = byte(plan, at + 5);
    let d = byte(plan, at + 6);
    let f = Function::try_from(plan[at + 4]).ok()?;
    sound(Operator::Apply { t, f, c, d }, next)
}

// RF: a table, a function, and one column for function 7, else two.
pub fn function(plan: &[u8], at: usize) -> Option<Decoded>
    ensures { Means plan.now result (Arms.function plan.now at) }
{
    if !fits(plan, at, 5) {
        return None;
    }
    let number = byte(plan, at + 4);
    match number {
        7 => value(plan, at),
        _ => apply(plan, at),
    }
}

// RE: a table.
pub fn truths(plan: &[u8], at: usize) -> Option<Decoded>
    ensures { Means plan.now result (Arms.truths plan.now at) }
{
    if !fits(plan, at, 4) {
        return None;
    }
    let next = at + 4;
    let t = word2(plan, at + 2);
    sound(Operator::Truths { t }, next)
}

// RX: a table, an axis, a test and a name of two bytes.
pub fn step(plan: &[u8], at: usize) -> Option<Decoded>
    ensures { Means plan.now result (Arms.step plan.now at) }
{
    if !fits(plan, at, 8) {
        return None;
    }
    let next = at + 8;
    let t = word2(plan, at + 2);
    let axis = Axis::try_from(plan[at + 4]).ok()?;
    let test = test_of(plan[at + 5], word2(plan, at + 6))?;
    sound(Operator::Step { t, axis, test }, next)
}

// RO: a table and a fragment, 1 to 255.
pub fn root(plan: &[u8], at: usize) -> Option<Decoded>
    ensures { Means plan.now result (Arms.root plan.now at) }
{
    if !fits(plan, at, 5) {
        return None;
    }
    let next = at + 5;
    let t = word2(plan, at + 2);
    let k = byte(plan, at + 4);
    match k {
        0 => None,
        _ => sound(Operator::Root { t, k }, next),
    }
}
