// Query records: reading one, and what follows it.
#![tactic(auto)]

pub mod flags;

ghost use Rattle.std.specs.Prelude.{◌≡◌, Some};
ghost use Rattle.cells.specs.Bytes.{word};
ghost use Rattle.meaning.specs.Query;
ghost use Rattle.query_records.specs.Decoded.{number_field, record_of, Means, operands_of};
ghost use Rattle.query_records.specs.Arms.{variable_at, integer_record, boolean_record, root_record};
ghost use Rattle.query_records.specs.Arms.{apply_record, step_record};

use cells::{Item, fits, int4, word2};
use codes::{Axis, Function, Test, marks, test_of};

// One record by itself, without its operands.
#[derive(Clone, Copy)]
pub enum Record {
    Literal(Item),
    Empty,
    Root(usize),
    Variable(usize),
    Sequence,
    Let(usize),
    For(usize),
    If,
    Apply(Function),
    Count,
    Data,
    Step(Axis, Test),
}

// A record and the offset after it.
#[derive(Clone, Copy)]
pub struct Decoded {
    pub kind: Record,
    pub next: usize,
}

// What follows a record: no operand; no operand, and a variable must be bound; one operand; two; two of which the
// second sees one more variable; three.
// As it is: (d) none of the six cases stands for an absent value.
#[derive(Clone, Copy)]
pub enum Operands {
    None,
    Variable(usize),
    One,
    Two,
    Binding(usize),
    Three,
}

fn sound(kind: Record, next: usize) -> Option<Decoded>
    ensures { result ≡ Some (record { kind = kind; next = next }) }
{
    Some(Decoded { kind, next })
}

// The variable in the third byte of a record.
fn variable(query: &[u8], at: usize) -> Option<usize>
    ensures { number_field result ≡ variable_at query.now at }
{
    if !fits(query, at, 3) {
        return None;
    }
    let byte = query[at + 2];
    match byte {
        0..=7 => Some(usize::from(byte)),
        8..=255 => None,
    }
}

fn integer_record(query: &[u8], at: usize) -> Option<Decoded>
    ensures { Means result (integer_record query.now at) }
{
    if !fits(query, at, 6) {
        return None;
    }
    let next = at + 6;
    sound(Record::Literal(Item::Integer(int4(query, at + 2))), next)
}

fn boolean_record(query: &[u8], at: usize) -> Option<Decoded>
    ensures { Means result (boolean_record query.now at) }
{
    if !fits(query, at, 3) {
        return None;
    }
    let next = at + 3;
    let byte = query[at + 2];
    match byte {
        0 => sound(Record::Literal(Item::Truth(false)), next),
        1 => sound(Record::Literal(Item::Truth(true)), next),
        2..=255 => None,
    }
}

fn root_record(query: &[u8], at: usize) -> Option<Decoded>
    ensures { Means result (root_record query.now at) }
{
    if !fits(query, at, 3) {
        return None;
    }
    let next = at + 3;
    let byte = query[at + 2];
    match byte {
        0 => None,
        1..=255 => sound(Record::Root(usize::from(byte)), next),
    }
}

fn apply_record(query: &[u8], at: usize) -> Option<Decoded>
    ensures { Means result (apply_record query.now at) }
{
    if !fits(query, at, 3) {
        return None;
    }
    let next = at + 3;
    let f = Function::try_from(query[at + 2]).ok()?;
    sound(Record::Apply(f), next)
}

fn step_record(query: &[u8], at: usize) -> Option<Decoded>
    ensures { Means result (step_record query.now at) }
{
    if !fits(query, at, 6) {
        return None;
    }
    let next = at + 6;
    let axis = Axis::try_from(query[at + 2]).ok()?;
    let test = test_of(query[at + 3], word2(query, at + 4))?;
    sound(Record::Step(axis, test), next)
}

// The record at an offset.
pub fn read(query: &[u8], at: usize) -> Option<Decoded>
    ensures { Means result (Query.record_of query.now at (word query.now at 2)) }
{
    if !fits(query, at, 2) {
        return None;
    }
    let next = at + 2;
    let mark = word2(query, at);
    match mark {
        marks::QL => integer_record(query, at),
        marks::QB => boolean_record(query, at),
        marks::QE => sound(Record::Empty, next),
        marks::QR => root_record(query, at),
        marks::QV => sound(Record::Variable(variable(query, at)?), at + 3),
        marks::QS => sound(Record::Sequence, next),
        marks::QT => sound(Record::Let(variable(query, at)?), at + 3),
        marks::QF => sound(Record::For(variable(query, at)?), at + 3),
        marks::QI => sound(Record::If, next),
        marks::QO => apply_record(query, at),
        marks::QC => sound(Record::Count, next),
        marks::QD => sound(Record::Data, next),
        marks::QX => step_record(query, at),
        0..=0x5141
        | 0x5147..=0x5148
        | 0x514A..=0x514B
        | 0x514D..=0x514E
        | 0x5150..=0x5151
        | 0x5155
        | 0x5157
        | 0x5159.. => None,
    }
}

// What follows a record.
#[tactic(auto, unfolding(crate::specs::Decoded::record_of, crate::specs::Decoded::operands_of))]
pub fn following(kind: Record) -> Operands
    ensures { result ≡ operands_of (record_of kind) }
{
    match kind {
        Record::Literal(_) | Record::Empty | Record::Root(_) => Operands::None,
        Record::Variable(v) => Operands::Variable(v),
        Record::Let(v) | Record::For(v) => Operands::Binding(v),
        Record::Sequence | Record::Apply(_) => Operands::Two,
        Record::If => Operands::Three,
        Record::Count | Record::Data | Record::Step(_, _) => Operands::One,
    }
}
