// Arithmetic, values, roots and truth of cells (document 01, 'Query records'). The plan's operators and the evaluator
// both stand on these.
#![tactic(auto)]

ghost use Rattle.std.specs.Prelude.{◌≡◌, ◌*◌, ◌≤◌, ◌<◌, length};
ghost use Rattle.meaning.specs.Catalogue.{catalogue_of};
ghost use Rattle.meaning.specs.World;
ghost use Rattle.items.specs.Answers;

use cells::{Item, Rank};
use codes::Function;

// The kind of a text.
const TEXT: usize = 3;

// The integer of an item.
#[tactic(auto, unfolding(meaning::specs::World::integer_in))]
fn integer_in(item: Item) -> Option<i32>
    ensures { Answers.integer_tried result ≡ World.integer_in (Answers.holding item) }
{
    match item {
        Item::Integer(z) => Some(z),
        Item::Truth(_) | Item::Node(_) => None,
    }
}

// The integer that a cell holds.
fn integer_of(a: i64) -> Option<i32>
    ensures { Answers.integer_tried result ≡ World.integer_of a }
{
    integer_in(cells::item_of(a)?)
}

// An integer as a cell.
fn given(n: Option<i32>) -> Option<i64>
    ensures { Answers.tried result ≡ Answers.integer_tried n }
{
    n.map(|z| i64::from(z))
}

// A function of two integers.
fn function(f: Function, x: i32, y: i32) -> Option<i64>
    ensures { Answers.tried result ≡ World.function f x y }
{
    match f {
        Function::Add => given(cells::sum(x, y)),
        Function::Subtract => given(cells::difference(x, y)),
        Function::Multiply => given(cells::product(x, y)),
        Function::Divide => given(cells::quotient(x, y)),
        Function::Equal => Some(cells::truth_cell(cells::equal(x, y))),
        Function::Less => Some(cells::truth_cell(cells::less(x, y))),
    }
}

// Function f of two cells: a cell that holds no integer fails, then a zero divisor, then a result outside the range.
pub fn arith(f: Function, a: i64, b: i64) -> Option<i64>
    ensures { Answers.tried result ≡ World.arith f a b }
{
    function(f, integer_of(a)?, integer_of(b)?)
}

// The number of a text.
fn text_value(doc: &[u8], rows: usize, r: Rank) -> Option<i64>
    requires { 10 * rows ≤ length doc.now }
    ensures { Answers.tried result ≡ Answers.text_value (catalogue_of doc.now rows) r.0 }
{
    if rows <= r.0 {
        return None;
    }
    if doc_rows::kind(doc, r) != TEXT {
        return None;
    }
    Some(i64::from(doc_rows::prop(doc, r)))
}

// The value of an item.
fn value_in(doc: &[u8], rows: usize, item: Item) -> Option<i64>
    requires { 10 * rows ≤ length doc.now }
    ensures { Answers.tried result ≡ World.value_in (catalogue_of doc.now rows) (Answers.holding item) }
{
    match item {
        Item::Integer(z) => Some(i64::from(z)),
        Item::Truth(b) => Some(cells::truth_cell(b)),
        Item::Node(r) => text_value(doc, rows, r),
    }
}

// The value of a cell: integer and boolean are themselves, a text gives its number, an element fails.
pub fn value(doc: &[u8], rows: usize, a: i64) -> Option<i64>
    requires { 10 * rows ≤ length doc.now }
    ensures { Answers.tried result ≡ World.value (catalogue_of doc.now rows) a }
{
    value_in(doc, rows, cells::item_of(a)?)
}

// The root of fragment k, counted from 1.
pub fn root(doc: &[u8], rows: usize, k: usize) -> Option<i64>
    requires { (10 * rows ≤ length doc.now) × (rows < 65536) × (1 ≤ k) }
    ensures { Answers.tried result ≡ World.root_of (catalogue_of doc.now rows) k }
{
    let r = doc_rows::root(doc, rows, k)?;
    Some(cells::node_cell(r))
}

// Truth of a condition whose first item this is, and which `alone` says is its only one.
#[tactic(auto, unfolding(crate::specs::Answers::truth_of, laws::specs::Attempt::provided))]
fn truth_from(item: Item, alone: bool) -> Option<bool>
    ensures { Answers.judged result ≡ Answers.truth_of item alone }
{
    match item {
        Item::Node(_) => Some(true),
        Item::Truth(b) => alone.then_some(b),
        Item::Integer(z) => alone.then_some(!cells::equal(z, 0)),
    }
}

// Truth of a condition's items: none is false, a node in front is true, one boolean is itself, one integer is true
// unless 0.
pub fn truth(items: &[i64]) -> Option<bool>
    ensures { Answers.judged result ≡ World.truth items.now }
{
    if items.is_empty() {
        return Some(false);
    }
    let item = cells::item_of(items[0])?;
    truth_from(item, items.len() == 1)
}
