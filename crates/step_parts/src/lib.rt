// What every axis's pass asks of a row: whether it passes the test, where the rows that its size covers end, its level.
#![tactic(auto)]

ghost use Rattle.std.specs.Prelude.{ℕ, ◌+◌, ◌*◌, ◌≤◌, ◌<◌, ◌≡◌, cond, ◌&&◌, length};
ghost use Rattle.meaning.specs.Catalogue.{catalogue_of};
ghost use Rattle.meaning.specs.World;
ghost use Rattle.step_parts.specs.Steps.{Known};

use cells::Rank;
use codes::Test;

// Whether a row is an element of a name.
fn named(doc: &[u8], v: Rank, name: usize) -> bool
    requires { 10 * v.0 + 10 ≤ length doc.now }
    ensures { (n : ℕ) → result ≡ World.passes (catalogue_of doc.now n) (Test.Named name) v.0 }
{
    if doc_rows::kind(doc, v) != 1 {
        return false;
    }
    let prop = cells::word4(doc, 10 * v.0 + 6);
    prop < 0x8000_0000 && prop == name
}

// Whether a row passes a test.
pub fn passes(doc: &[u8], test: Test, v: Rank) -> bool
    requires { 10 * v.0 + 10 ≤ length doc.now }
    ensures { (n : ℕ) → result ≡ World.passes (catalogue_of doc.now n) test v.0 }
{
    match test {
        Test::AnyNode => true,
        Test::Element => doc_rows::kind(doc, v) == 1,
        Test::Text => doc_rows::kind(doc, v) == 3,
        Test::Named(name) => named(doc, v, name),
    }
}

// The flag of a row that is on the axis or not.
pub fn takes(on: bool, doc: &[u8], test: Test, v: Rank) -> bool
    requires { 10 * v.0 + 10 ≤ length doc.now }
    ensures { (n : ℕ) → result ≡ (on && World.passes (catalogue_of doc.now n) test v.0) }
{
    on && passes(doc, test, v)
}

// One of two ranks.
pub fn pick(first: bool, a: Rank, b: Rank) -> Rank
    ensures { result.0 ≡ cond first a.0 b.0 }
{
    if first { a } else { b }
}

// The last row that the size of a row covers.
pub fn end_of(doc: &[u8], rows: usize, v: Rank) -> Rank
    requires { Known doc.now rows × (v.0 < rows) }
    ensures { (result.0 ≡ v.0 + (catalogue_of doc.now rows).size v.0) × (result.0 < rows) }
{
    Rank(v.0 + doc_rows::size(doc, v))
}

// The level of a row.
pub fn level_of(doc: &[u8], rows: usize, v: Rank) -> usize
    requires { Known doc.now rows × (v.0 < rows) }
    ensures { (result ≡ (catalogue_of doc.now rows).level v.0) × (result ≤ 63) }
{
    doc_rows::level(doc, v)
}
