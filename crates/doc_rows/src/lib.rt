// The rows of a catalogue: the fields of a row, roots and fragments.
#![tactic(auto)]

ghost use Rattle.std.specs.Prelude.{◌≡◌, ℕ, ◌+◌, ◌*◌, ◌-◌, ◌≤◌, ◌<◌, length};
ghost use Rattle.meaning.specs.Catalogue;
ghost use Rattle.meaning.specs.World;
ghost use Rattle.doc_rows.specs.Fields;
ghost use Rattle.doc_rows.specs.Answers;

use cells::Rank;

// How many rows directly after the row are deeper than it, as the row says.
pub fn size(doc: &[u8], r: Rank) -> usize
    requires { 10 * r.0 + 10 ≤ length doc.now }
    ensures { (result ≡ Fields.size_at doc.now r.0) × (result < 65536) }
{
    cells::word2(doc, 10 * r.0 + 2)
}

// How deep the row is: 0 for a root.
pub fn level(doc: &[u8], r: Rank) -> usize
    requires { 10 * r.0 + 10 ≤ length doc.now }
    ensures { (result ≡ Fields.level_at doc.now r.0) × (result < 256) }
{
    cells::byte(doc, 10 * r.0 + 4)
}

// 1 for an element, 3 for a text.
pub fn kind(doc: &[u8], r: Rank) -> usize
    requires { 10 * r.0 + 10 ≤ length doc.now }
    ensures { (result ≡ Fields.kind_at doc.now r.0) × (result < 256) }
{
    cells::byte(doc, 10 * r.0 + 5)
}

// The name number of an element, the number of a text.
pub fn prop(doc: &[u8], r: Rank) -> i32
    requires { 10 * r.0 + 10 ≤ length doc.now }
    ensures { result ≡ Fields.prop_at doc.now r.0 }
{
    cells::int4(doc, 10 * r.0 + 6)
}

// The root of fragment k, counted from 1.
pub fn root(doc: &[u8], rows: usize, k: usize) -> Option<Rank>
    requires { (10 * rows ≤ length doc.now) × (1 ≤ k) }
    ensures { Answers.found result
        ≡ World.member (World.roots (Catalogue.catalogue_of doc.now rows)) (k - 1) }
{
    let mut left = k - 1;
    for r in 0..rows {
        if level(doc, Rank(r)) == 0 {
            if left == 0 {
                return Some(Rank(r));
            }
            left -= 1;
        }
    }
    None
}

// The root of the fragment that the row of rank r is in: the last row of level 0 up to it.
pub fn fragment(doc: &[u8], r: Rank) -> Rank
    requires { 10 * r.0 + 10 ≤ length doc.now }
    ensures { (n : ℕ) → result.0 ≡ World.fragment (Catalogue.catalogue_of doc.now n) r.0 }
{
    for v in (1..=r.0).rev() {
        if level(doc, Rank(v)) == 0 {
            return Rank(v);
        }
    }
    Rank(0)
}
