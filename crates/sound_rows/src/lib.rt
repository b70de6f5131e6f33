// A row of a catalogue, checked by itself.
#![tactic(auto)]

ghost use Rattle.std.specs.Prelude.{◌≡◌, ◌+◌, ◌*◌, ◌≤◌, length};
ghost use Rattle.laws.specs.Attempt.{provided, gives};
ghost use Rattle.meaning.specs.Catalogue;
ghost use Rattle.doc_rows.specs.Fields;
ghost use Rattle.sound_rows.specs.Kinds;
ghost use Rattle.sound_rows.specs.Answers;

use cells::Rank;
use codes::limits::DEEPEST;

// The mark of a row.
const DN: u16 = 0x444E;

// Whether a number is a name number, 0 to 65535.
fn is_name(prop: i32) -> bool
    ensures { result ≡ Catalogue.is_name prop }
{
    0 <= prop && prop < 65536
}

// A text covers no rows and is no root.
#[tactic(auto, unfolding(crate::specs::Kinds::text_sound))]
fn text_sound(size: usize, level: usize) -> bool
    ensures { result ≡ Kinds.text_sound size level }
{
    size == 0 && 1 <= level
}

// An element has a name; a text is sound; there is no other kind.
fn kind_sound(size: usize, level: usize, kind: usize, prop: i32) -> bool
    ensures { result ≡ Kinds.kind_sound size level kind prop }
{
    match kind {
        1 => is_name(prop),
        3 => text_sound(size, level),
        _ => false,
    }
}

// The row of a rank that is all there and has its mark, read: sound in its own fields, where its level may be at most
// `most`.
fn own_row(doc: &[u8], r: Rank, most: usize) -> Option<usize>
    requires { 10 * r.0 + 10 ≤ length doc.now }
    ensures { Answers.level_of result
        ≡ provided (Catalogue.own_sound (Catalogue.catalogue_of doc.now r.0) r.0 most)
        (gives (Fields.level_at doc.now r.0)) }
{
    let l = doc_rows::level(doc, r);
    if most < l || DEEPEST < l {
        return None;
    }
    kind_sound(
        doc_rows::size(doc, r),
        l,
        doc_rows::kind(doc, r),
        doc_rows::prop(doc, r),
    )
    .then_some(l)
}

// The row of a rank, read: it is all there, has its mark, and is sound in its own fields.
pub fn read_row(doc: &[u8], r: Rank, most: usize) -> Option<usize>
    requires { 10 * r.0 ≤ length doc.now }
    ensures { Answers.level_of result
        ≡ provided (Catalogue.row_sound doc.now r.0 most)
        (gives (Fields.level_at doc.now r.0)) }
{
    let at = 10 * r.0;
    if !cells::fits(doc, at, 10) {
        return None;
    }
    let mark = cells::mark(doc, at);
    match mark {
        DN => own_row(doc, r, most),
        0..=0x444D | 0x444F..=0xFFFF => None,
    }
}
