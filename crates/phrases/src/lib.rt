// The texts of a query's records by themselves, written over lent bytes: what stands before, between and after the
// operands of a record.
#![tactic(auto)]

ghost use Rattle.std.specs.Prelude.{◌≡◌, ◌+◌, ◌^◌, ◌<◌, ◌≤◌, ◌++◌, length};
ghost use Rattle.cells.specs.Cell.{held, cell_of};
ghost use Rattle.cells.specs.Small.{Small};
ghost use Rattle.pen.specs.Penned.{Pens};
ghost use Rattle.grammar.specs.Words.{axis_word};
ghost use Rattle.grammar.specs.Written.{dollar, truth_text, item_text, test_text, step_text, function_word, spaced};
ghost use Rattle.grammar.specs.Written.{root_text, opening, closing};
ghost use Rattle.query_records.specs.Decoded.{record_of};
ghost use Rattle.phrases.specs.Phrases.{head_of, between_of, tail_of, Headed};

use cells::Item;
use codes::{Axis, Function, Test};
use query_records::Record;

// The letter of a variable.
fn letter(v: usize) -> u8
    requires { v < 8 }
    ensures { result ≡ 97 + v }
{
    (97 + v) as u8
}

// `$a`.
fn put_variable(text: &mut [u8], at: usize, v: usize) -> usize
    requires { (v < 8) × (at + 2 < 2 ^ 64) }
    ensures { Pens at (dollar v) text.old text.new result }
{
    pen::put_pair(text, at, b'$', letter(v))
}

// The head of `for` or `let`: its word, the variable that it binds, and what stands behind that.
fn put_binding(text: &mut [u8], at: usize, head: &[u8], v: usize, behind: &[u8]) -> usize
    requires { (v < 8) × (at + length head.now + 2 + length behind.now < 2 ^ 64) }
    ensures { Pens at (head.now ++ (dollar v ++ behind.now)) text.old text.new result }
{
    let a = pen::put_word(text, at, head);
    let b = put_variable(text, a, v);
    pen::put_word(text, b, behind)
}

// `root(1)`.
fn put_root(text: &mut [u8], at: usize, k: usize) -> usize
    requires { at + 26 < 2 ^ 64 }
    ensures { Pens at (root_text k) text.old text.new result }
{
    let a = pen::put_word(text, at, b"root(");
    let b = pen::put_number(text, a, k);
    pen::put(text, b, b')')
}

// `true()` or `false()`.
fn put_truth(text: &mut [u8], at: usize, b: bool) -> usize
    requires { at + 7 < 2 ^ 64 }
    ensures { Pens at (truth_text b) text.old text.new result }
{
    if b {
        pen::put_word(text, at, b"true()")
    } else {
        pen::put_word(text, at, b"false()")
    }
}

// A literal.
fn put_item(text: &mut [u8], at: usize, item: Item) -> usize
    requires { Small item × (at + 21 < 2 ^ 64) }
    ensures { Pens at (item_text (held (cell_of item))) text.old text.new result }
{
    match item {
        Item::Integer(z) => pen::put_signed(text, at, z),
        Item::Truth(b) => put_truth(text, at, b),
        // never: no literal is a node
        Item::Node(_) => at,
    }
}

// What stands before the operands of a record: the whole text, where it has none.
// As it is: (a) the contracts decide each lent byte, and `Display` says nothing of what is written.
#[tactic(auto, unfolding(crate::specs::Phrases::head_of, query_records::specs::Decoded::record_of))]
pub fn put_head(text: &mut [u8], at: usize, kind: Record) -> usize
    requires { Headed kind × (at + 64 < 2 ^ 64) }
    ensures { Pens at (head_of (record_of kind)) text.old text.new result }
{
    match kind {
        Record::Literal(item) => put_item(text, at, item),
        Record::Empty => pen::put_word(text, at, b"()"),
        Record::Root(k) => put_root(text, at, k),
        Record::Variable(v) => put_variable(text, at, v),
        Record::Let(v) => put_binding(text, at, b"let ", v, b" := "),
        Record::For(v) => put_binding(text, at, b"for ", v, b" in "),
        Record::If => pen::put_word(text, at, b"if ("),
        Record::Count => pen::put_word(text, at, b"count("),
        Record::Data => pen::put_word(text, at, b"data("),
        Record::Sequence | Record::Apply(_) | Record::Step(_, _) => at,
    }
}

// The word of a function, a space before it and one after it.
fn function_text(f: Function) -> &'static [u8]
    ensures says { result.now ≡ spaced (function_word f) }
    ensures few { length result.now ≤ 6 }
{
    match f {
        Function::Add => b" + ",
        Function::Subtract => b" - ",
        Function::Multiply => b" * ",
        Function::Divide => b" idiv ",
        Function::Equal => b" eq ",
        Function::Less => b" lt ",
    }
}

// What stands between the two operands of a record.
#[tactic(auto, unfolding(crate::specs::Phrases::between_of, query_records::specs::Decoded::record_of))]
fn between(kind: Record) -> &'static [u8]
    ensures says { result.now ≡ between_of (record_of kind) }
    ensures few { length result.now ≤ 8 }
{
    match kind {
        Record::Sequence => b", ",
        Record::Let(_) | Record::For(_) => b" return ",
        Record::Apply(f) => function_text(f),
        _ => b"",
    }
}

// Puts it there.
pub fn put_between(text: &mut [u8], at: usize, kind: Record) -> usize
    requires { at + 64 < 2 ^ 64 }
    ensures { Pens at (between_of (record_of kind)) text.old text.new result }
{
    pen::put_word(text, at, between(kind))
}

// The name of an axis.
fn axis_name(axis: Axis) -> &'static [u8]
    ensures says { result.now ≡ (axis_word axis).bytes }
    ensures few { length result.now ≤ 18 }
{
    match axis {
        Axis::Child => b"child",
        Axis::Descendant => b"descendant",
        Axis::DescendantOrSelf => b"descendant-or-self",
        Axis::Itself => b"self",
        Axis::Parent => b"parent",
        Axis::Ancestor => b"ancestor",
        Axis::Following => b"following",
        Axis::Preceding => b"preceding",
    }
}

// `n` and a number.
fn put_name(text: &mut [u8], at: usize, n: usize) -> usize
    requires { at + 21 < 2 ^ 64 }
    ensures { Pens at (test_text (Test.Named n)) text.old text.new result }
{
    let a = pen::put(text, at, b'n');
    pen::put_number(text, a, n)
}

// A test.
#[tactic(auto, unfolding(grammar::specs::Written::test_text))]
fn put_test(text: &mut [u8], at: usize, test: Test) -> usize
    requires { at + 21 < 2 ^ 64 }
    ensures { Pens at (test_text test) text.old text.new result }
{
    match test {
        Test::AnyNode => pen::put_word(text, at, b"node()"),
        Test::Element => pen::put_word(text, at, b"*"),
        Test::Text => pen::put_word(text, at, b"text()"),
        Test::Named(n) => put_name(text, at, n),
    }
}

// `/`, axis, `::`, test.
fn put_step(text: &mut [u8], at: usize, axis: Axis, test: Test) -> usize
    requires { at + 64 < 2 ^ 64 }
    ensures { Pens at (step_text axis test) text.old text.new result }
{
    let a = pen::put(text, at, b'/');
    let b = pen::put_word(text, a, axis_name(axis));
    let c = pen::put_word(text, b, b"::");
    put_test(text, c, test)
}

// What stands after the operands of a record.
#[tactic(auto, unfolding(crate::specs::Phrases::tail_of, query_records::specs::Decoded::record_of))]
pub fn put_tail(text: &mut [u8], at: usize, kind: Record) -> usize
    requires { at + 64 < 2 ^ 64 }
    ensures { Pens at (tail_of (record_of kind)) text.old text.new result }
{
    match kind {
        Record::Count | Record::Data => pen::put(text, at, b')'),
        Record::Step(axis, test) => put_step(text, at, axis, test),
        _ => at,
    }
}

// `(` where the text is grouped.
// As it is: (d) one function for `(` and `)` would take the byte, and say less where it is called.
#[tactic(auto, using(pen::proofs::Putting::pens_none))]
pub fn put_open(text: &mut [u8], at: usize, grouped: bool) -> usize
    requires { at + 1 < 2 ^ 64 }
    ensures { Pens at (opening grouped) text.old text.new result }
{
    if grouped {
        pen::put(text, at, b'(')
    } else {
        at
    }
}

// `)` where the text is grouped.
#[tactic(auto, using(pen::proofs::Putting::pens_none))]
pub fn put_close(text: &mut [u8], at: usize, grouped: bool) -> usize
    requires { at + 1 < 2 ^ 64 }
    ensures { Pens at (closing grouped) text.old text.new result }
{
    if grouped {
        pen::put(text, at, b')')
    } else {
        at
    }
}
