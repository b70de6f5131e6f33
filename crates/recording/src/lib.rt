// The records of a typed query, in an array of 1,024 bytes: each is added behind the others, or put in before its left
// operand. What passes the end of the array is lost.
#![tactic(auto)]

ghost use Rattle.std.specs.Prelude.{◌≡◌, ◌-◌, ◌≤◌, ◌<◌, min, length};
ghost use Rattle.grammar.specs.Records.{record_ql, record_qb, record_qe, record_qr, record_qv, record_qs, record_qt, record_qf};
ghost use Rattle.grammar.specs.Records.{record_qi, record_qo, record_qc, record_qd, record_qx};
ghost use Rattle.recording.specs.Recorded.{most_bytes, Lent, Adds, Inserts};
ghost use Rattle.recording.specs.Moves.{Puts, Moves};

use codes;
use codes::{Axis, Function, Test};

// The bytes of the array.
pub const BYTES: usize = 1024;

// Writes a record from `at` on, as far as the array reaches.
fn put(bytes: &mut [u8], at: usize, part: &[u8])
    requires { (length bytes.old ≡ most_bytes) × (at ≤ most_bytes) }
    ensures { Puts at part.now (min (length part.now) (most_bytes - at))
        bytes.old bytes.new }
{
    let n = part.len().min(BYTES - at);
    bytes[at..at + n].copy_from_slice(&part[..n]);
}

// Moves the bytes from `from` up to `made` on, the last first, as far as the array reaches.
fn shift(bytes: &mut [u8], from: usize, made: usize, by: usize)
    requires { (length bytes.old ≡ most_bytes) × (made ≤ most_bytes) × (by ≤ 6) }
    ensures { Moves from by (min made (most_bytes - by)) bytes.old bytes.new }
{
    let last = made.min(BYTES - by);
    if from < last {
        bytes.copy_within(from..last, from + by);
    }
}

// Adds a record behind the `made` bytes of the others, and gives how many there are then.
fn add(bytes: &mut [u8], made: usize, part: &[u8]) -> usize
    requires { Lent made bytes.old × (length part.now ≤ 6) }
    ensures { Adds part.now made bytes.old bytes.new result }
{
    put(bytes, made, part);
    (made + part.len()).min(BYTES)
}

// Puts a record in at `from`, before those that stand there, and gives how many bytes there are then.
fn insert(bytes: &mut [u8], from: usize, made: usize, part: &[u8]) -> usize
    requires { Lent made bytes.old × (from ≤ made) × (length part.now ≤ 6) }
    ensures { Inserts part.now from made bytes.old bytes.new result }
{
    shift(bytes, from, made, part.len());
    put(bytes, from, part);
    (made + part.len()).min(BYTES)
}

// As it is: a function for each record; with one type of all records, a range of each field would stand beside each
// variant, and a length beside the bytes that one encoder makes.

// QL: adds an integer, by its 32 bits.
#[tactic(auto, unfolding(grammar::specs::Records::record_ql, cells::specs::Bytes::bytes_of))]
pub fn add_integer(bytes: &mut [u8], made: usize, bits: usize) -> usize
    requires { Lent made bytes.old }
    ensures { Adds (record_ql bits) made bytes.old bytes.new result }
{
    let part = [
        b'Q',
        b'L',
        (bits / 256 / 256 / 256 % 256) as u8,
        (bits / 256 / 256 % 256) as u8,
        (bits / 256 % 256) as u8,
        (bits % 256) as u8,
    ];
    add(bytes, made, &part)
}

// QB: adds a boolean.
#[tactic(auto, unfolding(grammar::specs::Records::record_qb, cells::specs::Bytes::bytes_of))]
pub fn add_truth(bytes: &mut [u8], made: usize, truth: bool) -> usize
    requires { Lent made bytes.old }
    ensures { Adds (record_qb truth) made bytes.old bytes.new result }
{
    add(bytes, made, &[b'Q', b'B', u8::from(truth)])
}

// QE: adds the empty sequence.
#[tactic(auto, unfolding(grammar::specs::Records::record_qe, cells::specs::Bytes::bytes_of))]
pub fn add_empty(bytes: &mut [u8], made: usize) -> usize
    requires { Lent made bytes.old }
    ensures { Adds record_qe made bytes.old bytes.new result }
{
    add(bytes, made, b"QE")
}

// QI: adds a choice.
#[tactic(auto, unfolding(grammar::specs::Records::record_qi, cells::specs::Bytes::bytes_of))]
pub fn add_if(bytes: &mut [u8], made: usize) -> usize
    requires { Lent made bytes.old }
    ensures { Adds record_qi made bytes.old bytes.new result }
{
    add(bytes, made, b"QI")
}

// QC: adds the number of items.
#[tactic(auto, unfolding(grammar::specs::Records::record_qc, cells::specs::Bytes::bytes_of))]
pub fn add_count(bytes: &mut [u8], made: usize) -> usize
    requires { Lent made bytes.old }
    ensures { Adds record_qc made bytes.old bytes.new result }
{
    add(bytes, made, b"QC")
}

// QD: adds each item's value.
#[tactic(auto, unfolding(grammar::specs::Records::record_qd, cells::specs::Bytes::bytes_of))]
pub fn add_data(bytes: &mut [u8], made: usize) -> usize
    requires { Lent made bytes.old }
    ensures { Adds record_qd made bytes.old bytes.new result }
{
    add(bytes, made, b"QD")
}

// QR: adds the root of a fragment.
#[tactic(auto, unfolding(grammar::specs::Records::record_qr, cells::specs::Bytes::bytes_of))]
pub fn add_root(bytes: &mut [u8], made: usize, fragment: usize) -> usize
    requires { Lent made bytes.old × (fragment < 256) }
    ensures { Adds (record_qr fragment) made bytes.old bytes.new result }
{
    add(bytes, made, &[b'Q', b'R', fragment as u8])
}

// QV: adds a variable.
#[tactic(auto, unfolding(grammar::specs::Records::record_qv, cells::specs::Bytes::bytes_of))]
pub fn add_variable(bytes: &mut [u8], made: usize, variable: usize) -> usize
    requires { Lent made bytes.old × (variable < 256) }
    ensures { Adds (record_qv variable) made bytes.old bytes.new result }
{
    add(bytes, made, &[b'Q', b'V', variable as u8])
}

// QT: adds a let of a variable.
#[tactic(auto, unfolding(grammar::specs::Records::record_qt, cells::specs::Bytes::bytes_of))]
pub fn add_let(bytes: &mut [u8], made: usize, variable: usize) -> usize
    requires { Lent made bytes.old × (variable < 256) }
    ensures { Adds (record_qt variable) made bytes.old bytes.new result }
{
    add(bytes, made, &[b'Q', b'T', variable as u8])
}

// QF: adds a for of a variable.
#[tactic(auto, unfolding(grammar::specs::Records::record_qf, cells::specs::Bytes::bytes_of))]
pub fn add_for(bytes: &mut [u8], made: usize, variable: usize) -> usize
    requires { Lent made bytes.old × (variable < 256) }
    ensures { Adds (record_qf variable) made bytes.old bytes.new result }
{
    add(bytes, made, &[b'Q', b'F', variable as u8])
}

// QS: puts a sequence in before its first operand.
#[tactic(auto, unfolding(grammar::specs::Records::record_qs, cells::specs::Bytes::bytes_of))]
pub fn insert_sequence(bytes: &mut [u8], from: usize, made: usize) -> usize
    requires { Lent made bytes.old × (from ≤ made) }
    ensures { Inserts record_qs from made bytes.old bytes.new result }
{
    insert(bytes, from, made, b"QS")
}

// QO: puts a function of two numbers in before its first operand.
#[tactic(auto, unfolding(grammar::specs::Records::record_qo, cells::specs::Bytes::bytes_of))]
pub fn insert_function(bytes: &mut [u8], from: usize, made: usize, function: Function) -> usize
    requires { Lent made bytes.old × (from ≤ made) }
    ensures { Inserts (record_qo function) from made bytes.old bytes.new result }
{
    let part = [b'Q', b'O', u8::from(function)];
    insert(bytes, from, made, &part)
}

// QX: puts a step in before its operand.
#[tactic(auto, unfolding(grammar::specs::Records::record_qx, cells::specs::Bytes::bytes_of))]
pub fn insert_step(bytes: &mut [u8], from: usize, made: usize, axis: Axis, test: Test) -> usize
    requires { Lent made bytes.old × (from ≤ made) }
    ensures { Inserts (record_qx axis test) from made bytes.old bytes.new result }
{
    let name = codes::test_name(test);
    let part = [
        b'Q',
        b'X',
        u8::from(axis),
        codes::test_number(test),
        (name / 256 % 256) as u8,
        (name % 256) as u8,
    ];
    insert(bytes, from, made, &part)
}
