// Items, the cells that hold them, the numbers that bytes hold, and every signed operation.
#![tactic(auto)]

// The preorder rank of a node: the number of its row.
#[derive(Clone, Copy)]
pub struct Rank(pub usize);

// An item is an integer, a boolean or a node.
#[derive(Clone, Copy)]
pub enum Item {
    Integer(i32),
    Truth(bool),
    Node(Rank),
}

ghost use Rattle.std.specs.Prelude.{◌≡◌, ◌+◌, ◌≤◌, ◌<◌, pos, ◌+ℤ◌, ◌-ℤ◌, ◌*ℤ◌, length};
ghost use Rattle.std.specs.Int.Signed.{lt_z};
ghost use Rattle.cells.specs.Bytes;
ghost use Rattle.cells.specs.Cell;
ghost use Rattle.cells.specs.Small.{Small};
ghost use Rattle.cells.specs.Arithmetic.{number_of, quotient_of};

// Whether the n bytes from an offset on are all there.
pub fn fits(s: &[u8], at: usize, n: usize) -> bool
    ensures { result ≡ Bytes.fits s.now at n }
{
    at <= s.len() && n <= s.len() - at
}

// The byte at an offset.
pub fn byte(s: &[u8], at: usize) -> usize
    requires { at < length s.now }
    ensures { (result ≡ Bytes.byte_at s.now at) × (result < 256) }
{
    usize::from(s[at])
}

// The two bytes from an offset on, as one number.
// As it is: (d) an array of the bytes, each named, for `from_be_bytes` is no plainer than two halves, here and below.
pub fn word2(s: &[u8], at: usize) -> usize
    requires { at + 2 ≤ length s.now }
    ensures { (result ≡ Bytes.word s.now at 2) × (result < 65536) }
{
    let high = byte(s, at);
    let low = byte(s, at + 1);
    high * 256 + low
}

// The mark of a record: its first two bytes.
pub fn mark(s: &[u8], at: usize) -> u16
    requires { at + 2 ≤ length s.now }
    ensures { result ≡ Bytes.word s.now at 2 }
{
    word2(s, at) as u16
}

// The four bytes from an offset on, as one number.
pub fn word4(s: &[u8], at: usize) -> usize
    requires { at + 4 ≤ length s.now }
    ensures { (result ≡ Bytes.word s.now at 4) × (result < 0x1_0000_0000) }
{
    let high = word2(s, at);
    let low = word2(s, at + 2);
    high * 65536 + low
}

// The eight bytes from an offset on, as one number.
pub fn word8(s: &[u8], at: usize) -> usize
    requires { at + 8 ≤ length s.now }
    ensures { (result ≡ Bytes.word s.now at 8) × (result < 0x1_0000_0000_0000_0000) }
{
    let high = word4(s, at);
    let low = word4(s, at + 4);
    high * 0x1_0000_0000 + low
}

// The four bytes from an offset on, signed.
pub fn int4(s: &[u8], at: usize) -> i32
    requires { at + 4 ≤ length s.now }
    ensures { result ≡ Bytes.int4 s.now at }
{
    (word4(s, at) as u32).cast_signed()
}

// The eight bytes from an offset on, signed.
pub fn int8(s: &[u8], at: usize) -> i64
    requires { at + 8 ≤ length s.now }
    ensures { result ≡ Bytes.int8 s.now at }
{
    (word8(s, at) as u64).cast_signed()
}

// The 64 bits of a cell, as a number.
pub fn bits_of(cell: i64) -> usize
    ensures { result ≡ Bytes.bits8 cell }
{
    cell.cast_unsigned() as usize
}

// Equality of cells.
// As it is, with the three like it: (a) the word of the clauses, Cell.same, has this one place in code.
pub fn same(a: i64, b: i64) -> bool
    ensures { result ≡ Cell.same a b }
{
    a == b
}

// Order of cells, as signed numbers.
pub fn before(a: i64, b: i64) -> bool
    ensures { result ≡ Cell.before a b }
{
    a < b
}

// Whether a number is one of the integers.
pub fn in_range(z: i64) -> bool
    ensures { result ≡ Cell.in_range z }
{
    if z < -2147483648 {
        false
    } else {
        z < 2147483648
    }
}

// The cell of a boolean.
pub fn truth_cell(b: bool) -> i64
    ensures { result ≡ Cell.truth_cell b }
{
    if b { 0x1_0000_0001 } else { 0x1_0000_0000 }
}

// The cell of the node of a rank.
pub fn node_cell(r: Rank) -> i64
    requires { r.0 < 65536 }
    ensures { result ≡ Cell.node_cell r.0 }
{
    0x2_0000_0000 + (r.0 as i64)
}

// The cell of an item.
pub fn cell_of(item: Item) -> i64
    requires { Small item }
    ensures { result ≡ Cell.cell_of item }
{
    match item {
        Item::Integer(z) => i64::from(z),
        Item::Truth(b) => truth_cell(b),
        Item::Node(r) => node_cell(r),
    }
}

// The item that a cell holds.
pub fn item_of(cell: i64) -> Option<Item>
    ensures { result ≡ Cell.held cell }
{
    match cell {
        -0x8000_0000..=0x7fff_ffff => Some(Item::Integer(cell as i32)),
        0x1_0000_0000 => Some(Item::Truth(false)),
        0x1_0000_0001 => Some(Item::Truth(true)),
        0x2_0000_0000..=0x7fff_ffff_ffff_ffff => Some(Item::Node(Rank(
            (cell as usize) - 0x2_0000_0000,
        ))),
        _ => None,
    }
}

// The four operations: none where the result is outside the integers' range.
pub fn sum(x: i32, y: i32) -> Option<i32>
    ensures { result ≡ number_of (x +ℤ y) }
{
    x.checked_add(y)
}

pub fn difference(x: i32, y: i32) -> Option<i32>
    ensures { result ≡ number_of (x -ℤ y) }
{
    x.checked_sub(y)
}

pub fn product(x: i32, y: i32) -> Option<i32>
    ensures { result ≡ number_of (x *ℤ y) }
{
    x.checked_mul(y)
}

// The quotient, cut toward zero; none by zero.
pub fn quotient(x: i32, y: i32) -> Option<i32>
    ensures { result ≡ quotient_of x y }
{
    x.checked_div(y)
}

pub fn less(x: i32, y: i32) -> bool
    ensures { result ≡ lt_z x y }
{
    x < y
}

pub fn equal(x: i32, y: i32) -> bool
    ensures { result ≡ Cell.same x y }
{
    x == y
}
