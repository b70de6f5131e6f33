// Writing over lent bytes: single bytes, numbers as bytes, words, numbers in decimal. Each function but `clear` takes
// the position to write at and gives the position after. It runs on past the lent end, and what does not fit is not
// written: `put` alone asks how many bytes there are.
#![tactic(auto)]

ghost use Rattle.std.specs.Prelude.{◌≡◌, [], ◌∷◌, ◌+◌, ◌^◌, ◌<◌, length, take};
ghost use Rattle.cells.specs.Bytes.{bytes_of, bits8};
ghost use Rattle.laws.specs.Rows.{padded};
ghost use Rattle.pen.specs.Penned.{Pens};
ghost use Rattle.pen.specs.Decimal.{digits, decimal, signed};

// Writes one byte, where there is room for it.
pub fn put(bytes: &mut [u8], at: usize, byte: u8) -> usize
    requires { at + 1 < 2 ^ 64 }
    ensures { Pens at (byte ∷ []) bytes.old bytes.new result }
{
    if bytes.len() <= at {
        return at + 1;
    }
    bytes[at] = byte;
    at + 1
}

// Writes two bytes.
pub fn put_pair(bytes: &mut [u8], at: usize, a: u8, b: u8) -> usize
    requires { at + 2 < 2 ^ 64 }
    ensures { Pens at (a ∷ b ∷ []) bytes.old bytes.new result }
{
    let second = put(bytes, at, a);
    put(bytes, second, b)
}

// Writes three bytes.
pub fn put_three(bytes: &mut [u8], at: usize, a: u8, b: u8, c: u8) -> usize
    requires { at + 3 < 2 ^ 64 }
    ensures { Pens at (a ∷ b ∷ c ∷ []) bytes.old bytes.new result }
{
    let second = put(bytes, at, a);
    put_pair(bytes, second, b, c)
}

// Writes four bytes.
pub fn put_four(bytes: &mut [u8], at: usize, a: u8, b: u8, c: u8, d: u8) -> usize
    requires { at + 4 < 2 ^ 64 }
    ensures { Pens at (a ∷ b ∷ c ∷ d ∷ []) bytes.old bytes.new result }
{
    let third = put_pair(bytes, at, a, b);
    put_pair(bytes, third, c, d)
}

// Writes the last two bytes of a number, the higher first.
pub fn put2(bytes: &mut [u8], at: usize, number: usize) -> usize
    requires { at + 2 < 2 ^ 64 }
    ensures { Pens at (bytes_of 2 number) bytes.old bytes.new result }
{
    let low = put(bytes, at, (number / 256 % 256) as u8);
    put(bytes, low, (number % 256) as u8)
}

// Writes the last four bytes of a number.
pub fn put4(bytes: &mut [u8], at: usize, number: usize) -> usize
    requires { at + 4 < 2 ^ 64 }
    ensures { Pens at (bytes_of 4 number) bytes.old bytes.new result }
{
    let low = put2(bytes, at, number / 0x1_0000);
    put2(bytes, low, number)
}

// Writes the eight bytes of a cell.
pub fn put8(bytes: &mut [u8], at: usize, cell: i64) -> usize
    requires { at + 8 < 2 ^ 64 }
    ensures { Pens at (bytes_of 8 (bits8 cell)) bytes.old bytes.new result }
{
    let number = cells::bits_of(cell);
    let low = put4(bytes, at, number / 0x1_0000_0000);
    put4(bytes, low, number)
}

// Writes the bytes of a word.
pub fn put_word(bytes: &mut [u8], at: usize, word: &[u8]) -> usize
    requires { at + length word.now < 2 ^ 64 }
    ensures { Pens at word.now bytes.old bytes.new result }
{
    let mut end = at;
    for byte in word {
        end = put(bytes, end, *byte);
    }
    end
}

// The character of a digit.
fn digit(n: usize) -> u8
    requires { n < 10 }
    ensures { result ≡ 48 + n }
{
    b'0' + (n as u8)
}

// Writes a number in decimal, `left` digits at most: those before the last, then the last.
fn put_digits(bytes: &mut [u8], at: usize, left: usize, n: usize) -> usize
    requires { at + left < 2 ^ 64 }
    ensures { Pens at (digits left n) bytes.old bytes.new result }
{
    if left == 0 {
        return at;
    }
    if n < 10 {
        return put(bytes, at, digit(n));
    }
    let end = put_digits(bytes, at, left - 1, n / 10);
    put(bytes, end, digit(n % 10))
}

// Writes a number in decimal.
pub fn put_number(bytes: &mut [u8], at: usize, n: usize) -> usize
    requires { at + 20 < 2 ^ 64 }
    ensures { Pens at (decimal n) bytes.old bytes.new result }
{
    put_digits(bytes, at, 20, n)
}

// Writes an integer in decimal, with its sign.
pub fn put_signed(bytes: &mut [u8], at: usize, z: i32) -> usize
    requires { at + 21 < 2 ^ 64 }
    ensures { Pens at (signed z) bytes.old bytes.new result }
{
    let far = z.unsigned_abs() as usize;
    if z < 0 {
        let a = put(bytes, at, b'-');
        return put_number(bytes, a, far);
    }
    put_number(bytes, at, far)
}

// Zeroes every byte from `from` on.
pub fn clear(bytes: &mut [u8], from: usize)
    ensures { bytes.new ≡ padded 0 (length bytes.old) (take from bytes.old) }
{
    if from < bytes.len() {
        bytes[from..].fill(0);
    }
}
