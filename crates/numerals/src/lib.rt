// Bytes, spaces, words and numbers read from a lent text, from an offset on.
#![tactic(auto)]

ghost use Rattle.std.specs.Prelude.{◌≡◌, ◌≤◌, length, drop};
ghost use Rattle.laws.specs.Characters;
ghost use Rattle.numerals.specs.Numerals;
ghost use Rattle.numerals.specs.Texts;
ghost use Rattle.numerals.specs.Answers;

// The place where no text of the grammar goes on.
#[derive(Clone, Copy)]
pub struct Stuck(pub usize);

// What was read and where it ends.
#[derive(Clone, Copy)]
pub struct Read<T> {
    pub what: T,
    pub next: usize,
}

// A number's value and where it ends; or the place where no text of the grammar goes on.
pub type Numeral = Result<Read<usize>, Stuck>;

// Where a fixed word ends; or the place where it does not go on.
pub type Fixed = Result<usize, Stuck>;

// The byte at an offset, 256 at the end.
// As it is: (a) 256 for the end is the word of the definition, Texts.Looks, and one `match` takes both.
pub fn byte(text: &[u8], at: usize) -> usize
    ensures { Texts.Looks text.now at result }
{
    if at < text.len() {
        usize::from(text[at])
    } else {
        256
    }
}

// Whether a byte is one of `0` to `9`.
#[tactic(auto, unfolding(laws::specs::Characters::is_digit))]
pub fn is_digit(b: usize) -> bool
    ensures { result ≡ Characters.is_digit b }
{
    matches!(b, 48..=57)
}

// Whether a byte is a space, a tab, the end of a line or a return.
#[tactic(auto, unfolding(laws::specs::Characters::is_space))]
pub fn is_space(b: usize) -> bool
    ensures { result ≡ Characters.is_space b }
{
    matches!(b, 0x20 | 0x09 | 0x0A | 0x0D)
}

// Where the spaces from an offset on end.
pub fn spaces(text: &[u8], at: usize) -> usize
    requires { at ≤ length text.now }
    ensures { (drop result text.now ≡ Texts.drop_spaces (drop at text.now))
        × Answers.From text.now at result }
{
    for i in at..text.len() {
        if !is_space(byte(text, i)) {
            return i;
        }
    }
    text.len()
}

// The bytes of a word, or of the rest of one, from an offset on.
pub fn word(text: &[u8], at: usize, rest: &[u8]) -> Fixed
    requires { at ≤ length text.now }
    ensures { (Answers.told_fixed text.now result
        ≡ Texts.after rest.now (drop at text.now))
        × Answers.From text.now at (Answers.fixed_place result) }
{
    for (i, wanted) in rest.iter().enumerate() {
        let place = at + i;
        if byte(text, place) != usize::from(*wanted) {
            return Err(Stuck(place));
        }
    }
    Ok(at + rest.len())
}

// The digits from an offset on, behind digits of a value.
fn digits_from(text: &[u8], at: usize, most: usize, value: usize) -> Numeral
    requires { (at ≤ length text.now) × (value ≤ most) × (most ≤ 2147483648) }
    ensures { (Answers.told_numeral text.now result
        ≡ Numerals.numeral_from most value (drop at text.now))
        × Answers.From text.now at (Answers.read_place result) }
{
    let mut n = value;
    for i in at..text.len() {
        let b = byte(text, i);
        if !is_digit(b) {
            return Ok(Read { what: n, next: i });
        }
        let next = n * 10 + (b - 48);
        if most < next {
            return Err(Stuck(i));
        }
        n = next;
    }
    Ok(Read {
        what: n,
        next: text.len(),
    })
}

// A number of at most `most`, leading zeros allowed; stuck at the digit that passes it.
pub fn number(text: &[u8], at: usize, most: usize) -> Numeral
    requires { (at ≤ length text.now) × (most ≤ 2147483648) }
    ensures { (Answers.told_numeral text.now result ≡ Numerals.numeral most (drop at text.now))
        × Answers.From text.now at (Answers.read_place result) }
{
    if !is_digit(byte(text, at)) {
        return Err(Stuck(at));
    }
    digits_from(text, at, most, 0)
}

// A number of at most `most` without a leading zero.
pub fn canonical(text: &[u8], at: usize, most: usize) -> Numeral
    requires { (at ≤ length text.now) × (most ≤ 2147483648) }
    ensures { (Answers.told_numeral text.now result ≡ Numerals.canonical most (drop at text.now))
        × Answers.From text.now at (Answers.read_place result) }
{
    if byte(text, at) != 48 {
        return number(text, at, most);
    }
    let next = at + 1;
    if is_digit(byte(text, next)) {
        return Err(Stuck(next));
    }
    Ok(Read { what: 0, next })
}

// The number of a name.
#[tactic(auto, unfolding(crate::specs::Numerals::name_number))]
pub fn name_number(text: &[u8], at: usize) -> Numeral
    requires { at ≤ length text.now }
    ensures { (Answers.told_numeral text.now result ≡ Numerals.name_number (drop at text.now))
        × Answers.From text.now at (Answers.read_place result) }
{
    canonical(text, at, 65535)
}
