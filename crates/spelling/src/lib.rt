// The words of a typed query, read from a lent text from an offset on, past the spaces; and the answers of the
// crates that read axes, tests, steps and the word behind an operand. Each answers what the definition of the reader
// does on what is left of the text.
#![tactic(auto)]

ghost use Rattle.std.specs.Prelude.{◌≡◌, ◌≤◌, ◌<◌, length, drop};
ghost use Rattle.laws.specs.Characters;
ghost use Rattle.grammar.specs.Spelled;
ghost use Rattle.grammar.specs.Words;
ghost use Rattle.parsing.specs.Reader;
ghost use Rattle.spelling.specs.Answers;

use codes::{Axis, Test};
use numerals::{Fixed, Numeral, Read, Stuck, byte, is_digit, is_space, spaces, word};
use parsing::{Next, Step};

// What stands directly before: a symbol; a word of letters or digits; a name.
#[derive(Clone, Copy)]
pub enum Before {
    Symbol,
    Word,
    Name,
}

// The word after an operand and where it ends; or the place where no text of the grammar goes on.
pub type NextRead = Result<Read<Next>, Stuck>;

// An axis and where it ends.
pub type AxisRead = Result<Read<Axis>, Stuck>;

// A test and where it ends.
pub type TestRead = Result<Read<Test>, Stuck>;

// A step and where it ends.
pub type StepRead = Result<Read<Step>, Stuck>;

// Whether a byte is a letter.
#[tactic(auto, unfolding(laws::specs::Characters::is_letter))]
fn is_letter(b: usize) -> bool
    ensures { result ≡ Characters.is_letter b }
{
    matches!(b, 65..=90 | 97..=122)
}

// Whether a byte is a letter or a digit.
#[tactic(auto, unfolding(grammar::specs::Spelled::joins))]
fn is_plain(b: usize) -> bool
    ensures { result ≡ Spelled.joins Words.word b }
{
    is_letter(b) || is_digit(b)
}

// Whether a word that begins with a byte would join what stands directly before.
#[tactic(auto, unfolding(grammar::specs::Spelled::joins))]
fn joins(before: Before, b: usize) -> bool
    ensures { result ≡ Spelled.joins (Answers.kind_is before) b }
{
    match before {
        Before::Symbol => false,
        Before::Word => is_plain(b),
        Before::Name => is_plain(b) || b == usize::from(b'-'),
    }
}

// Past the spaces; with no space the word that comes must not join what stands before.
pub fn enter(text: &[u8], at: usize, before: Before) -> Fixed
    requires { at ≤ length text.now }
    ensures { Answers.ReadsFixed text.now result
        (Answers.entered (Answers.kind_is before) (drop at text.now)) }
{
    let b = byte(text, at);
    if is_space(b) {
        return Ok(spaces(text, at));
    }
    if joins(before, b) {
        return Err(Stuck(at));
    }
    Ok(at)
}

// A word of one spelling.
pub fn fixed(text: &[u8], at: usize, before: Before, rest: &[u8]) -> Fixed
    requires { at ≤ length text.now }
    ensures { Answers.ReadsFixed text.now result
        (Reader.entry (Answers.kind_is before) (Reader.letters rest.now) (drop at text.now)) }
{
    let next = enter(text, at, before)?;
    word(text, next, rest)
}

// The rest of a word that stands for a value.
pub fn spelled<T: Copy>(text: &[u8], at: usize, rest: &[u8], what: T) -> Result<Read<T>, Stuck>
    requires { at ≤ length text.now }
    ensures { Answers.ReadsValue text.now result (Reader.spelled rest.now what (drop at text.now)) }
{
    let next = word(text, at, rest)?;
    Ok(Read { what, next })
}

// The empty parentheses behind a word of letters.
pub fn brackets(text: &[u8], at: usize) -> Fixed
    requires { at ≤ length text.now }
    ensures { Answers.ReadsFixed text.now result (Reader.brackets tt (drop at text.now)) }
{
    let next = fixed(text, at, Before::Word, b"(")?;
    fixed(text, next, Before::Symbol, b")")
}

// The rest of a word of letters, and the empty parentheses behind it.
pub fn called(text: &[u8], at: usize, rest: &[u8]) -> Fixed
    requires { at ≤ length text.now }
    ensures { Answers.ReadsFixed text.now result
        (Answers.called_word rest.now tt (drop at text.now)) }
{
    let next = word(text, at, rest)?;
    brackets(text, next)
}

// Whether a byte is one of `a` to `h`.
#[tactic(auto, unfolding(parsing::specs::Reader::is_variable))]
fn is_variable(b: usize) -> bool
    ensures { result ≡ Reader.is_variable b }
{
    matches!(b, 97..=104)
}

// A variable, a to h, behind its `$`.
pub fn variable(text: &[u8], at: usize) -> Numeral
    requires { at ≤ length text.now }
    ensures { Answers.ReadsValue text.now result (Reader.read_variable (drop at text.now)) }
{
    let from = spaces(text, at);
    let b = byte(text, from);
    if !is_variable(b) {
        return Err(Stuck(from));
    }
    Ok(Read {
        what: b - 97,
        next: from + 1,
    })
}
