// The word behind an operand of a typed query: an operator, a comma, or what ends a part.
#![tactic(auto)]

ghost use Rattle.std.specs.Prelude.{◌≡◌, ◌≤◌, ◌<◌, length, drop};
ghost use Rattle.parsing.specs.Reader;
ghost use Rattle.spelling.specs.Answers;

use numerals::{Read, Stuck, byte};
use parsing::{Ends, Next};
use spelling::{Before, NextRead, enter, spelled};

// What a part may end with.
fn by_text(ends: Ends) -> bool
    ensures { result ≡ Reader.by_text ends }
{
    ends == Ends::WithText
}

fn by_comma(ends: Ends) -> bool
    ensures { result ≡ Reader.by_comma ends }
{
    matches!(ends, Ends::WithText | Ends::WithList)
}

fn by_close(ends: Ends) -> bool
    ensures { result ≡ Reader.by_close ends }
{
    matches!(ends, Ends::WithList | Ends::WithCall)
}

fn by_return(ends: Ends) -> bool
    ensures { result ≡ Reader.by_return ends }
{
    ends == Ends::WithReturn
}

fn by_else(ends: Ends) -> bool
    ensures { result ≡ Reader.by_else ends }
{
    ends == Ends::WithElse
}

// `else` behind its e, where it may come.
fn else_rest(text: &[u8], at: usize, otherwise: bool) -> NextRead
    requires { at ≤ length text.now }
    ensures { Answers.ReadsValue text.now result
        (Answers.else_rest otherwise (drop at text.now)) }
{
    if !otherwise {
        return Err(Stuck(at));
    }
    let b = byte(text, at);
    if b == usize::from(b'l') {
        return spelled(text, at + 1, b"se", Next::Else);
    }
    Err(Stuck(at))
}

// `eq` and `else` behind the e, where they may come.
fn equal_rest(text: &[u8], at: usize, compares: bool, otherwise: bool) -> NextRead
    requires { at ≤ length text.now }
    ensures { Answers.ReadsValue text.now result
        (Answers.equal_rest compares otherwise (drop at text.now)) }
{
    if !compares {
        return else_rest(text, at, otherwise);
    }
    let b = byte(text, at);
    if b == usize::from(b'q') {
        return Ok(Read {
            what: Next::Eq,
            next: at + 1,
        });
    }
    else_rest(text, at, otherwise)
}

// A word of one byte, where it may come.
fn one_word(text: &[u8], at: usize, may: bool, next: Next) -> NextRead
    requires { at < length text.now }
    ensures { Answers.ReadsValue text.now result
        (Answers.one_word may next (drop at text.now)) }
{
    if may {
        return Ok(Read {
            what: next,
            next: at + 1,
        });
    }
    Err(Stuck(at))
}

// A word of one more byte or more, where it may come.
fn more_word(text: &[u8], at: usize, may: bool, rest: &[u8], next: Next) -> NextRead
    requires { at < length text.now }
    ensures { Answers.ReadsValue text.now result
        (Answers.more_word may rest.now next (drop at text.now)) }
{
    if may {
        return spelled(text, at + 1, rest, next);
    }
    Err(Stuck(at))
}

// `eq` and `else` from the e on.
fn equal_word(text: &[u8], at: usize, compares: bool, otherwise: bool) -> NextRead
    requires { at < length text.now }
    ensures { Answers.ReadsValue text.now result
        (Answers.equal_word compares otherwise (drop at text.now)) }
{
    let may = compares || otherwise;
    if may {
        return equal_rest(text, at + 1, compares, otherwise);
    }
    Err(Stuck(at))
}

// The end of the text, where a part may end with it.
#[tactic(auto, unfolding(spelling::specs::Answers::value_told, numerals::specs::Answers::read_place))]
fn last_word(text: &[u8], at: usize, may: bool) -> NextRead
    requires { at ≤ length text.now }
    ensures { Answers.ReadsValue text.now result
        (Answers.last_word may (drop at text.now)) }
{
    if may {
        return Ok(Read {
            what: Next::End,
            next: at,
        });
    }
    Err(Stuck(at))
}

// What a part ends with.
fn close_word(text: &[u8], at: usize, ends: Ends) -> NextRead
    requires { at ≤ length text.now }
    ensures { Answers.ReadsValue text.now result (Answers.close_word ends (drop at text.now)) }
{
    let b = byte(text, at);
    match b {
        44 => one_word(text, at, by_comma(ends), Next::Comma), // b','
        41 => one_word(text, at, by_close(ends), Next::Close), // b')'
        114 => more_word(text, at, by_return(ends), b"eturn", Next::Return), // b'r'
        256 => last_word(text, at, by_text(ends)), // the end
        _ => Err(Stuck(at)),
    }
}

// A comparison, or what a part ends with.
fn end_word(text: &[u8], at: usize, ends: Ends, compared: bool) -> NextRead
    requires { at ≤ length text.now }
    ensures { Answers.ReadsValue text.now result
        (Answers.end_word ends compared (drop at text.now)) }
{
    let b = byte(text, at);
    match b {
        101 => equal_word(text, at, !compared, by_else(ends)), // b'e'
        108 => more_word(text, at, !compared, b"t", Next::Lt), // b'l'
        _ => close_word(text, at, ends),
    }
}

// The word after an operand, past the spaces.
fn next_word(text: &[u8], at: usize, ends: Ends, compared: bool) -> NextRead
    requires { at ≤ length text.now }
    ensures { Answers.ReadsValue text.now result
        (Answers.next_word ends compared (drop at text.now)) }
{
    let b = byte(text, at);
    match b {
        47 => Ok(Read {
            what: Next::Slash,
            next: at + 1,
        }), // b'/'
        42 => Ok(Read {
            what: Next::Star,
            next: at + 1,
        }), // b'*'
        105 => spelled(text, at + 1, b"div", Next::Idiv), // b'i'
        43 => Ok(Read {
            what: Next::Plus,
            next: at + 1,
        }), // b'+'
        45 => Ok(Read {
            what: Next::Minus,
            next: at + 1,
        }), // b'-'
        _ => end_word(text, at, ends, compared),
    }
}

// The word after an operand, or the end of the text, as the part allows; behind a comparison none comes again.
pub fn next(text: &[u8], at: usize, ends: Ends, compared: bool, before: Before) -> NextRead
    requires { at ≤ length text.now }
    ensures { Answers.ReadsValue text.now result
        (Reader.read_next ends compared (Answers.kind_is before) (drop at text.now)) }
{
    let from = enter(text, at, before)?;
    next_word(text, from, ends, compared)
}
