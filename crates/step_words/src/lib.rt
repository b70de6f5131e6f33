// Axes, tests and steps of a typed query, read from a lent text.
#![tactic(auto)]

ghost use Rattle.std.specs.Prelude.{◌≤◌, length, drop};
ghost use Rattle.parsing.specs.Reader;
ghost use Rattle.spelling.specs.Answers;

use codes::{Axis, Test};
use numerals::{Read, Stuck, byte, name_number, spaces, word};
use parsing::Step;
use spelling::{AxisRead, Before, StepRead, TestRead, called, fixed, spelled};

// `descendant` may go on with `-or-self`.
fn or_self(text: &[u8], at: usize) -> AxisRead
    requires { at ≤ length text.now }
    ensures { Answers.ReadsValue text.now result (Answers.or_self (drop at text.now)) }
{
    let b = byte(text, at);
    if b == usize::from(b'-') {
        return spelled(text, at + 1, b"or-self", Axis::DescendantOrSelf);
    }
    Ok(Read {
        what: Axis::Descendant,
        next: at,
    })
}

// `descendant` and `descendant-or-self` behind the d.
fn descendant(text: &[u8], at: usize) -> AxisRead
    requires { at ≤ length text.now }
    ensures { Answers.ReadsValue text.now result (Answers.descendant_rest (drop at text.now)) }
{
    let next = word(text, at, b"escendant")?;
    or_self(text, next)
}

// `parent` and `preceding` behind the p.
fn parent(text: &[u8], at: usize) -> AxisRead
    requires { at ≤ length text.now }
    ensures { Answers.ReadsValue text.now result (Answers.parent_rest (drop at text.now)) }
{
    let b = byte(text, at);
    match b {
        97 => spelled(text, at + 1, b"rent", Axis::Parent), // b'a'
        114 => spelled(text, at + 1, b"eceding", Axis::Preceding), // b'r'
        _ => Err(Stuck(at)),
    }
}

// An axis.
fn axis(text: &[u8], at: usize) -> AxisRead
    requires { at ≤ length text.now }
    ensures { Answers.ReadsValue text.now result (Reader.read_axis (drop at text.now)) }
{
    let b = byte(text, at);
    match b {
        99 => spelled(text, at + 1, b"hild", Axis::Child), // b'c'
        100 => descendant(text, at + 1), // b'd'
        115 => spelled(text, at + 1, b"elf", Axis::Itself), // b's'
        112 => parent(text, at + 1), // b'p'
        97 => spelled(text, at + 1, b"ncestor", Axis::Ancestor), // b'a'
        102 => spelled(text, at + 1, b"ollowing", Axis::Following), // b'f'
        _ => Err(Stuck(at)),
    }
}

// The rest of a test that is spelled with empty parentheses.
fn test_called(text: &[u8], at: usize, rest: &[u8], test: Test) -> TestRead
    requires { at ≤ length text.now }
    ensures { Answers.ReadsValue text.now result
        (Answers.called_word rest.now test (drop at text.now)) }
{
    let next = called(text, at, rest)?;
    Ok(Read { what: test, next })
}

// A name's number behind the n.
fn named(text: &[u8], at: usize) -> TestRead
    requires { at ≤ length text.now }
    ensures { Answers.ReadsValue text.now result (Answers.named_rest (drop at text.now)) }
{
    let n = name_number(text, at)?;
    Ok(Read {
        what: Test::Named(n.what),
        next: n.next,
    })
}

// `node` or a name behind the n.
fn node(text: &[u8], at: usize) -> TestRead
    requires { at ≤ length text.now }
    ensures { Answers.ReadsValue text.now result (Answers.node_rest (drop at text.now)) }
{
    let b = byte(text, at);
    if b == usize::from(b'o') {
        return test_called(text, at + 1, b"de", Test::AnyNode);
    }
    named(text, at)
}

// A test.
fn test(text: &[u8], at: usize) -> TestRead
    requires { at ≤ length text.now }
    ensures { Answers.ReadsValue text.now result (Reader.read_test (drop at text.now)) }
{
    let b = byte(text, at);
    match b {
        110 => node(text, at + 1), // b'n'
        42 => Ok(Read {
            what: Test::Element,
            next: at + 1,
        }), // b'*'
        116 => test_called(text, at + 1, b"ext", Test::Text), // b't'
        _ => Err(Stuck(at)),
    }
}

// A step of an axis, from its test on.
fn step_test(text: &[u8], at: usize, axis: Axis) -> StepRead
    requires { at ≤ length text.now }
    ensures { Answers.ReadsValue text.now result (Answers.step_test axis (drop at text.now)) }
{
    let test = test(text, spaces(text, at))?;
    let step = Step {
        axis,
        test: test.what,
    };
    Ok(Read {
        what: step,
        next: test.next,
    })
}

// A step of an axis, from its `::` on.
fn step_rest(text: &[u8], at: usize, axis: Axis) -> StepRead
    requires { at ≤ length text.now }
    ensures { Answers.ReadsValue text.now result (Answers.step_rest axis (drop at text.now)) }
{
    let next = fixed(text, at, Before::Word, b"::")?;
    step_test(text, next, axis)
}

// A step: an axis, `::` and a test.
pub fn step(text: &[u8], at: usize) -> StepRead
    requires { at ≤ length text.now }
    ensures { Answers.ReadsValue text.now result (Reader.read_step (drop at text.now)) }
{
    let axis = axis(text, spaces(text, at))?;
    step_rest(text, axis.next, axis.what)
}
