// The levels of the grammar of typed queries: those that the operands of a record are written at, and its own.
#![tactic(auto)]

ghost use Rattle.std.specs.Prelude.{◌≡◌};
ghost use Rattle.grammar.specs.Written;
ghost use Rattle.levels.specs.Levels.{level_of, own_of, first_of, second_of};

use codes::Function;
use query_records::Record;

// The loosest first: the order of the variants is the order of the levels.
#[derive(Clone, Copy, PartialEq, Eq, PartialOrd, Ord)]
pub enum Level {
    Expr,
    Single,
    Comparison,
    Additive,
    Multiplicative,
    Path,
    Primary,
}

// Whether a text of one level stands in parentheses where another is asked for.
pub fn looser(own: Level, asked: Level) -> bool
    ensures { result ≡ Written.looser (level_of own) (level_of asked) }
{
    own < asked
}

// As it is: (d) a table for each of three questions is what the definitions say, and no table is another.
fn function_level(f: Function) -> Level
    ensures { level_of result ≡ Written.function_level f }
{
    match f {
        Function::Add | Function::Subtract => Level::Additive,
        Function::Multiply | Function::Divide => Level::Multiplicative,
        Function::Equal | Function::Less => Level::Comparison,
    }
}

fn left_level(f: Function) -> Level
    ensures { level_of result ≡ Written.left_level f }
{
    match f {
        Function::Multiply | Function::Divide => Level::Multiplicative,
        Function::Add | Function::Subtract | Function::Equal | Function::Less => Level::Additive,
    }
}

fn right_level(f: Function) -> Level
    ensures { level_of result ≡ Written.right_level f }
{
    match f {
        Function::Add | Function::Subtract => Level::Multiplicative,
        Function::Multiply | Function::Divide => Level::Path,
        Function::Equal | Function::Less => Level::Additive,
    }
}

// The level that a record's text has by itself.
pub fn own(kind: Record) -> Level
    ensures { level_of result ≡ own_of kind }
{
    match kind {
        Record::Sequence => Level::Expr,
        Record::Let(_) | Record::For(_) | Record::If => Level::Single,
        Record::Apply(f) => function_level(f),
        Record::Step(_, _) => Level::Path,
        Record::Literal(_)
        | Record::Empty
        | Record::Root(_)
        | Record::Variable(_)
        | Record::Count
        | Record::Data => Level::Primary,
    }
}

// The level that a record's first operand is written at.
pub fn first(kind: Record) -> Level
    ensures { level_of result ≡ first_of kind }
{
    match kind {
        Record::Let(_) | Record::For(_) | Record::Count | Record::Data => Level::Single,
        Record::Apply(f) => left_level(f),
        Record::Step(_, _) => Level::Path,
        Record::Literal(_)
        | Record::Empty
        | Record::Root(_)
        | Record::Variable(_)
        | Record::Sequence
        | Record::If => Level::Expr,
    }
}

// The level that a record's second operand is written at, and if's third.
pub fn second(kind: Record) -> Level
    ensures { level_of result ≡ second_of kind }
{
    match kind {
        Record::Apply(f) => right_level(f),
        _ => Level::Single,
    }
}
