// The reader of typed queries: the cycle over the levels of the grammar. Every function answers what the definition of
// the reader does, with `left` falling at each part inside and at each turn of a chain.
#![tactic(auto)]

ghost use Rattle.std.specs.Prelude.{◌≡◌, List, ℕ, ◌≤◌, length, drop};
ghost use Rattle.parsing.specs.Reader;
ghost use Rattle.spelling.specs.Answers;
ghost use Rattle.recording.specs.Recorded.{most_bytes};
ghost use Rattle.operands.specs.Going;
ghost use Rattle.typing.specs.Cycle;
ghost use Rattle.grammar.specs.Words;
ghost use Rattle.grammar.specs.Grammar.{most_groups};
ghost use Rattle.parsing.specs.declared.Ends.TheVariants.{WithText};

use beginnings::Beginning;
use numerals::Stuck;
use openings::Opening;
use operands::{OperandRead, Part, PartRead};
use parsing::{Ends, Next};
use paths::{behind, insert_operation, kind_of, tightness};
use spelling::{Before, enter, fixed};

// Grouping parentheses that may be open.
const GROUPS: usize = 32;

// A chain: of items, of the two sides of a comparison, of terms, of factors.
#[derive(Clone, Copy)]
pub enum Chain {
    Items,
    Sides,
    Terms,
    Factors,
}

// How tightly the operators of a chain bind.
// As it is: (a) a number for a level is the word of the definition, `Reader.tightness`.
fn level(chain: Chain) -> usize
    ensures { result ≡ Cycle.level_of chain }
{
    match chain {
        Chain::Items => 0,
        Chain::Sides => 1,
        Chain::Terms => 2,
        Chain::Factors => 3,
    }
}

// A part as an operand: what ends it is a parenthesis.
fn ended(part: PartRead) -> OperandRead
    ensures { result ≡ Cycle.ended_read part }
{
    part.map(|part| Part {
        behind: Before::Symbol,
        next: part.next,
        made: part.made,
    })
}

// A list inside a part. measure: left * 32
#[cycle(text)]
fn list(
    text: &[u8],
    query: &mut [u8],
    at: usize,
    made: usize,
    left: usize,
    parens: usize,
) -> PartRead
    requires { (at ≤ length text.now) × (length query.old ≡ most_bytes) × (made ≤ most_bytes) }
    ensures { Going.ReadsPart text.now query.old query.new made
        (Cycle.inner_expr (Reader.readers left) parens (drop at text.now)) result }
{
    if left == 0 {
        return Err(Stuck(at));
    }
    whole(
        text,
        query,
        at,
        made,
        left - 1,
        parens,
        Ends::WithList,
        false,
        false,
        Before::Symbol,
        Chain::Items,
    )
}

// A Single inside a part. measure: left * 32
#[cycle(text)]
fn inner(
    text: &[u8],
    query: &mut [u8],
    at: usize,
    made: usize,
    left: usize,
    parens: usize,
    ends: Ends,
    before: Before,
) -> PartRead
    requires { (at ≤ length text.now) × (length query.old ≡ most_bytes) × (made ≤ most_bytes) }
    ensures { Going.ReadsPart text.now query.old query.new made
        (Cycle.inner_single (Reader.readers left) parens ends (Answers.kind_is before)
        (drop at text.now)) result }
{
    if left == 0 {
        return Err(Stuck(at));
    }
    single(text, query, at, made, left - 1, parens, ends, before)
}

// Two parts, the first up to `return` or `else`. measure: left * 32 + 1
#[cycle(text)]
fn two(
    text: &[u8],
    query: &mut [u8],
    at: usize,
    made: usize,
    left: usize,
    parens: usize,
    first: Ends,
    before: Before,
    ends: Ends,
) -> PartRead
    requires { (at ≤ length text.now) × (length query.old ≡ most_bytes) × (made ≤ most_bytes) }
    ensures { Going.ReadsPart text.now query.old query.new made
        (Cycle.two_parts (Reader.readers left) parens first (Answers.kind_is before) ends
        (drop at text.now)) result }
{
    let one = inner(text, query, at, made, left, parens, first, before)?;
    inner(
        text,
        query,
        one.next,
        one.made,
        left,
        parens,
        ends,
        Before::Word,
    )
}

// The parts of `if`. measure: left * 32 + 2
#[cycle(text)]
fn choice(
    text: &[u8],
    query: &mut [u8],
    at: usize,
    made: usize,
    left: usize,
    parens: usize,
    ends: Ends,
) -> PartRead
    requires { (at ≤ length text.now) × (length query.old ≡ most_bytes) × (made ≤ most_bytes) }
    ensures { Going.ReadsPart text.now query.old query.new made
        (Cycle.three_parts (Reader.readers left) parens ends (drop at text.now)) result }
{
    let condition = list(text, query, at, made, left, parens)?;
    let next = fixed(text, condition.next, Before::Symbol, b"then")?;
    two(
        text,
        query,
        next,
        condition.made,
        left,
        parens,
        Ends::WithElse,
        Before::Word,
        ends,
    )
}

// An operand. measure: left * 32 + 2
#[cycle(text)]
fn operand(
    text: &[u8],
    query: &mut [u8],
    at: usize,
    made: usize,
    left: usize,
    parens: usize,
    begun: bool,
    before: Before,
) -> OperandRead
    requires { (at ≤ length text.now) × (length query.old ≡ most_bytes) × (made ≤ most_bytes) }
    ensures { Going.ReadsOperand text.now query.old query.new made
        (Cycle.operand_of (Reader.readers left) parens begun (Answers.kind_is before) (drop at text.now)) result }
{
    if begun {
        return operands::truth(text, query, at, made, b"alse", false);
    }
    let from = enter(text, at, before)?;
    match openings::primary(text, query, from, made, parens)? {
        Opening::Whole(read) => Ok(read),
        Opening::List {
            from: next,
            parens: inside,
        } => ended(list(text, query, next, made, left, inside)),
        Opening::Call {
            from: next,
            made: to,
        } => {
            ended(inner(
                text,
                query,
                next,
                to,
                left,
                parens,
                Ends::WithCall,
                Before::Symbol,
            ))
        }
    }
}

// A path. measure: left * 32 + 3
#[cycle(text)]
fn path(
    text: &[u8],
    query: &mut [u8],
    at: usize,
    made: usize,
    left: usize,
    parens: usize,
    ends: Ends,
    compared: bool,
    begun: bool,
    before: Before,
) -> PartRead
    requires { (at ≤ length text.now) × (length query.old ≡ most_bytes) × (made ≤ most_bytes) }
    ensures { Going.ReadsPart text.now query.old query.new made
        (Reader.read_path (Reader.readers left) parens ends compared begun (Answers.kind_is before)
        (drop at text.now)) result }
{
    let first = operand(text, query, at, made, left, parens, begun, before)?;
    behind(
        text,
        query,
        made,
        first.next,
        first.made,
        left,
        ends,
        compared,
        first.behind,
    )
}

// One side of a chain's operator. measure: left * 32 + 5 * (4 - level) + 1
#[cycle(text)]
fn side(
    text: &[u8],
    query: &mut [u8],
    at: usize,
    made: usize,
    left: usize,
    parens: usize,
    ends: Ends,
    compared: bool,
    begun: bool,
    before: Before,
    chain: Chain,
) -> PartRead
    requires { (at ≤ length text.now) × (length query.old ≡ most_bytes) × (made ≤ most_bytes) }
    ensures { Going.ReadsPart text.now query.old query.new made
        (Cycle.side_of chain (Reader.readers left) parens ends compared begun (Answers.kind_is before)
        (drop at text.now)) result }
{
    match chain {
        Chain::Items => single(text, query, at, made, left, parens, ends, before),
        Chain::Sides => {
            whole(
                text,
                query,
                at,
                made,
                left,
                parens,
                ends,
                compared,
                begun,
                before,
                Chain::Terms,
            )
        }
        Chain::Terms => {
            whole(
                text,
                query,
                at,
                made,
                left,
                parens,
                ends,
                compared,
                begun,
                before,
                Chain::Factors,
            )
        }
        Chain::Factors => path(
            text, query, at, made, left, parens, ends, compared, begun, before,
        ),
    }
}

// One turn of a chain behind a part: its operator's record goes before what stands from `start` on. measure: side's
// and 1
#[cycle(text)]
fn turn(
    text: &[u8],
    query: &mut [u8],
    start: usize,
    part: Part<Next>,
    left: usize,
    parens: usize,
    ends: Ends,
    compared: bool,
    chain: Chain,
) -> PartRead
    requires { (part.next ≤ length text.now) × (length query.old ≡ most_bytes) × (part.made ≤ most_bytes)
        × (start ≤ part.made) }
    ensures { (ys : List ℕ) → Going.FollowsPart text.now query.old query.new
        start part.made ys (Cycle.one_turn chain (Reader.readers left) parens ends compared ys part.behind
        (drop part.next text.now)) result }
{
    let to = insert_operation(query, start, part.made, part.behind);
    side(
        text,
        query,
        part.next,
        to,
        left,
        parens,
        ends,
        compared,
        false,
        kind_of(part.behind),
        chain,
    )
}

// A chain behind its first side. measure: side's and 2
#[cycle(text)]
fn more(
    text: &[u8],
    query: &mut [u8],
    start: usize,
    part: Part<Next>,
    left: usize,
    parens: usize,
    ends: Ends,
    compared: bool,
    chain: Chain,
) -> PartRead
    requires { (part.next ≤ length text.now) × (length query.old ≡ most_bytes) × (part.made ≤ most_bytes)
        × (start ≤ part.made) × (Cycle.level_of chain ≡ 1 → ⊥) }
    ensures { (ys : List ℕ) → Going.FollowsPart text.now query.old query.new
        start part.made ys (Cycle.more_of chain (Reader.readers left) parens ends compared ys part.behind
        (drop part.next text.now)) result }
{
    let mut part = part;
    let mut left = left;
    // As it is: (d) each turn says where the next begins, so no range counts them.
    while tightness(part.behind) == level(chain) {
        let next = turn(
            text, query, start, part, left, parens, ends, compared, chain,
        )?;
        if left == 0 {
            return Err(Stuck(next.next));
        }
        left -= 1;
        part = next;
    }
    Ok(part)
}

// A whole chain. measure: side's and 3
#[cycle(text)]
fn whole(
    text: &[u8],
    query: &mut [u8],
    at: usize,
    made: usize,
    left: usize,
    parens: usize,
    ends: Ends,
    compared: bool,
    begun: bool,
    before: Before,
    chain: Chain,
) -> PartRead
    requires { (at ≤ length text.now) × (length query.old ≡ most_bytes) × (made ≤ most_bytes)
        × (Cycle.level_of chain ≡ 1 → ⊥) }
    ensures { Going.ReadsPart text.now query.old query.new made
        (Cycle.whole_of chain (Reader.readers left) parens ends compared begun (Answers.kind_is before)
        (drop at text.now)) result }
{
    let first = side(
        text, query, at, made, left, parens, ends, compared, begun, before, chain,
    )?;
    more(
        text, query, made, first, left, parens, ends, compared, chain,
    )
}

// A comparison: at most one. measure: side's of Sides and 4
#[cycle(text)]
fn sides(
    text: &[u8],
    query: &mut [u8],
    at: usize,
    made: usize,
    left: usize,
    parens: usize,
    ends: Ends,
    begun: bool,
) -> PartRead
    requires { (at ≤ length text.now) × (length query.old ≡ most_bytes) × (made ≤ most_bytes) }
    ensures { Going.ReadsPart text.now query.old query.new made
        (Reader.read_sides (Reader.readers left) parens ends begun Words.symbol (drop at text.now)) result }
{
    let first = side(
        text,
        query,
        at,
        made,
        left,
        parens,
        ends,
        false,
        begun,
        Before::Symbol,
        Chain::Sides,
    )?;
    if tightness(first.behind) != 1 {
        return Ok(first);
    }
    turn(
        text,
        query,
        made,
        first,
        left,
        parens,
        ends,
        true,
        Chain::Sides,
    )
}

// A Single. measure: left * 32 + 20
#[cycle(text)]
fn single(
    text: &[u8],
    query: &mut [u8],
    at: usize,
    made: usize,
    left: usize,
    parens: usize,
    ends: Ends,
    before: Before,
) -> PartRead
    requires { (at ≤ length text.now) × (length query.old ≡ most_bytes) × (made ≤ most_bytes) }
    ensures { Going.ReadsPart text.now query.old query.new made
        (Reader.read_single (Reader.readers left) parens ends (Answers.kind_is before)
        (drop at text.now)) result }
{
    match beginnings::single(text, query, at, made, before)? {
        Beginning::Binding {
            from,
            made: to,
            before: kind,
        } => {
            two(
                text,
                query,
                from,
                to,
                left,
                parens,
                Ends::WithReturn,
                kind,
                ends,
            )
        }
        Beginning::Choice { from, made: to } => choice(text, query, from, to, left, parens, ends),
        Beginning::Sides { from, begun } => {
            sides(text, query, from, made, left, parens, ends, begun)
        }
    }
}

// A whole text, its records in an array of 1,024 bytes.
pub fn expression(text: &[u8], query: &mut [u8]) -> PartRead
    requires { length query.old ≡ most_bytes }
    ensures { Going.ReadsPart text.now query.old query.new 0
        (Reader.read_expr (Reader.readers (length text.now)) most_groups WithText Words.symbol
        text.now) result }
{
    whole(
        text,
        query,
        0,
        0,
        text.len(),
        GROUPS,
        Ends::WithText,
        false,
        false,
        Before::Symbol,
        Chain::Items,
    )
}
