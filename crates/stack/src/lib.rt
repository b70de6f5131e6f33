// Items on one stack of lent cells: what stands there, and the moves that ask nothing of what the items are.
#![tactic(auto)]

ghost use Rattle.std.specs.Prelude.{◌≡◌, [], ◌∷◌, ℕ, ◌+◌, ◌-◌, ◌≤◌, length, Ok};
ghost use Rattle.laws.specs.Rows.{row};
ghost use Rattle.meaning.specs.Counted.{adding};
ghost use Rattle.stack.specs.Stack.{stood, paired, Fit, FitPair, Sums, EndsPair, Ends, At, Leaves, Lent};
ghost use Rattle.stack.specs.Stack.{raising, joining, besiding, Adds};
ghost use Rattle.stack.specs.Moves.{kept, counted};

use codes::refusals::Stop;

// What an operand leaves on the stack: how many items stand there, the count of what stood while they were worked out,
// and the offset after the operand.
#[derive(Clone, Copy)]
pub struct Stood {
    pub length: usize,
    pub count: usize,
    pub next: usize,
}

// What two operands leave there, one behind the other.
#[derive(Clone, Copy)]
pub struct Pair {
    pub first: usize,
    pub second: usize,
    pub count: usize,
    pub next: usize,
}

// Adds an item, where the room suffices; else refusal 6 at `at`.
pub fn put(
    cell: i64,
    at: usize,
    next: usize,
    work: &mut [i64],
    top: usize,
    room: usize,
) -> Result<Stood, Stop>
    requires { Lent top room work.old }
    ensures { Leaves top room (adding (room - top) at 0 (cell ∷ [])) (At next) work.old
        work.new result }
{
    if top == room {
        return Err(Stop::Full(at));
    }
    work[top] = cell;
    Ok(Stood {
        length: 1,
        count: 1,
        next,
    })
}

// Adds the items that stand in n cells from `start` on once more, where the room suffices.
pub fn again(
    start: usize,
    n: usize,
    at: usize,
    next: usize,
    work: &mut [i64],
    top: usize,
    room: usize,
) -> Result<Stood, Stop>
    requires { Lent top room work.old × (start + n ≤ top) }
    ensures { Leaves top room (adding (room - top) at 0 (row work.old start n)) (At next)
        work.old work.new result }
{
    if room - top < n {
        return Err(Stop::Full(at));
    }
    lent::copy(work, start, n, top);
    Ok(Stood {
        length: n,
        count: n,
        next,
    })
}

// The same items, where at least `count` stood.
pub fn raise(count: usize, added: Stood) -> Stood
    ensures { result ≡ raising count added }
{
    Stood {
        count: count.max(added.count),
        ..added
    }
}

// QC: the number of items in their place.
pub fn number(
    operand: Stood,
    at: usize,
    work: &mut [i64],
    top: usize,
    room: usize,
) -> Result<Stood, Stop>
    requires { Lent top room work.old × Fit top room (Ok operand) }
    ensures { Leaves top room (counted (room - top) at (stood work.old top (Ok operand)))
        (Ends (Ok operand)) work.old work.new result }
{
    let added = put(operand.length as i64, at, operand.next, work, top, room)?;
    Ok(raise(operand.count, added))
}

// QS: both operands' items, as they stand.
pub fn join(pair: Pair) -> Stood
    requires { Sums pair }
    ensures { result ≡ joining pair }
{
    Stood {
        length: pair.first + pair.second,
        count: pair.count,
        next: pair.next,
    }
}

// The second of two operands, behind the items of the first.
pub fn beside(first: Stood, second: Stood) -> Pair
    requires { Adds first.length second }
    ensures { result ≡ besiding first second }
{
    Pair {
        first: first.length,
        second: second.length,
        count: first.count.max(first.length + second.count),
        next: second.next,
    }
}

// QT: b's items, moved down over a's.
pub fn drop_first(pair: Pair, work: &mut [i64], top: usize) -> Stood
    requires { FitPair top (length work.old) (Ok pair) }
    ensures { (room : ℕ) → FitPair top room (Ok pair)
        → Leaves top room (kept (paired work.old top (Ok pair))) (EndsPair (Ok pair)) work.old
        work.new (Ok result) }
{
    lent::copy(work, top + pair.first, pair.second, top);
    Stood {
        length: pair.second,
        count: pair.count,
        next: pair.next,
    }
}
