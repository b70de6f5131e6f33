// Refusals: why a call refuses, by document 01's numbers, and where.
ghost use Rattle.std.specs.Prelude.{◌≡◌};
ghost use Rattle.codes.specs.Refusals;

// Why a call refuses, in the order of the numbers.
#[derive(Clone, Copy, PartialEq, Eq)]
pub enum Reason {
    // 1: a record of a query is unsound or cut, or bytes stand after the query
    Record,
    // 2: a record too many or too deep, or an operator too many
    Excess,
    // 3: a variable is not bound
    Unbound,
    // 4: a row of a catalogue is unsound or cut, or one too many
    Catalogue,
    // 5: a record of a plan is unsound or cut, there is none or one too many, or the last table is not 3 wide
    Plan,
    // 6: the room does not suffice
    Room,
    // 7: the query or an operator fails
    Failure,
    // 8: what is written is longer than the lent bytes
    Longer,
    // 9: no text of the grammar goes on here
    Outside,
}

// A refusal: why, and the place.
#[derive(Clone, Copy, PartialEq, Eq)]
pub struct Refusal {
    pub reason: Reason,
    pub place: usize,
}

impl Refusal {
    // The refusal's number.
    pub fn number(self) -> usize
        ensures { result ≡ Refusals.number_of self.reason }
    {
        match self.reason {
            Reason::Record => 1,
            Reason::Excess => 2,
            Reason::Unbound => 3,
            Reason::Catalogue => 4,
            Reason::Plan => 5,
            Reason::Room => 6,
            Reason::Failure => 7,
            Reason::Longer => 8,
            Reason::Outside => 9,
        }
    }
}

// Why work in lent room stops at a record: the room does not suffice, or it fails.
#[derive(Clone, Copy, PartialEq, Eq)]
pub enum Stop {
    Full(usize),
    Failed(usize),
}

impl From<Stop> for Refusal {
    ghost from_gives = { Refusals.Stops };

    fn from(stop: Stop) -> Refusal {
        match stop {
            Stop::Full(place) => Refusal {
                reason: Reason::Room,
                place,
            },
            Stop::Failed(place) => Refusal {
                reason: Reason::Failure,
                place,
            },
        }
    }
}
