// Whether two engines that were asked the same query told the same: the same items, or the same refusal.
#![tactic(auto)]

pub mod comparing;

ghost use Rattle.verdicts.specs.Compared.{Tells};

use codes::refusals::Refusal;

// A refusal as it is told: its number, which may be any, and its place.
#[derive(Clone, Copy, PartialEq, Eq)]
pub struct ToldRefusal {
    pub number: usize,
    pub place: usize,
}

impl From<Refusal> for ToldRefusal {
    ghost from_gives = { Tells };

    fn from(refusal: Refusal) -> ToldRefusal {
        ToldRefusal {
            number: refusal.number(),
            place: refusal.place,
        }
    }
}

// What a call told: how many it gave, items or operators; or its refusal.
pub type Told = Result<usize, ToldRefusal>;

// Whether the engines agree, or either had no room.
#[derive(Clone, Copy)]
pub enum Verdict {
    Agree,
    Differ,
    Room,
}
