// Plan records: one operator, and its reader.
#![tactic(auto)]

mod records;

ghost use Rattle.meaning.specs.Plan;
ghost use Rattle.plan_records.specs.Decoded.{Means};

use cells::{fits, word2};
use codes::{Axis, Function, Test, marks};

// One operator: tables t and u by number, columns c and d from 0. The n columns of Project and the n keys of Number
// stand in the plan's bytes from an offset on; Number's p is 255 for none.
// As it is: (a) 255 for no p is the word of the definition, Operators.number, and of the record RN.
#[derive(Clone, Copy)]
pub enum Operator {
    One,
    Attach {
        t: usize,
        cell: i64,
    },
    Project {
        t: usize,
        n: usize,
        from: usize,
    },
    Union {
        t: usize,
        u: usize,
    },
    Minus {
        t: usize,
        u: usize,
    },
    Select {
        t: usize,
        c: usize,
    },
    Join {
        t: usize,
        c: usize,
        u: usize,
        d: usize,
    },
    Number {
        t: usize,
        p: usize,
        n: usize,
        from: usize,
    },
    Apply {
        t: usize,
        f: Function,
        c: usize,
        d: usize,
    },
    Value {
        t: usize,
        c: usize,
    },
    Counts {
        t: usize,
        c: usize,
    },
    Truths {
        t: usize,
    },
    Once {
        t: usize,
        c: usize,
    },
    Step {
        t: usize,
        axis: Axis,
        test: Test,
    },
    Root {
        t: usize,
        k: usize,
    },
}

// An operator and the offset after its record.
#[derive(Clone, Copy)]
pub struct Decoded {
    pub operator: Operator,
    pub next: usize,
}

// The operator at an offset.
pub fn read(plan: &[u8], at: usize) -> Option<Decoded>
    ensures { Means plan.now result (Plan.operator_at plan.now at) }
{
    if !fits(plan, at, 2) {
        return None;
    }
    let mark = word2(plan, at);
    match mark {
        marks::RT => records::one(plan, at),
        marks::RA => records::attach(plan, at),
        marks::RP => records::project(plan, at),
        marks::RU => {
            let (t, u) = records::two_tables(plan, at)?;
            records::sound(Operator::Union { t, u }, at + 6)
        }
        marks::RD => {
            let (t, u) = records::two_tables(plan, at)?;
            records::sound(Operator::Minus { t, u }, at + 6)
        }
        marks::RS => {
            let (t, c) = records::column(plan, at)?;
            records::sound(Operator::Select { t, c }, at + 5)
        }
        marks::RJ => records::join(plan, at),
        marks::RN => records::number(plan, at),
        marks::RF => records::function(plan, at),
        marks::RC => {
            let (t, c) = records::column(plan, at)?;
            records::sound(Operator::Counts { t, c }, at + 5)
        }
        marks::RE => records::truths(plan, at),
        marks::RK => {
            let (t, c) = records::column(plan, at)?;
            records::sound(Operator::Once { t, c }, at + 5)
        }
        marks::RX => records::step(plan, at),
        marks::RO => records::root(plan, at),
        0..=0x5240
        | 0x5242
        | 0x5247..=0x5249
        | 0x524C..=0x524D
        | 0x5251..=0x5252
        | 0x5256..=0x5257
        | 0x5259.. => None,
    }
}
