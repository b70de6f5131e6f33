// The plan check: the operators of a plan from left to right, and the widths of their tables.
#![tactic(auto)]

ghost use Rattle.std.specs.Prelude.{◌≡◌, length};
ghost use Rattle.codes.specs.Refusals.{refusal};
ghost use Rattle.codes.specs.declared.refusals.Reason.TheVariants as Reason;
ghost use Rattle.plans.specs.Walk.{checked, plan_count};

use codes::limits::OPERATORS;
use codes::refusals::{Reason, Refusal};
use plan_records::read;
use plan_widths::width_of;

// Refusal 5, at a place.
fn unsound(place: usize) -> Refusal
    ensures { result ≡ refusal Reason.Plan place }
{
    Refusal {
        reason: Reason::Plan,
        place,
    }
}

// The operators of a plan from left to right, each record read once; the widths of their tables stand in the lent
// bytes.
fn operators(plan: &[u8], widths: &mut [u8]) -> Result<usize, Refusal>
    requires { length widths.old ≡ 512 }
    ensures { checked result ≡ plan_count plan.now }
{
    let mut at: usize = 0;
    let mut n: usize = 0;
    let mut last: usize = 0;
    // As it is: (d) the records have their own lengths, so no range and no chunks go over them.
    while at < plan.len() {
        let full = n == OPERATORS;
        if full {
            return Err(unsound(at));
        }
        // As it is: (a) document 01 takes a reader's answer apart by `let .. else`, here and below.
        let Some(found) = read(plan, at) else {
            return Err(unsound(at));
        };
        let operator = found.operator;
        let Some(w) = width_of(plan, operator, widths, n) else {
            return Err(unsound(at));
        };
        widths[n] = w as u8;
        last = at;
        at = found.next;
        n += 1;
    }
    if n == 0 {
        return Err(unsound(0));
    }
    if widths[n - 1] == 3 {
        Ok(n)
    } else {
        Err(unsound(last))
    }
}

// The plan check: the number of operators, or refusal 5.
pub fn check(plan: &[u8]) -> Result<usize, Refusal>
    ensures { checked result ≡ plan_count plan.now }
{
    let mut widths = [0u8; OPERATORS];
    operators(plan, &mut widths)
}
