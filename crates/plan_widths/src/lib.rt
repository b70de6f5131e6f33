// The width of the table that an operator makes, of the widths of the tables that it names.
#![tactic(auto)]

ghost use Rattle.std.specs.Prelude.{◌≡◌, ◌+◌, ◌≤◌, ◌<◌, length, take};
ghost use Rattle.meaning.specs.Plan;
ghost use Rattle.plan_records.specs.Decoded.{operator_of, ColumnsStand};
ghost use Rattle.plan_widths.specs.Widths;

use cells::byte;
use plan_records::Operator;

// The tables that an operator names.
#[tactic(auto, unfolding(crate::specs::Widths::tables_of))]
pub fn tables(operator: Operator) -> Option<(usize, usize)>
    ensures { result ≡ Widths.tables_of operator }
{
    match operator {
        Operator::One => None,
        Operator::Union { t, u } | Operator::Minus { t, u } => Some((t, u)),
        Operator::Join { t, u, .. } => Some((t, u)),
        Operator::Attach { t, .. }
        | Operator::Project { t, .. }
        | Operator::Select { t, .. }
        | Operator::Number { t, .. }
        | Operator::Apply { t, .. }
        | Operator::Value { t, .. }
        | Operator::Counts { t, .. }
        | Operator::Truths { t }
        | Operator::Once { t, .. }
        | Operator::Step { t, .. }
        | Operator::Root { t, .. } => Some((t, t)),
    }
}

// Whether the n columns from an offset on are all below w.
fn below(plan: &[u8], from: usize, n: usize, w: usize) -> bool
    requires { from + n ≤ length plan.now }
    ensures { result ≡ Plan.columns w (Plan.columns_at plan.now from n) }
{
    plan[from..from + n].iter().all(|c| usize::from(*c) < w)
}

// Whether an operator suits tables of widths w and v: its columns are columns, the widths are those it asks for, and
// its own table is not too wide.
#[tactic(auto, unfolding(plan_records::specs::Decoded::operator_of, crate::specs::Widths::suitable))]
fn suits(plan: &[u8], operator: Operator, w: usize, v: usize) -> bool
    requires { ColumnsStand plan.now operator × (w < 256) × (v < 256) }
    ensures { result ≡ Widths.suitable (operator_of plan.now operator) w v }
{
    match operator {
        Operator::One => true,
        Operator::Attach { .. } | Operator::Root { .. } => w + 1 <= 6,
        Operator::Project { n, from, .. } => below(plan, from, n, w) & (n <= 6),
        Operator::Union { .. } | Operator::Minus { .. } => w == v,
        Operator::Select { c, .. } | Operator::Counts { c, .. } | Operator::Once { c, .. } => c < w,
        Operator::Join { c, d, .. } => (c < w) & (d < v) & (w + v <= 6),
        Operator::Number { p, n, from, .. } => {
            ((p == 255) | (p < w)) & below(plan, from, n, w) & (w + 1 <= 6)
        }
        Operator::Apply { c, d, .. } => (c < w) & (d < w) & (w + 1 <= 6),
        Operator::Value { c, .. } => (c < w) & (w + 1 <= 6),
        Operator::Truths { .. } => w == 3,
        Operator::Step { .. } => w == 2,
    }
}

// The width of the table that an operator makes of tables of widths w and v that it suits.
#[tactic(auto, unfolding(crate::specs::Widths::made_width))]
pub fn made_width(operator: Operator, w: usize, v: usize) -> usize
    requires { (w < 256) × (v < 256) }
    ensures { result ≡ Widths.made_width operator w v }
{
    match operator {
        Operator::One => 1,
        Operator::Project { n, .. } => n,
        Operator::Join { .. } => w + v,
        Operator::Union { .. }
        | Operator::Minus { .. }
        | Operator::Select { .. }
        | Operator::Once { .. } => w,
        Operator::Counts { .. } | Operator::Truths { .. } | Operator::Step { .. } => 2,
        Operator::Attach { .. }
        | Operator::Number { .. }
        | Operator::Apply { .. }
        | Operator::Value { .. }
        | Operator::Root { .. } => w + 1,
    }
}

// The width of an operator's table after n tables, whose widths stand first in a lent slice.
pub fn width_of(plan: &[u8], operator: Operator, widths: &[u8], n: usize) -> Option<usize>
    requires { ColumnsStand plan.now operator × (n ≤ length widths.now) }
    ensures { Widths.width_field result ≡
        Plan.width_of (take n widths.now) (operator_of plan.now operator) }
{
    let Some((t, u)) = tables(operator) else {
        return Some(1);
    };
    if n <= t {
        return None;
    }
    if n <= u {
        return None;
    }
    let w = byte(widths, t);
    let v = byte(widths, u);
    if suits(plan, operator, w, v) {
        Some(made_width(operator, w, v))
    } else {
        None
    }
}
