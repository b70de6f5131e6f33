// The directory of a run: where each table stands, three numbers a table.
#![tactic(auto)]

ghost use Rattle.std.specs.Prelude.{◌≡◌, ◌+◌, ◌*◌, ◌≤◌, length};
ghost use Rattle.directory.specs.Directory.{stand_at, entered};
ghost use Rattle.directory.specs.Sound.{made_width, Served};

use plan_records::Operator;
use tables::Stand;

// Where table t stands.
pub fn stand(directory: &[usize], t: usize) -> Stand
    requires { 3 * t + 3 ≤ length directory.now }
    ensures { result ≡ stand_at directory.now t }
{
    Stand {
        at: directory[3 * t],
        rows: directory[3 * t + 1],
        width: directory[3 * t + 2],
    }
}

// Enters where table t stands.
pub fn enter(directory: &mut [usize], t: usize, s: Stand)
    requires { 3 * t + 3 ≤ length directory.old }
    ensures { directory.new ≡ entered directory.old t s }
{
    directory[3 * t] = s.at;
    directory[3 * t + 1] = s.rows;
    directory[3 * t + 2] = s.width;
}

// The width of table t.
fn wide(directory: &[usize], t: usize) -> usize
    requires { 3 * t + 3 ≤ length directory.now }
    ensures { result ≡ (stand_at directory.now t).width }
{
    let s = stand(directory, t);
    s.width
}

// The width of the table that an operator makes of tables that it suits.
pub fn width(directory: &[usize], operator: Operator) -> usize
    requires { Served directory.now operator }
    ensures { result ≡ made_width directory.now operator }
{
    let named = plan_widths::tables(operator);
    let Some((t, u)) = named else {
        return 1;
    };
    plan_widths::made_width(operator, wide(directory, t), wide(directory, u))
}
