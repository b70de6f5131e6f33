// Walks over an accepted query: the offset past an operand, and its free variables.
#![tactic(auto)]

ghost use Rattle.query_walks.specs.Parse.{parse, Past, Free, Either};

use query_records::flags::with;
use query_records::{Operands, following, read};

// The offset past the operand at an offset, which is at most depth levels deep.
// As it is: (a) recursion over operands by depth, and `let .. else` at a reader's answer, are forms of document 01.
pub fn skip(query: &[u8], at: usize, depth: usize) -> usize
    ensures { Past (parse depth query.now at) result }
{
    if depth == 0 {
        return at;
    }
    let Some(found) = read(query, at) else {
        return at;
    };
    let kind = found.kind;
    let next = found.next;
    let left = depth - 1;
    match following(kind) {
        Operands::None => next,
        Operands::Variable(_) => next,
        Operands::One => skip(query, next, left),
        Operands::Two => skip(query, skip(query, next, left), left),
        Operands::Binding(_) => skip(query, skip(query, next, left), left),
        Operands::Three => skip(query, skip(query, skip(query, next, left), left), left),
    }
}

// The flags that are set in one row or the other.
fn either(a: [bool; 8], b: [bool; 8]) -> [bool; 8]
    ensures { Either a b result }
{
    std::array::from_fn(|v| a[v] | b[v])
}

// The free variables of the operand at an offset, which is at most depth levels deep.
// As it is: (a) as in `skip`.
pub fn free(query: &[u8], at: usize, depth: usize) -> [bool; 8]
    ensures { Free (parse depth query.now at) result }
{
    if depth == 0 {
        return [false; 8];
    }
    let Some(found) = read(query, at) else {
        return [false; 8];
    };
    let kind = found.kind;
    let next = found.next;
    let left = depth - 1;
    match following(kind) {
        Operands::None => [false; 8],
        Operands::Variable(v) => with([false; 8], v, true),
        Operands::One => free(query, next, left),
        Operands::Two => either(
            free(query, next, left),
            free(query, skip(query, next, left), left),
        ),
        Operands::Binding(v) => {
            let b = free(query, skip(query, next, left), left);
            either(free(query, next, left), with(b, v, false))
        }
        Operands::Three => {
            let a = skip(query, next, left);
            let b = skip(query, a, left);
            either(
                either(free(query, next, left), free(query, a, left)),
                free(query, b, left),
            )
        }
    }
}
