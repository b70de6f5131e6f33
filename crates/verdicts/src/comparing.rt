// What the two engines told, compared.
ghost use Rattle.std.specs.Prelude.{◌≡◌, length};
ghost use Rattle.verdicts.specs.Compared;

use crate::{Told, Verdict};

// Whether it is a refusal with that number.
#[tactic(auto, unfolding(crate::specs::Compared::refused_with))]
fn refused_with(number: usize, told: Told) -> bool
    ensures { result ≡ Compared.refused_with number (Compared.told told) }
{
    told.is_err_and(|refusal| refusal.number == number)
}

// Whether both gave the same items, or both refused with the same number.
#[tactic(auto, using(crate::proofs::Verdicts::same_cells), unfolding(crate::specs::Compared::agree))]
fn agrees(ran: Told, xs: &[i64], evaluated: Told, ys: &[i64]) -> bool
    requires { Compared.GaveStands (length xs.now) (Compared.told ran)
        × Compared.GaveStands (length ys.now) (Compared.told evaluated) }
    ensures { result ≡ Compared.agree (Compared.told ran) xs.now (Compared.told evaluated) ys.now }
{
    match (ran, evaluated) {
        (Ok(n), Ok(m)) => xs[..n] == ys[..m],
        (Ok(_), Err(_)) => false,
        (Err(refusal), _) => refused_with(refusal.number, evaluated),
    }
}

// No room where either gave 6; else whether they agree.
#[tactic(auto, unfolding(crate::specs::Compared::verdict))]
pub fn verdict(ran: Told, xs: &[i64], evaluated: Told, ys: &[i64]) -> Verdict
    requires { Compared.GaveStands (length xs.now) (Compared.told ran)
        × Compared.GaveStands (length ys.now) (Compared.told evaluated) }
    ensures { result ≡ Compared.verdict (Compared.told ran) xs.now (Compared.told evaluated) ys.now }
{
    if refused_with(6, ran) || refused_with(6, evaluated) {
        return Verdict::Room;
    }
    if agrees(ran, xs, evaluated, ys) {
        return Verdict::Agree;
    }
    Verdict::Differ
}
