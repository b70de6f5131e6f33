// The two checks: a line for each case, what the check answers.
// A case is a byte for the call (1 catalogue, 2 query), then the byte string that the call is given.
use codes::refusals::Refusal;
use std::io;
use std::io::Read;
use std::rt::Files;

fn tell(
    rt: &impl Print,
    call: &str,
    given: &str,
    answer: Result<usize, Refusal>,
) -> io::Result<()> {
    rt.print(call)?;
    match answer {
        Ok(n) => cases::say(rt, given, n)?,
        Err(refusal) => cases::tell_refusal(rt, refusal)?,
    }
    println!(rt)
}

fn one_case(
    rt: &impl Print,
    file: &mut impl Read,
    call: usize,
    space: &mut [u8],
) -> io::Result<()> {
    let n = cases::load(file, space)?;
    let given = &space[0..n];
    if call == 1 {
        tell(rt, "catalogue ", "rows ", catalogue::check(given))
    } else {
        tell(rt, "query ", "records ", queries::check(given))
    }
}

pub fn all(rt: &(impl Files + Print + Eprint)) -> io::Result<()> {
    let mut space = [0u8; 20490];
    cases::each_part(rt, "checks.bin", "== checks\n", 30000, |file, _, call| {
        one_case(rt, file, call, &mut space)
    })
}
