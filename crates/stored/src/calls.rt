// The calls in lent room: a line for each case, what the call answers, and the sum of all that it was lent.
use std::io;
use std::io::Read;
use std::rt::Files;

// A group of an engine: what it is given (a query, or a plan) and the catalogue, then of each case the lent cells.
fn engine_group<C: Fn(&[u8], &[u8], &mut [i64]) -> io::Result<()>>(
    rt: &impl Print,
    file: &mut impl Read,
    times: usize,
    given: &mut [u8],
    doc: &mut [u8],
    work: &mut [i64],
    call: &C,
) -> io::Result<()>
    requires { C.IsAlwaysCallable call.now }
{
    let n = cases::load(file, given)?;
    let m = cases::load(file, doc)?;
    cases::each_case(rt, file, times, &given[0..n], &doc[0..m], work, call)
}

// The cases of an engine. A group begins with its number of cases; where the file ends inside one, what its strings
// lack stands there still from the group before.
// As it is: (c) a closure over the room and the call together, for `each_part`, got no proof. `maker` likewise.
pub fn engine<C: Fn(&[u8], &[u8], &mut [i64]) -> io::Result<()>>(
    rt: &(impl Files + Print + Eprint),
    path: &str,
    heading: &str,
    call: C,
) -> io::Result<()>
    requires { C.IsAlwaysCallable call }
{
    let Some(mut file) = cases::opened(rt, path, heading)? else {
        return Ok(());
    };
    let mut given = [0u8; 4096];
    let mut doc = [0u8; 20490];
    let mut work = [0i64; 65600];
    for _ in 0..10000 {
        let times = cases::next_byte(&mut file)?;
        if times == 0 {
            return Ok(());
        }
        engine_group(rt, &mut file, times, &mut given, &mut doc, &mut work, &call)?;
    }
    Ok(())
}

// A group of a call that fills bytes: what it is given (a query, or a text), then of each case the lent bytes.
fn maker_group<C: Fn(&[u8], &[u8], &mut [u8]) -> io::Result<()>>(
    rt: &impl Print,
    file: &mut impl Read,
    times: usize,
    given: &mut [u8],
    made: &mut [u8],
    call: &C,
) -> io::Result<()>
    requires { C.IsAlwaysCallable call.now }
{
    let n = cases::load(file, given)?;
    cases::each_case(rt, file, times, &given[0..n], &[], made, call)
}

// The cases of a call that fills bytes. A group begins with its number of cases.
pub fn maker<C: Fn(&[u8], &[u8], &mut [u8]) -> io::Result<()>>(
    rt: &(impl Files + Print + Eprint),
    path: &str,
    heading: &str,
    call: C,
) -> io::Result<()>
    requires { C.IsAlwaysCallable call }
{
    let Some(mut file) = cases::opened(rt, path, heading)? else {
        return Ok(());
    };
    let mut given = [0u8; 16384];
    let mut made = [0u8; 7000];
    for _ in 0..10000 {
        let times = cases::next_byte(&mut file)?;
        if times == 0 {
            return Ok(());
        }
        maker_group(rt, &mut file, times, &mut given, &mut made, &call)?;
    }
    Ok(())
}
