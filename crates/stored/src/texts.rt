// The texts of program `chartask`: of each case its number, then what chartask prints.
// A group is its number of cases (1 byte), then the catalogue, then each case's query.
use std::io;
use std::io::Read;
use std::rt::Files;

// Lends what the translator and the engines work in, and prints their text.
fn print(rt: &impl Print, query: &[u8], doc: &[u8]) -> io::Result<()> {
    let mut plan = [0u8; 6144];
    let mut work = [0i64; 8192];
    let mut kept = [0i64; 2730];
    let mut text = [0u8; 87488];
    let n = printing::tell(query, doc, &mut plan, &mut work, &mut kept, &mut text);
    rt.write_all(&text[0..n])
}

// The next case of a group.
fn one_case(
    rt: &impl Print,
    file: &mut impl Read,
    number: usize,
    query: &mut [u8],
    doc: &[u8],
) -> io::Result<()> {
    println!(rt; "case {number}")?;
    let n = cases::load(file, query)?;
    print(rt, &query[0..n], doc)
}

// The next group, whose cases are numbered from `number` on; the number cannot pass its type.
fn one_group(
    rt: &impl Print,
    file: &mut impl Read,
    times: usize,
    number: &mut usize,
    query: &mut [u8],
    doc: &mut [u8],
) -> io::Result<()> {
    let m = cases::load(file, doc)?;
    for _ in 0..times {
        one_case(rt, file, *number, query, &doc[0..m])?;
        *number = number.saturating_add(1);
    }
    Ok(())
}

pub fn all(rt: &(impl Files + Print + Eprint)) -> io::Result<()> {
    let mut query = [0u8; 1024];
    let mut doc = [0u8; 20490];
    let mut number: usize = 1;
    cases::each_part(rt, "texts.bin", "== texts\n", 10000, |file, _, times| {
        one_group(rt, file, times, &mut number, &mut query, &mut doc)
    })
}
