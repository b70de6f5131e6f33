// Program `chartask`: what both engines make of the query in `query.bin` over the catalogue in `doc.bin`, and whether
// they agree.
#![tactic(auto)]

use std::io;

// Lends what the translator and the engines work in, and prints their text.
// As it is: (d) what this and `stored` have alike is room of fixed sizes, which each lends by itself.
fn print(rt: &impl Print, query: &[u8], doc: &[u8]) -> io::Result<()> {
    let mut plan = [0u8; 6144];
    let mut work = [0i64; 8192];
    let mut kept = [0i64; 2730];
    let mut text = [0u8; 87488];
    let n = printing::tell(query, doc, &mut plan, &mut work, &mut kept, &mut text);
    rt.write_all(&text[0..n])
}

fn main(rt: HostRuntime) -> io::Result<()> {
    let mut query = [0u8; 1024];
    let mut doc = [0u8; 20490];
    let n = files::load(&rt, "query.bin", &mut query)?;
    let m = files::load(&rt, "doc.bin", &mut doc)?;
    print(&rt, &query[0..n], &doc[0..m])
}
