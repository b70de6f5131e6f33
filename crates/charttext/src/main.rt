// Program `charttext`: what both engines make of the typed query in `query.xq` over the catalogue in `doc.bin`, and
// whether they agree.
#![tactic(auto)]

use std::io;

// Lends what the reader, the translator and the engines work in, and prints their text.
fn print(rt: &impl Print, typed: &[u8], doc: &[u8]) -> io::Result<()> {
    let mut query = [0u8; 1024];
    let mut plan = [0u8; 6144];
    let mut work = [0i64; 8192];
    let mut kept = [0i64; 2730];
    let mut text = [0u8; 87488];
    let n = typed_printing::tell(
        typed, doc, &mut query, &mut plan, &mut work, &mut kept, &mut text,
    );
    rt.write_all(&text[0..n])
}

// A text has at most 4,096 bytes. A byte more is lent, so that a longer one is seen and not cut.
fn main(rt: HostRuntime) -> io::Result<()> {
    let mut typed = [0u8; 4097];
    let mut doc = [0u8; 20490];
    let n = files::load(&rt, "query.xq", &mut typed)?;
    if 4096 < n {
        return eprintln!(rt; "charttext: query.xq is longer than 4096 bytes");
    }
    let m = files::load(&rt, "doc.bin", &mut doc)?;
    print(&rt, &typed[0..n], &doc[0..m])
}
