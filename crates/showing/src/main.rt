// Program `showing`: each operator of a plan with its number, its byte offset and its fields, and its table as the
// runner laid it in the lent cells. The word `tables` shows the plan of the query in `query.bin`, the word `typed` that
// of the typed query in `query.xq`, the word `plan` that in `plan.bin`, all over the catalogue in `doc.bin`; `cases`
// shows the stored cases of `cases.bin`.
#![tactic(auto)]

ghost use Rattle.std.specs.Prelude.{◌+◌, ◌≤◌, ◌<◌, length, IfOk};

use codes::refusals::{Reason, Refusal};
use shown_records::{Seen, Shown};
use shown_tables::Place;
use std::env::Env;
use std::io;
use std::io::Read;
use std::rt::Files;

// A cell in the heading.
fn show_cell(rt: &impl Print, cell: i64) -> io::Result<()> {
    let mut text = [0u8; 25];
    let n = shown_rows::put_cell(&mut text, 0, cell);
    rt.write_all(b" ")?;
    rt.write_all(&text[0..n])
}

// The field at an offset, of the record from `at` up to `end`; the answer is the offset after it.
fn show_field(rt: &impl Print, plan: &[u8], at: usize, from: usize, end: usize) -> io::Result<usize>
    requires { (at + 2 ≤ from) × (from < end) × (end ≤ length plan.now) }
    ensures { IfOk result (λ next. (from < next) × (next ≤ end)) }
{
    let Some((shown, next)) = shown_records::next_field(plan, at, from, end) else {
        return Ok(end);
    };
    match shown {
        Shown::Number(number) => cases::say(rt, " ", number)?,
        Shown::Cell(cell) => show_cell(rt, cell)?,
    }
    Ok(next)
}

// The fields of the record from `at` up to `end`.
fn show_fields(rt: &impl Print, plan: &[u8], at: usize, end: usize) -> io::Result<()>
    requires { (at + 2 ≤ length plan.now) × (end ≤ length plan.now) }
{
    let mut from = at + 2;
    // As it is: (d) a field says where the next one begins, so no range counts them.
    while from < end {
        from = show_field(rt, plan, at, from, end)?;
    }
    Ok(())
}

// The heading of operator n, as `12 at 126  RK 9 0`.
fn show_heading(rt: &impl Print, plan: &[u8], at: usize, end: usize, n: usize) -> io::Result<()>
    requires { (at + 2 ≤ length plan.now) × (end ≤ length plan.now) }
{
    let mark_end = at + 2;
    cases::say(rt, "", n)?;
    cases::say(rt, " at ", at)?;
    rt.write_all(b"  ")?;
    rt.write_all(&plan[at..mark_end])?;
    show_fields(rt, plan, at, end)?;
    println!(rt)
}

// A row.
fn show_row(rt: &impl Print, row: &[i64]) -> io::Result<()>
    requires { length row.now ≤ 6 }
{
    let mut text = [0u8; 223];
    let n = shown_rows::put_row(&mut text, row);
    rt.write_all(&text[0..n])
}

// The rows of a table.
fn show_rows(rt: &impl Print, cells: &[i64], width: usize) -> io::Result<()>
    requires { (1 ≤ width) × (width ≤ 6) }
{
    if cells.is_empty() {
        rt.write_all(b"     no rows\n")?;
    }
    for row in cells.chunks_exact(width) {
        show_row(rt, row)?;
    }
    Ok(())
}

fn show_none(rt: &impl Print) -> io::Result<()> {
    rt.write_all(b"    no table\n")
}

// The table of operator n, whose record ends at `end`, as the run of the plan that ends there lays it.
fn show_table(
    rt: &impl Print,
    plan: &[u8],
    end: usize,
    n: usize,
    width: usize,
    doc: &[u8],
    asked: &mut [u8],
    work: &mut [i64],
) -> io::Result<()>
    requires end_in_bounds { (end ≤ length plan.now) × (length plan.now ≤ 8192) × (n < 512) × (1 ≤ width) × (width ≤ 6) }
    requires in_bounds { (8200 ≤ length asked.old) × (8192 ≤ length work.old) }
{
    let m = shown_tables::ask(plan, end, n, width, asked);
    let ran = runner::run(&asked[0..m], doc, work);
    match shown_tables::place_of(ran, width, 8192) {
        Some(Place { start, end }) => show_rows(rt, &work[start..end], width),
        None => show_none(rt),
    }
}

// The operators up to the offset `last`. A run in 32,768 cells holds tables of 8,192 and three columns of the last.
fn show_operators(rt: &impl Print, plan: &[u8], last: usize, doc: &[u8]) -> io::Result<()>
    requires { length plan.now ≤ 8192 }
{
    let mut asked = [0u8; 8200];
    let mut work = [0i64; 32768];
    let mut widths = [0u8; 512];
    let mut at: usize = 0;
    for n in 0..512 {
        if last < at {
            return Ok(());
        }
        let Some(Seen { next, width }) = shown_records::look(plan, at, &widths, n) else {
            return Ok(());
        };
        show_heading(rt, plan, at, next, n)?;
        // A record that does not suit the tables before it: the plan is refused there.
        let Some(width) = width else {
            return show_none(rt);
        };
        show_table(rt, plan, next, n, width, doc, &mut asked, &mut work)?;
        widths[n] = width as u8;
        at = next;
    }
    Ok(())
}

// A refusal, as chartask says it.
fn show_refusal(rt: &impl Print, refusal: Refusal) -> io::Result<()> {
    cases::tell_refusal(rt, refusal)?;
    println!(rt)
}

// Runs a plan in 8,192 cells.
fn run(plan: &[u8], doc: &[u8]) -> runner::Ran {
    let mut work = [0i64; 8192];
    runner::run(plan, doc, &mut work)
}

// The operators of a plan up to the one that is refused, and what its run answers. The catalogue is refused before any
// operator is at work.
fn show_plan(rt: &impl Print, plan: &[u8], doc: &[u8]) -> io::Result<()>
    requires { length plan.now ≤ 8192 }
{
    match run(plan, doc) {
        Ok(tables) => {
            show_operators(rt, plan, plan.len(), doc)?;
            println!(rt;
                "start {} rows {} cells {}",
                tables.start, tables.rows, tables.filled
            )
        }
        Err(refusal) => {
            if refusal.reason != Reason::Catalogue {
                show_operators(rt, plan, refusal.place, doc)?;
            }
            show_refusal(rt, refusal)
        }
    }
}

// The plan in the first bytes of what was lent for it; a plan is no longer than that.
fn show_first(rt: &impl Print, plan: &[u8], bytes: usize, doc: &[u8]) -> io::Result<()>
    requires { length plan.now ≤ 8192 }
{
    if bytes <= plan.len() {
        show_plan(rt, &plan[0..bytes], doc)?;
    }
    Ok(())
}

// The plan of a query, or why it has none.
// As it is: (d) this and `show_typed` call other calls and go on with other functions.
fn show_query(rt: &impl Print, query: &[u8], doc: &[u8]) -> io::Result<()> {
    let mut plan = [0u8; 6144];
    match translator::translate(query, &mut plan) {
        Ok(translated) => show_first(rt, &plan, translated.bytes, doc),
        Err(refusal) => show_refusal(rt, refusal),
    }
}

// The query in the first bytes of what was lent for its records; it is no longer than that.
fn show_read(rt: &impl Print, query: &[u8], bytes: usize, doc: &[u8]) -> io::Result<()> {
    if bytes <= query.len() {
        show_query(rt, &query[0..bytes], doc)?;
    }
    Ok(())
}

// The plan of a typed query, or why it has none.
fn show_typed(rt: &impl Print, typed: &[u8], doc: &[u8]) -> io::Result<()> {
    let mut query = [0u8; 1024];
    match reader::read(typed, &mut query) {
        Ok(read) => show_read(rt, &query, read.bytes, doc),
        Err(refusal) => show_refusal(rt, refusal),
    }
}

// The word `tables`.
// As it is: (d) this and `show_plan_file` lend other room and go on with other functions.
fn show_query_file(rt: &(impl Files + Print), doc: &[u8]) -> io::Result<()> {
    let mut query = [0u8; 1024];
    let n = files::load(rt, "query.bin", &mut query)?;
    show_query(rt, &query[0..n], doc)
}

// The word `typed`. A text has at most 4,096 bytes; a byte more is lent, so that a longer one is seen and not cut.
fn show_typed_file(rt: &(impl Files + Print + Eprint), doc: &[u8]) -> io::Result<()> {
    let mut typed = [0u8; 4097];
    let n = files::load(rt, "query.xq", &mut typed)?;
    if 4096 < n {
        return eprintln!(rt; "showing: query.xq is longer than 4096 bytes");
    }
    show_typed(rt, &typed[0..n], doc)
}

// The word `plan`. 512 operators have no more than 6,144 bytes, so a longer plan is refused.
fn show_plan_file(rt: &(impl Files + Print), doc: &[u8]) -> io::Result<()> {
    let mut plan = [0u8; 8192];
    let n = files::load(rt, "plan.bin", &mut plan)?;
    show_plan(rt, &plan[0..n], doc)
}

// What is shown: the query in `query.bin`, the typed one in `query.xq`, or the plan in `plan.bin`.
// As it is: (d) each source is another file, and goes on with another function.
#[derive(Clone, Copy)]
enum Source {
    Query,
    Text,
    Plan,
}

// Shows it over the catalogue in `doc.bin`.
fn show_files(rt: &(impl Files + Print + Eprint), source: Source) -> io::Result<()> {
    let mut doc = [0u8; 20490];
    let m = files::load(rt, "doc.bin", &mut doc)?;
    match source {
        Source::Query => show_query_file(rt, &doc[0..m]),
        Source::Text => show_typed_file(rt, &doc[0..m]),
        Source::Plan => show_plan_file(rt, &doc[0..m]),
    }
}

// The words `tables` and `typed`, by their second letter.
fn show_word(rt: &(impl Files + Print + Eprint), second: u8) -> io::Result<()> {
    match second {
        b'y' => show_files(rt, Source::Text),
        _ => show_files(rt, Source::Query),
    }
}

// A stored case: the query (word 1), the plan (word 2) or the typed query (word 3), then the catalogue.
fn show_case(rt: &impl Print, file: &mut impl Read, word: usize) -> io::Result<()> {
    let mut first = [0u8; 8192];
    let mut doc = [0u8; 20490];
    let n = cases::load(file, &mut first)?;
    let m = cases::load(file, &mut doc)?;
    match word {
        1 => show_query(rt, &first[0..n], &doc[0..m]),
        3 => show_typed(rt, &first[0..n], &doc[0..m]),
        _ => show_plan(rt, &first[0..n], &doc[0..m]),
    }
}

// The stored cases. There are fewer than 10,000.
fn show_cases(rt: &(impl Files + Print + Eprint)) -> io::Result<()> {
    cases::each_part(rt, "cases.bin", "", 9999, |file, number, word| {
        println!(rt; "case {number}")?;
        show_case(rt, file, word)
    })
}

fn main(rt: HostRuntime) -> io::Result<()> {
    let mut word = [0u8; 16];
    let _ = rt.arg(1, &mut word);
    match word[0] {
        b't' => show_word(&rt, word[1]),
        b'p' => show_files(&rt, Source::Plan),
        b'c' => show_cases(&rt),
        _ => eprintln!(rt; "showing: give the word tables, typed, plan or cases"),
    }
}
