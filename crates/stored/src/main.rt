// Runs the stored cases of data/, file by file: a heading, then of each case what the call answers and leaves.
#![tactic(auto)]

use calls::{engine, maker};
use std::io;

mod calls;
mod checks;
mod texts;

fn main(rt: HostRuntime) -> io::Result<()> {
    checks::all(&rt)?;
    engine(
        &rt,
        "evaluations.bin",
        "== evaluations\n",
        |query, doc, work| {
            match evaluator::evaluate(query, doc, work) {
                Ok(given) => print!(rt; "items {} count {}", given.items, given.count),
                Err(refusal) => cases::tell_refusal(&rt, refusal),
            }
        },
    )?;
    maker(
        &rt,
        "translations.bin",
        "== translations\n",
        |query, _, plan| {
            match translator::translate(query, plan) {
                Ok(made) => print!(rt; "operators {} bytes {}", made.operators, made.bytes),
                Err(refusal) => cases::tell_refusal(&rt, refusal),
            }
        },
    )?;
    engine(&rt, "runs.bin", "== runs\n", |plan, doc, work| {
        match runner::run(plan, doc, work) {
            Ok(laid) => print!(rt;
                "start {} rows {} cells {}",
                laid.start, laid.rows, laid.filled
            ),
            Err(refusal) => cases::tell_refusal(&rt, refusal),
        }
    })?;
    texts::all(&rt)?;
    maker(&rt, "typed.bin", "== typed\n", |typed, _, query| {
        match reader::read(typed, query) {
            Ok(made) => print!(rt; "records {} bytes {}", made.records, made.bytes),
            Err(refusal) => cases::tell_refusal(&rt, refusal),
        }
    })?;
    maker(&rt, "written.bin", "== written\n", |query, _, text| {
        match wording::write(query, text) {
            Ok(bytes) => cases::say(&rt, "text ", bytes),
            Err(refusal) => cases::tell_refusal(&rt, refusal),
        }
    })
}
