//! `bench_loads VERB WORDS..`: one part of the project, loaded as much as the words say, for the
//! scripts in `bench/`. It prints what came of it. The status is 1 where the words ask for nothing,
//! and where what was read is refused: then it tells why.
#![tactic(auto)]

mod blobs;
mod broker;
mod counts;
mod deltas;
mod frames;
mod rows;
mod scan;
mod sessions;
mod store;
mod texts;

use std::env;

const USAGE: &str =
    "usage: bench_loads blob|broker|counts|deltas|frames|rows|scan|sessions|store|texts WORDS..";

/// Carries out what the words ask for, where they ask for something.
fn told(rt: &HostRuntime, words: &[&str]) -> anyhow::Result<Option<String>> {
    let alloc = rt.alloc();
    match words {
        ["blob", words @ ..] => blobs::run(rt, words),
        ["broker", words @ ..] => broker::run(alloc, words),
        ["counts", words @ ..] => counts::run(alloc, words),
        ["deltas", words @ ..] => deltas::run(rt, words),
        ["frames", words @ ..] => frames::run(rt, words),
        ["rows", words @ ..] => rows::run(alloc, words),
        ["scan", words @ ..] => scan::run(rt, words),
        ["sessions", words @ ..] => sessions::run(alloc, words),
        ["store", words @ ..] => store::run(rt, words),
        ["texts", words @ ..] => texts::run(rt, words),
        _ => Ok(None),
    }
}

fn main(rt: HostRuntime) -> anyhow::Result<()> {
    let mut words = Vec::new(rt.alloc());
    for word in env::args(&rt)?.skip(1) {
        words.push(word)?;
    }
    let mut texts = Vec::new(rt.alloc());
    for word in &words {
        texts.push(word.as_str())?;
    }
    match told(&rt, &texts)? {
        Some(told) => Ok(println!(rt; "{told}")?),
        None => Err(anyhow::anyhow!(USAGE)),
    }
}
