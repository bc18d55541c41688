//! Times every engine on one case: `bench FIELD CALL LOG_HEIGHT WIDTH ADDED_BITS CALLS`.
//!
//! Each line of the output is of one engine: its name, the sum of its answer, and then of a new engine the time
//! of the first call, of the next, and the least of that and CALLS more, in nanoseconds, and the last by the
//! number of entries and layers. Inputs are made and answers looked at outside of the times. With `check` in
//! the place of CALLS nothing but names and sums is written, which are the same wherever the program runs.
//!
//! `tools/bench` runs it over a list of cases.
#![tactic(auto)]

mod case;
mod engines;
mod fault;
mod timing;
mod words;

use engines::time_every_engine;
use fault::Fault;
use p3_dft::{BabyBear, Goldilocks, KoalaBear};
use std::env;
use std::process::ExitCode;
use std::rt::{Clock, Env};
use words::{FieldName, Request};

fn main(rt: HostRuntime) -> ExitCode {
    match run(&rt) {
        Ok(()) => ExitCode::from(0),
        Err(fault) => match println!(rt; "{}", fault.line()) {
            Ok(()) => ExitCode::from(fault.status()),
            Err(_) => ExitCode::from(Fault::NotWritten.status()),
        },
    }
}

fn run(rt: &(impl AllocGlobal + Clock + Env + Print)) -> Result<(), Fault> {
    let request = request(rt)?;
    match request.field {
        FieldName::BabyBear => time_every_engine::<BabyBear>(rt, request.case),
        FieldName::KoalaBear => time_every_engine::<KoalaBear>(rt, request.case),
        FieldName::Goldilocks => time_every_engine::<Goldilocks>(rt, request.case),
    }
}

// What the words after the program's name ask for.
fn request(rt: &(impl AllocGlobal + Env)) -> Result<Request, Fault> {
    let Ok(words) = env::args(rt) else {
        return Err(Fault::Words);
    };
    let words: Vec<String> = words.skip(1).collect(rt.alloc())?;
    Request::of(words.as_slice())
}
