//! What the calls of the library answer where a request for memory is refused, whichever it is.
//!
//! Standard input names a case, see `words::Request`. The program makes the call, and makes it again where
//! it answered that memory was refused; it tells how that went. The word `names` alone has it write the names of all
//! engines and calls.
#![tactic(auto)]

mod cases;
mod jobs;
mod line;
mod memory;
mod shapes;
#[cfg(test)]
mod tests;
mod words;

use cases::{Verdict, verdict_on};
use engine_calls::engines::Engine;
use engine_calls::names::{CALLS, ENGINES, EngineName, Tables};
use p3_dft::{BabyBear, Goldilocks, TwoAdicField};
use std::alloc::Global;
use std::io;
use std::process::ExitCode;
use words::{FieldName, Request};

// More than the words of any case.
const MOST_TEXT: usize = 256;

fn main(rt: HostRuntime) -> ExitCode {
    let mut text = [0u8; MOST_TEXT];
    let Ok(count) = io::Read::read(&mut rt.stdin(), &mut text) else {
        return ExitCode::from(1);
    };
    if text[..count].starts_with(b"names") {
        return match write_names(&rt) {
            Ok(()) => ExitCode::from(0),
            Err(_) => ExitCode::from(1),
        };
    }
    let Some(request) = Request::of(&text[..count]) else {
        let _ = println!(rt; "no such case");
        return ExitCode::from(2);
    };
    let verdict = verdict_in_field(rt.alloc(), request);
    match println!(rt; "{}", verdict.text()) {
        Ok(()) => ExitCode::from(verdict.status()),
        Err(_) => ExitCode::from(1),
    }
}

// What an engine keeps tables of.
fn tables_of(engine: EngineName) -> &'static str {
    match engine.facts().tables {
        None => "",
        Some(Tables::OfHeights) => " heights",
        Some(Tables::OfHeightsAndCosets) => " heights cosets",
    }
}

// A line for each engine, with what it keeps tables of, and one for each call.
fn write_names(rt: &HostRuntime) -> io::Result<()> {
    for engine in ENGINES {
        println!(rt; "engine {}{}", engine.word(), tables_of(engine))?;
    }
    for call in CALLS {
        println!(rt; "call {} {}", call.form(), call.word())?;
    }
    Ok(())
}

fn verdict_in_field(alloc: Global, request: Request) -> Verdict {
    match request.field {
        FieldName::BabyBear => verdict_over::<BabyBear>(alloc, request),
        FieldName::Goldilocks => verdict_over::<Goldilocks>(alloc, request),
    }
}

fn verdict_over<F: TwoAdicField>(alloc: Global, request: Request) -> Verdict {
    let mut before = request.before;
    let mut engine: Engine<F> = Engine::new(request.engine);
    verdict_on(alloc, &mut before, &mut engine, request.case)
}
