//! The engines, each with its line.

use crate::case::Case;
use crate::fault::Fault;
use crate::timing::report_of;
use p3_dft::{
    CanonicalField, NaiveDft, Radix2Bowers, Radix2DFTSmallBatch, Radix2Dit, Radix2DitParallel,
    TwoAdicSubgroupDft,
};
use std::rt::Clock;

// `NaiveDft` makes so many products an entry as there are rows, so it is left out where there are more.
const MOST_ROWS_OF_NAIVE: usize = 1024;

/// Makes the calls of a case by each engine, and writes its line.
pub fn time_every_engine<F: CanonicalField>(
    rt: &(impl AllocGlobal + Clock + Print),
    case: Case,
) -> Result<(), Fault> {
    if case.answer_height() <= MOST_ROWS_OF_NAIVE {
        time_engine::<F, NaiveDft>(rt, "naive", case)?;
    }
    time_engine::<F, Radix2Dit<F>>(rt, "dit", case)?;
    time_engine::<F, Radix2Bowers>(rt, "bowers", case)?;
    time_engine::<F, Radix2DitParallel<F>>(rt, "parallel", case)?;
    time_engine::<F, Radix2DFTSmallBatch<F>>(rt, "small", case)
}

fn time_engine<F: CanonicalField, D: TwoAdicSubgroupDft<F>>(
    rt: &(impl AllocGlobal + Clock + Print),
    name: &str,
    case: Case,
) -> Result<(), Fault> {
    let report = report_of::<F, D>(rt, case)?;
    let sum = report.sum;
    let written = match report.times {
        None => println!(rt; "{name} {sum}"),
        Some(times) => {
            let (first, next, least) = (times.first, times.next, times.least);
            let each = hundredths(least, case.entries_by_layers());
            println!(rt;
                "{name} {sum} {first} {next} {least} {}.{:02}",
                each / 100,
                each % 100
            )
        }
    };
    match written {
        Ok(()) => Ok(()),
        Err(_) => Err(Fault::NotWritten),
    }
}

// A hundred times the quotient, which is zero where there is none.
fn hundredths(time: u64, by: usize) -> u64 {
    time.saturating_mul(100).checked_div(by as u64).unwrap_or(0)
}
