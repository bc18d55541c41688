//! A call with little memory, and again with enough.

use crate::jobs::jobs_outcome;
use crate::line::Line;
use crate::memory::{Memory, Plenty};
use engine_calls::answers::{Answer, Input};
use engine_calls::changes::Change;
use engine_calls::engines::Engine;
use engine_calls::names::{Call, Operation};
use p3_dft::{RowMajorMatrix, TwoAdicField};
use std::alloc::{AllocError, Global};

/// A call, and on what it is made: the values or coefficients of a polynomial in one column.
#[derive(Clone, Copy)]
pub struct Case {
    pub call: Call,
    /// The logarithm of the input's height.
    pub log_h: usize,
    pub added_bits: usize,
    /// The number of the shift.
    pub shift: usize,
    /// The logarithm of the height that the engine is prepared for first, if any.
    pub prepared: Option<usize>,
}

impl Case {
    /// The polynomial.
    pub fn line<F: TwoAdicField>(self) -> Line<F> {
        Line::new(self.log_h)
    }

    /// The shift of a coset.
    pub fn shift<F: TwoAdicField>(self) -> F {
        F::from_usize(self.shift)
    }

    // What the call is made on.
    fn column<F: TwoAdicField>(self, alloc: Global) -> Result<Vec<F>, AllocError> {
        let line: Line<F> = self.line();
        let log_points = self.log_h.saturating_add(self.added_bits);
        match self.call.operation() {
            Some(Operation::Dft) | Some(Operation::CosetDft) => {
                line.coefficients(alloc, self.log_h)
            }
            Some(Operation::CosetIdft) => line.values(alloc, self.log_h, self.shift()),
            Some(_) => line.values(alloc, self.log_h, F::ONE),
            None => match self.call {
                Call::OfCoefficients | Call::OfCoefficientsBitReversed => {
                    line.coefficients(alloc, self.log_h)
                }
                Call::IsCodeword => line.values(alloc, log_points, self.shift()),
                Call::TryClone => line.values(alloc, self.log_h, self.shift()),
                _ => line.values(alloc, self.log_h, F::ONE),
            },
        }
    }

    fn input<F: TwoAdicField>(self, alloc: Global) -> Result<Input<F>, AllocError> {
        let column = self.column(alloc)?;
        Ok(Input {
            mat: RowMajorMatrix::new_col(column),
            added_bits: self.added_bits,
            shift: self.shift(),
            change: Change::Nothing,
        })
    }

    // Whether this is what the call answers. Takes no memory.
    fn is_answer<F: TwoAdicField>(self, found: &[F]) -> bool {
        let line: Line<F> = self.line();
        let log_points = self.log_h.saturating_add(self.added_bits);
        match self.call.operation() {
            Some(Operation::Dft) => line.has_values(found, self.log_h, F::ONE),
            Some(Operation::CosetDft) => line.has_values(found, self.log_h, self.shift()),
            Some(Operation::Idft) | Some(Operation::CosetIdft) => {
                line.has_coefficients(found, self.log_h)
            }
            Some(Operation::Lde) => line.has_values(found, log_points, F::ONE),
            Some(Operation::CosetLde) => line.has_values(found, log_points, self.shift()),
            None => match self.call {
                Call::TryClone => line.has_values(found, self.log_h, self.shift()),
                _ => line.has_values(found, log_points, self.shift()),
            },
        }
    }
}

/// What is wrong with a call.
#[derive(Clone, Copy, PartialEq, Eq)]
pub enum Fault {
    /// Another answer than the worked one.
    Answer,
    /// Blocks were lent though memory was refused, or none though it was not.
    Blocks,
    /// A height that was prepared is so no more.
    TablesLost,
    /// Memory was refused where there was enough.
    RefusedAgain,
}

/// How a call ended.
#[derive(Clone, Copy, PartialEq, Eq)]
pub enum Outcome {
    /// With the worked answer.
    Right,
    /// Out of memory, and all that is promised of it.
    Refused,
    Wrong(Fault),
    /// It was not made: its input had no memory, or has no such shape.
    NotReady,
    /// The engine has no such call.
    Absent,
    /// It was not to be made.
    Stopped,
}

impl Outcome {
    /// That of an answer which is right or not.
    pub fn of(right: bool) -> Outcome {
        if right {
            Outcome::Right
        } else {
            Outcome::Wrong(Fault::Answer)
        }
    }
}

/// How a case ended.
#[derive(Clone, Copy, PartialEq, Eq)]
pub enum Verdict {
    /// The call answered at once.
    Answered,
    /// It was refused memory, and answered when it was made again.
    RefusedFirst,
    Wrong(Fault),
    NotReady,
    Absent,
    Stopped,
}

impl Verdict {
    /// That of a call, made with little memory and again with enough.
    fn of(first: Outcome, again: Outcome) -> Verdict {
        match first {
            Outcome::Right => Verdict::Answered,
            Outcome::Refused => match again {
                Outcome::Right => Verdict::RefusedFirst,
                Outcome::Refused => Verdict::Wrong(Fault::RefusedAgain),
                Outcome::Wrong(fault) => Verdict::Wrong(fault),
                Outcome::NotReady | Outcome::Absent | Outcome::Stopped => Verdict::NotReady,
            },
            Outcome::Wrong(fault) => Verdict::Wrong(fault),
            Outcome::NotReady => Verdict::NotReady,
            Outcome::Absent => Verdict::Absent,
            Outcome::Stopped => Verdict::Stopped,
        }
    }

    pub fn text(self) -> &'static str {
        match self {
            Verdict::Answered => "answered",
            Verdict::RefusedFirst => "refused, then answered",
            Verdict::Wrong(Fault::Answer) => "wrong: another answer",
            Verdict::Wrong(Fault::Blocks) => "wrong: blocks",
            Verdict::Wrong(Fault::TablesLost) => "wrong: tables lost",
            Verdict::Wrong(Fault::RefusedAgain) => "wrong: refused again",
            Verdict::NotReady => "not ready",
            Verdict::Absent => "no such call",
            Verdict::Stopped => "stopped before the call",
        }
    }

    /// The exit status that tells it.
    pub fn status(self) -> u8 {
        match self {
            Verdict::Wrong(_) => 3,
            _ => 0,
        }
    }
}

// How many heights, from one on, have their tables: those below one that has them have theirs.
fn tables<F: TwoAdicField>(engine: &Engine<F>) -> usize {
    let mut count = 0usize;
    for log_h in 0..32usize {
        if engine.is_prepared(log_h) {
            count = count.saturating_add(1);
        }
    }
    count
}

// One call.
fn outcome_of_call<F: TwoAdicField, M: Memory>(
    alloc: Global,
    memory: &mut M,
    engine: &mut Engine<F>,
    case: Case,
) -> Outcome {
    if case.call == Call::RunJobs {
        return jobs_outcome(alloc, memory, engine, case);
    }
    let Ok(input) = case.input(alloc) else {
        return Outcome::NotReady;
    };
    if !memory.strain(alloc) {
        return Outcome::Stopped;
    }
    match engine.answer(case.call, input) {
        Answer::Rows(rows) => Outcome::of(case.is_answer(rows.values())),
        Answer::Holds(holds) => Outcome::of(holds),
        Answer::OutOfMemory => Outcome::Refused,
        Answer::WrongBlocks => Outcome::Wrong(Fault::Blocks),
        Answer::Absent => Outcome::Absent,
    }
}

// The call, and again where it was refused memory.
fn verdict_of_call<F: TwoAdicField, M: Memory>(
    alloc: Global,
    memory: &mut M,
    engine: &mut Engine<F>,
    case: Case,
) -> Verdict {
    let before = tables(engine);
    let first = outcome_of_call(alloc, memory, engine, case);
    memory.relieve();
    if tables(engine) < before {
        return Verdict::Wrong(Fault::TablesLost);
    }
    match first {
        Outcome::Refused => Verdict::of(first, outcome_of_call(alloc, &mut Plenty, engine, case)),
        _ => Verdict::of(first, first),
    }
}

/// The call of a case by an engine, which first prepares the height that it is to have, with little memory and again
/// with enough.
pub fn verdict_on<F: TwoAdicField, M: Memory>(
    alloc: Global,
    memory: &mut M,
    engine: &mut Engine<F>,
    case: Case,
) -> Verdict {
    if let Some(log_h) = case.prepared {
        match engine.prepare(alloc, log_h) {
            None => return Verdict::Absent,
            Some(Ok(())) => {}
            Some(Err(_)) => return Verdict::NotReady,
        }
    }
    verdict_of_call(alloc, memory, engine, case)
}
