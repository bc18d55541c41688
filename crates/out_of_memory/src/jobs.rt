//! A list of jobs with little memory.

ghost use Rattle.std.specs.Prelude.{IfSome};
ghost use Rattle.std.specs.List.{All};
ghost use Rattle.p3_dft.specs.Jobs.{CanRun};

use crate::cases::{Case, Outcome};
use crate::line::Line;
use crate::memory::Memory;
use crate::shapes::{extensible, transformable};
use engine_calls::engines::Engine;
use p3_dft::{Field, Job, JobsStopped, RowMajorMatrix, TwoAdicField};
use std::alloc::Global;

// An inverse of a column that has room for so many entries more.
fn inverse<F: TwoAdicField>(alloc: Global, case: Case, room: usize) -> Option<Job<F>>
    ensures { IfSome result (CanRun F.Valued.own F.TWO_ADICITY) }
{
    let mut values = case.line::<F>().values(alloc, case.log_h, F::ONE).ok()?;
    values.reserve(room).ok()?;
    Some(Job::Idft(transformable(values)?))
}

// A transform on the coset.
fn transform<F: TwoAdicField>(alloc: Global, case: Case) -> Option<Job<F>>
    ensures { IfSome result (CanRun F.Valued.own F.TWO_ADICITY) }
{
    let coefficients = case.line::<F>().coefficients(alloc, case.log_h).ok()?;
    Some(Job::CosetDft(transformable(coefficients)?, case.shift()))
}

// An extension.
fn extension<F: TwoAdicField>(alloc: Global, case: Case) -> Option<Job<F>>
    ensures { IfSome result (CanRun F.Valued.own F.TWO_ADICITY) }
{
    let values = case.line::<F>().values(alloc, case.log_h, F::ONE).ok()?;
    let added_bits = case.added_bits;
    Some(Job::Lde(extensible(values, added_bits)?, added_bits))
}

/// These three. The first column has room for so many entries more.
pub fn three_jobs<F: TwoAdicField>(alloc: Global, case: Case, room: usize) -> Option<Vec<Job<F>>>
    ensures { IfSome result (λ jobs. All (CanRun F.Valued.own F.TWO_ADICITY) jobs.items) }
{
    let jobs = and_then(Some(Vec::new(alloc)), inverse(alloc, case, room));
    let jobs = and_then(jobs, transform(alloc, case));
    and_then(jobs, extension(alloc, case))
}

// The list with one more job, where there are both and memory for it.
fn and_then<F: TwoAdicField>(jobs: Option<Vec<Job<F>>>, job: Option<Job<F>>) -> Option<Vec<Job<F>>>
    requires jobs { IfSome jobs (λ jobs. All (CanRun F.Valued.own F.TWO_ADICITY) jobs.items) }
    requires job { IfSome job (CanRun F.Valued.own F.TWO_ADICITY) }
    ensures { IfSome result (λ jobs. All (CanRun F.Valued.own F.TWO_ADICITY) jobs.items) }
{
    let mut jobs = jobs?;
    match jobs.push(job?) {
        Ok(()) => Some(jobs),
        Err(_) => None,
    }
}

// Whether an answer is that of the job in its place.
fn is_answer<F: TwoAdicField>(case: Case, place: usize, answer: &RowMajorMatrix<F>) -> bool {
    let line: Line<F> = case.line();
    let found = answer.values();
    let log_points = case.log_h.saturating_add(case.added_bits);
    match place {
        0 => line.has_coefficients(found, case.log_h),
        1 => line.has_values(found, case.log_h, case.shift()),
        _ => line.has_values(found, log_points, F::ONE),
    }
}

/// Whether these are answers of the first of those jobs.
pub fn are_first_answers<F: TwoAdicField>(case: Case, answers: &[RowMajorMatrix<F>]) -> bool {
    let mut right = answers.len() <= 3;
    for i in 0..answers.len() {
        right = right && is_answer(case, i, &answers[i]);
    }
    right
}

/// `run_jobs` of these.
pub fn jobs_outcome<F: TwoAdicField, M: Memory>(
    alloc: Global,
    memory: &mut M,
    engine: &mut Engine<F>,
    case: Case,
) -> Outcome {
    let Some(jobs) = three_jobs(alloc, case, 0) else {
        return Outcome::NotReady;
    };
    if !memory.strain(alloc) {
        return Outcome::Stopped;
    }
    match engine.run_jobs(jobs) {
        Ok(answers) => {
            Outcome::of(answers.len() == 3 && are_first_answers(case, answers.as_slice()))
        }
        Err(
            JobsStopped {
                answers,
                error: _error,
            },
        ) => {
            if answers.len() < 3 && are_first_answers(case, answers.as_slice()) {
                Outcome::Refused
            } else {
                Outcome::of(false)
            }
        }
    }
}
