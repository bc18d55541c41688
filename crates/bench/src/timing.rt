//! The times of the calls of one engine.

ghost use Rattle.p3_matrix.specs.RowMajor.{height};
ghost use Rattle.p3_dft.specs.Shapes.{FitsDft, FitsLde};

use crate::case::{Call, Calls, Case, sum_of};
use crate::fault::Fault;
use p3_dft::{
    CanonicalField, DftError, Evaluations, Field, RowMajorMatrix, TwoAdicSubgroupDft, fits_dft,
    fits_lde,
};
use std::rt::Clock;
use std::time::Instant;

/// The times of the calls, in nanoseconds.
#[derive(Clone, Copy)]
pub struct Times {
    /// Of a new engine.
    pub first: u64,
    /// Of the second call.
    pub next: u64,
    /// The least of all but the first.
    pub least: u64,
}

/// What the calls of an engine came to.
#[derive(Clone, Copy)]
pub struct Report {
    /// A sum of the answer.
    pub sum: u64,
    pub times: Option<Times>,
}

// What a call answers: rows however the engine leaves them, or coefficients.
#[derive(Drop)]
enum Answer<F, E> {
    Values(E),
    Coefficients(RowMajorMatrix<F>),
}

fn called<F: CanonicalField, D: TwoAdicSubgroupDft<F>>(
    engine: &mut D,
    mat: RowMajorMatrix<F>,
    case: Case,
) -> Result<Answer<F, D::Evaluations>, DftError>
    requires transform { FitsDft F.TWO_ADICITY (height mat) mat.width }
    requires extension { FitsLde F.TWO_ADICITY (height mat) mat.width case.added_bits }
{
    match case.call {
        Call::Dft => Ok(Answer::Values(engine.dft_batch(mat)?)),
        Call::Idft => Ok(Answer::Coefficients(engine.idft_batch(mat)?)),
        Call::CosetLde => {
            let values = engine.coset_lde_batch(mat, case.added_bits, F::GENERATOR)?;
            Ok(Answer::Values(values))
        }
    }
}

// The time of one call, and the sum of its answer.
fn once<F: CanonicalField, D: TwoAdicSubgroupDft<F>>(
    rt: &(impl AllocGlobal + Clock),
    engine: &mut D,
    case: Case,
) -> Result<(u64, u64), Fault> {
    // Before any entry is made, so that a shape that never fits takes no memory.
    if !fits_lde::<F>(case.height(), case.width, case.added_bits) {
        return Err(Fault::UnfitShape);
    }
    let Some(mat) = case.input::<F>(rt.alloc())? else {
        return Err(Fault::UnfitShape);
    };
    if !fits_dft::<F>(mat.height(), mat.width())
        || !fits_lde::<F>(mat.height(), mat.width(), case.added_bits)
    {
        return Err(Fault::UnfitShape);
    }
    let Ok(start) = Instant::now(rt) else {
        return Err(Fault::NoClock);
    };
    let answer = called(engine, mat, case);
    let Ok(spent) = start.elapsed(rt) else {
        return Err(Fault::NoClock);
    };
    let sum = match answer? {
        Answer::Values(values) => sum_of(values.to_row_major_matrix().values()),
        Answer::Coefficients(coefficients) => sum_of(coefficients.values()),
    };
    Ok((u64::try_from(spent.as_nanos()).unwrap_or(u64::MAX), sum))
}

// The time of a call that answers what the first did.
fn again<F: CanonicalField, D: TwoAdicSubgroupDft<F>>(
    rt: &(impl AllocGlobal + Clock),
    engine: &mut D,
    case: Case,
    sum: u64,
) -> Result<u64, Fault> {
    let (time, found) = once::<F, D>(rt, engine, case)?;
    if found != sum {
        return Err(Fault::AnswersDiffer);
    }
    Ok(time)
}

/// Makes the calls of a case by a new engine, each with the answer of the first.
pub fn report_of<F: CanonicalField, D: TwoAdicSubgroupDft<F>>(
    rt: &(impl AllocGlobal + Clock),
    case: Case,
) -> Result<Report, Fault> {
    let mut engine = D::default();
    let (first, sum) = once::<F, D>(rt, &mut engine, case)?;
    let times = match case.calls {
        Calls::Untimed => None,
        Calls::Timed(more) => {
            let next = again::<F, D>(rt, &mut engine, case, sum)?;
            let mut least = next;
            for _n in 0..more {
                least = least.min(again::<F, D>(rt, &mut engine, case, sum)?);
            }
            Some(Times { first, next, least })
        }
    };
    Ok(Report { sum, times })
}
