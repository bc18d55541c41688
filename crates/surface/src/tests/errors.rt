// The one error: copied, compared, matched, printed, made by a user, and part of a user's own.

ghost use Rattle.p3_matrix.specs.RowMajor.{height};
ghost use Rattle.p3_dft.specs.Shapes.{FitsDft};

use p3_dft::{
    BabyBear, DftError, JobsStopped, NaiveDft, RowMajorMatrix, TwoAdicField, TwoAdicSubgroupDft,
};
use std::alloc::Global;

fn is_memory<T>(answer: &Result<T, DftError>) -> bool {
    match answer {
        Ok(_) => false,
        Err(DftError::OutOfMemory) => true,
    }
}

fn stopped_by<F>(stopped: &JobsStopped<F>) -> bool {
    stopped.error == DftError::OutOfMemory
}

fn twice(error: DftError) -> (DftError, DftError) {
    (error, error)
}

// Of what std refused.
fn ones(alloc: Global, n: usize) -> Result<Vec<u8>, DftError> {
    let mut ones = Vec::new(alloc);
    for _i in 0..n {
        ones.push(1u8).map_err(|_| DftError::OutOfMemory)?;
    }
    Ok(ones)
}

// A user's own error.
#[derive(Clone, Copy, Debug, PartialEq, Eq)]
enum ProofError {
    Transform(DftError),
    Empty,
}

impl From<DftError> for ProofError {
    fn from(error: DftError) -> ProofError {
        ProofError::Transform(error)
    }
}

fn proved<F: TwoAdicField>(mat: RowMajorMatrix<F>) -> Result<RowMajorMatrix<F>, ProofError>
    requires { FitsDft F.TWO_ADICITY (height mat) mat.width }
{
    if mat.height() == 0 {
        return Err(ProofError::Empty);
    }
    Ok(NaiveDft::default().dft_batch(mat)?)
}

#[test]
fn errors_are_values(rt: HostRuntime) {
    let alloc = rt.alloc();
    let (one, other) = twice(DftError::OutOfMemory);
    assert!(rt; one == other && is_memory::<u8>(&Err(one)));
    assert!(rt; ProofError::from(one) != ProofError::Empty);
    assert!(rt; ones(alloc, 3).expect(&rt, "memory").len() == 3);
    let text = format!(in alloc; "{one}").expect(&rt, "memory");
    assert!(rt; text.as_str() == "out of memory");
    let stopped: JobsStopped<BabyBear> = JobsStopped {
        answers: Vec::new(alloc),
        error: one,
    };
    assert!(rt; stopped_by(&stopped));
}
