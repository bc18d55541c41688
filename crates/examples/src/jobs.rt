//! A list of jobs, where all answers are wanted or none.
//!
//! Proved: the answers are those of the jobs, in their order.

ghost use Rattle.std.specs.Prelude.{IfErr, IfOk};
ghost use Rattle.std.specs.List.{All, AllZip};
ghost use Rattle.p3_matrix.specs.Room.{WasOutOfMemory};
ghost use Rattle.p3_dft.specs.Engines.{IsLater};
ghost use Rattle.p3_dft.specs.Jobs.{CanRun, IsAnswer};

use p3_dft::{DftError, Job, RowMajorMatrix, TwoAdicField, TwoAdicSubgroupDft, run_jobs};

/// The answers of all jobs. Where memory is refused, those of the first jobs are dropped.
pub fn all_answers<F: TwoAdicField, D: TwoAdicSubgroupDft<F>>(
    engine: &mut D,
    jobs: Vec<Job<F>>,
) -> Result<Vec<RowMajorMatrix<F>>, DftError>
    requires { All (CanRun F.Valued.own F.TWO_ADICITY) jobs.items }
    ensures answers { IfOk result (λ answers. AllZip (IsAnswer F.Valued.own F.generator) jobs.items answers.items) }
    ensures later { IsLater D.facts engine.old engine.new }
    ensures refused { IfErr result WasOutOfMemory }
{
    let answers = run_jobs(engine, jobs)?;
    Ok(answers)
}
