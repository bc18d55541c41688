//! The one way in which a transform can fail.

use growth::Refused;
use thiserror::Error;

/// Why a transform gave no answer.
#[derive(Clone, Copy, Debug, Drop, PartialEq, Eq, Error)]
pub enum DftError {
    /// Memory was asked for and refused. It is a plain value that anyone can make: what says that a growth was refused
    /// is the clause of the call that answers it, by `IsWithin`, and it says for at most how many elements, and of at
    /// most how many bytes each.
    #[error("out of memory")]
    OutOfMemory,
}

impl From<Refused> for DftError {
    ghost use Rattle.std.specs.Prelude.{◌≡◌};
    ghost use Rattle.p3_matrix.specs.declared.error.DftError.TheVariants.{OutOfMemory};

    ghost from_gives = { λ _ e. e ≡ OutOfMemory };

    fn from(_refused: Refused) -> DftError {
        DftError::OutOfMemory
    }
}
