//! Why a call has no answer.

ghost use Rattle.std.specs.Prelude.{◌≡◌, ◌≤◌, Some};
ghost use Rattle.liktrob.specs.Statuses.{status};

use p3_dft::DftError;

/// Why a call has no answer. The first that applies is given.
#[derive(Debug, Drop)]
pub enum Refusal {
    /// No engine has this number.
    Engine,
    /// A word, or the shift, is the modulus or more.
    Number,
    /// The words are no matrix whose shape fits, or the answer has another length.
    Shape,
    /// The shift has no inverse.
    Shift,
    /// Memory was refused.
    OutOfMemory(DftError),
}

impl Refusal {
    /// The status that a caller is given.
    pub fn status(&self) -> u32
        ensures status { result ≡ status (Some self.now) }
        ensures positive { 1 ≤ result }
    {
        match self {
            Refusal::Engine => 1,
            Refusal::Number => 2,
            Refusal::Shape => 3,
            Refusal::Shift => 4,
            Refusal::OutOfMemory(_) => 5,
        }
    }
}

impl From<DftError> for Refusal {
    ghost use Rattle.std.specs.Prelude.{◌≡◌};
    ghost use Rattle.liktrob.specs.declared.refusal.Refusal.TheVariants.{OutOfMemory};

    ghost from_gives = { λ error refusal. refusal ≡ OutOfMemory error };

    fn from(error: DftError) -> Refusal {
        Refusal::OutOfMemory(error)
    }
}
