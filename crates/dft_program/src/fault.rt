//! Why the program has no answer.

ghost use Rattle.std.specs.Prelude.{◌≡◌};
ghost use Rattle.dft_program.specs.Faults.{line_of};
ghost use Rattle.dft_program.specs.declared.fault.Stopped.TheVariants.{ByFault, OutOfMemory};

use p3_dft::{DftError, Refused};

/// What is wrong with the words.
#[derive(Clone, Copy)]
pub enum Fault {
    UnknownField,
    UnknownEngine,
    UnknownOperation,
    TooFewWords,
    NotANumber,
    NotBelowModulus,
    UnfitShape,
    NoInverse,
}

impl Fault {
    /// The line that tells it, with its line feed.
    pub fn line(self) -> &'static str
        ensures { result.now ≡ line_of self }
    {
        match self {
            Fault::UnknownField => "error 1: unknown field\n",
            Fault::UnknownEngine => "error 2: unknown engine\n",
            Fault::UnknownOperation => "error 3: unknown operation\n",
            Fault::TooFewWords => "error 4: too few words\n",
            Fault::NotANumber => "error 5: not a number\n",
            Fault::NotBelowModulus => "error 6: number not below the modulus\n",
            Fault::UnfitShape => "error 7: shape does not fit\n",
            Fault::NoInverse => "error 8: shift has no inverse\n",
        }
    }
}

/// Why there is no answer: a fault of the words, or a growth that was refused.
#[derive(Drop)]
pub enum Stopped {
    ByFault(Fault),
    OutOfMemory,
}

impl From<Fault> for Stopped {
    ghost from_gives = { λ fault e. e ≡ ByFault fault };

    fn from(fault: Fault) -> Stopped {
        Stopped::ByFault(fault)
    }
}

impl From<Refused> for Stopped {
    ghost from_gives = { λ _ e. e ≡ OutOfMemory };

    fn from(_refused: Refused) -> Stopped {
        Stopped::OutOfMemory
    }
}

impl From<DftError> for Stopped {
    ghost from_gives = { λ _ e. e ≡ OutOfMemory };

    fn from(error: DftError) -> Stopped {
        match error {
            DftError::OutOfMemory => Stopped::OutOfMemory,
        }
    }
}
