//! Why there are no times.

use p3_dft::DftError;
use std::alloc::AllocError;

#[derive(Clone, Copy)]
pub enum Fault {
    Words,
    UnknownField,
    UnknownCall,
    NotANumber,
    UnfitShape,
    OutOfMemory,
    NoClock,
    NotWritten,
    AnswersDiffer,
}

impl Fault {
    /// The line that tells it.
    pub fn line(self) -> &'static str {
        match self {
            Fault::Words => "error 1: not six words: FIELD CALL LOG_HEIGHT WIDTH ADDED_BITS CALLS",
            Fault::UnknownField => "error 2: unknown field",
            Fault::UnknownCall => "error 3: unknown call",
            Fault::NotANumber => "error 4: not a number",
            Fault::UnfitShape => "error 5: shape does not fit",
            Fault::OutOfMemory => "error 6: out of memory",
            Fault::NoClock => "error 7: the clock cannot be read",
            Fault::NotWritten => "error 8: the output cannot be written",
            Fault::AnswersDiffer => "error 9: an engine's answers differ",
        }
    }

    /// The exit status that tells it, as of the program `dft`: 2 for words, 3 for out of memory, 4 for the
    /// output; 5 for the clock, and 6 for answers that differ.
    pub fn status(self) -> u8 {
        match self {
            Fault::OutOfMemory => 3,
            Fault::NotWritten => 4,
            Fault::NoClock => 5,
            Fault::AnswersDiffer => 6,
            _ => 2,
        }
    }
}

impl From<AllocError> for Fault {
    fn from(_error: AllocError) -> Fault {
        Fault::OutOfMemory
    }
}

impl From<DftError> for Fault {
    fn from(_error: DftError) -> Fault {
        Fault::OutOfMemory
    }
}
