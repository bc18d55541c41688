//! The names of engines and of calls, and what is expected of each engine.

use p3_dft::Layout;

/// The engines of `p3_dft`.
#[derive(Clone, Copy, PartialEq, Eq)]
pub enum EngineName {
    Naive,
    Dit,
    Bowers,
    Parallel,
    Small,
}

/// All of them.
pub const ENGINES: [EngineName; 5] = [
    EngineName::Naive,
    EngineName::Dit,
    EngineName::Bowers,
    EngineName::Parallel,
    EngineName::Small,
];

/// The tables that an engine keeps.
#[derive(Clone, Copy, PartialEq, Eq)]
pub enum Tables {
    /// One of each height: there a transform or an inverse takes no memory.
    OfHeights,
    /// One of each coset besides, which a transform on it goes by.
    OfHeightsAndCosets,
}

/// How an engine goes about a transform and an extension.
#[derive(Clone, Copy, PartialEq, Eq)]
pub enum Method {
    /// By sums.
    Sums,
    /// By butterflies, and extensions by an inverse and a transform of the larger height.
    Parts,
    /// By parts, where a shift multiplies the rows of coefficients alone.
    ShortShifts,
    /// Extensions by an inverse and transforms on cosets, whose shifts stand in the twiddles: in several blocks.
    Cosets,
    /// `lde_batch` and `coset_lde_batch` without rows of zeros.
    WithoutZeros,
}

/// What is expected of an engine.
#[derive(Clone, Copy)]
pub struct Facts {
    pub word: &'static str,
    /// The order in which it hands over coefficients.
    pub layout: Layout,
    pub tables: Option<Tables>,
    pub method: Method,
}

impl EngineName {
    pub fn facts(self) -> Facts {
        match self {
            EngineName::Naive => Facts {
                word: "naive",
                layout: Layout::Natural,
                tables: None,
                method: Method::Sums,
            },
            EngineName::Dit => Facts {
                word: "dit",
                layout: Layout::Natural,
                tables: Some(Tables::OfHeights),
                method: Method::ShortShifts,
            },
            EngineName::Bowers => Facts {
                word: "bowers",
                layout: Layout::BitReversed,
                tables: None,
                method: Method::Parts,
            },
            EngineName::Parallel => Facts {
                word: "parallel",
                layout: Layout::BitReversed,
                tables: Some(Tables::OfHeightsAndCosets),
                method: Method::Cosets,
            },
            EngineName::Small => Facts {
                word: "small",
                layout: Layout::Natural,
                tables: Some(Tables::OfHeights),
                method: Method::WithoutZeros,
            },
        }
    }

    pub fn word(self) -> &'static str {
        self.facts().word
    }

    /// Whether its transforms are by butterflies.
    pub fn is_fast(self) -> bool {
        self.facts().method != Method::Sums
    }

    /// Whether it keeps tables.
    pub fn has_tables(self) -> bool {
        self.facts().tables.is_some()
    }

    /// The engine of this word.
    pub fn of(word: &str) -> Option<EngineName> {
        for name in ENGINES {
            if name.word() == word {
                return Some(name);
            }
        }
        None
    }
}

/// What a call does, whatever it is made on.
#[derive(Clone, Copy, PartialEq, Eq)]
pub enum Operation {
    Dft,
    CosetDft,
    Idft,
    CosetIdft,
    Lde,
    CosetLde,
}

/// All of them.
pub const OPERATIONS: [Operation; 6] = [
    Operation::Dft,
    Operation::CosetDft,
    Operation::Idft,
    Operation::CosetIdft,
    Operation::Lde,
    Operation::CosetLde,
];

/// A call that takes a matrix or a column.
#[derive(Clone, Copy, PartialEq, Eq)]
pub enum Call {
    /// On a matrix, as `coset_dft_batch`.
    Batch(Operation),
    /// On one column, as `coset_dft`.
    Vector(Operation),
    /// On a matrix over a vector space, as `coset_dft_algebra_batch`.
    AlgebraBatch(Operation),
    /// On one column over a vector space, as `coset_dft_algebra`.
    AlgebraVector(Operation),
    /// `coset_lde_batch_with_transform`.
    WithTransform,
    /// `coset_lde_batch_by_parts`.
    ByParts,
    /// `coset_lde_batch_bit_reversed`.
    BitReversed,
    /// `coset_lde_batch_with_blocks`.
    WithBlocks,
    /// `coset_lde_batch_in_blocks`.
    InBlocks,
    /// `coset_lde_batch_of_coefficients`.
    OfCoefficients,
    /// `coset_lde_batch_of_coefficients_bit_reversed`.
    OfCoefficientsBitReversed,
    /// `ReedSolomon::encode`.
    Encode,
    /// `ReedSolomon::is_codeword`.
    IsCodeword,
    /// `run_jobs`, of a list that its caller makes: `Engine::run_jobs`.
    RunJobs,
    /// `prepare`, of an engine that has it, at the height of the matrix.
    Prepare,
    /// `new`, of an engine that has it.
    New,
    /// `with_tile`, of an engine that has it, with a tile of a few rows.
    WithTile,
    /// `Recorder::with_room`, of as many blocks and elements as the matrix has rows.
    WithRoom,
    /// `RowMajorMatrix::try_clone`.
    TryClone,
}

/// All of them.
pub const CALLS: [Call; 39] = [
    Call::Batch(Operation::Dft),
    Call::Batch(Operation::CosetDft),
    Call::Batch(Operation::Idft),
    Call::Batch(Operation::CosetIdft),
    Call::Batch(Operation::Lde),
    Call::Batch(Operation::CosetLde),
    Call::Vector(Operation::Dft),
    Call::Vector(Operation::CosetDft),
    Call::Vector(Operation::Idft),
    Call::Vector(Operation::CosetIdft),
    Call::Vector(Operation::Lde),
    Call::Vector(Operation::CosetLde),
    Call::AlgebraBatch(Operation::Dft),
    Call::AlgebraBatch(Operation::CosetDft),
    Call::AlgebraBatch(Operation::Idft),
    Call::AlgebraBatch(Operation::CosetIdft),
    Call::AlgebraBatch(Operation::Lde),
    Call::AlgebraBatch(Operation::CosetLde),
    Call::AlgebraVector(Operation::Dft),
    Call::AlgebraVector(Operation::CosetDft),
    Call::AlgebraVector(Operation::Idft),
    Call::AlgebraVector(Operation::CosetIdft),
    Call::AlgebraVector(Operation::Lde),
    Call::AlgebraVector(Operation::CosetLde),
    Call::WithTransform,
    Call::ByParts,
    Call::BitReversed,
    Call::WithBlocks,
    Call::InBlocks,
    Call::OfCoefficients,
    Call::OfCoefficientsBitReversed,
    Call::Encode,
    Call::IsCodeword,
    Call::RunJobs,
    Call::Prepare,
    Call::New,
    Call::WithTile,
    Call::WithRoom,
    Call::TryClone,
];

impl Operation {
    pub fn word(self) -> &'static str {
        match self {
            Operation::Dft => "dft",
            Operation::CosetDft => "coset_dft",
            Operation::Idft => "idft",
            Operation::CosetIdft => "coset_idft",
            Operation::Lde => "lde",
            Operation::CosetLde => "coset_lde",
        }
    }

    /// Whether it is on the coset of a shift, and not on the subgroup.
    pub fn is_on_coset(self) -> bool {
        match self {
            Operation::CosetDft | Operation::CosetIdft | Operation::CosetLde => true,
            Operation::Dft | Operation::Idft | Operation::Lde => false,
        }
    }

    /// Whether it extends.
    pub fn extends(self) -> bool {
        match self {
            Operation::Lde | Operation::CosetLde => true,
            _ => false,
        }
    }

    /// Whether it answers coefficients.
    pub fn inverts(self) -> bool {
        match self {
            Operation::Idft | Operation::CosetIdft => true,
            _ => false,
        }
    }
}

impl Call {
    /// What it is made on, as a word: `alone` where it has one form.
    pub fn form(self) -> &'static str {
        match self {
            Call::Batch(_) => "batch",
            Call::Vector(_) => "vector",
            Call::AlgebraBatch(_) => "algebra_batch",
            Call::AlgebraVector(_) => "algebra",
            _ => "alone",
        }
    }

    /// What it does, as a word.
    pub fn word(self) -> &'static str {
        match self {
            Call::Batch(operation)
            | Call::Vector(operation)
            | Call::AlgebraBatch(operation)
            | Call::AlgebraVector(operation) => operation.word(),
            Call::WithTransform => "with_transform",
            Call::ByParts => "by_parts",
            Call::BitReversed => "bit_reversed",
            Call::WithBlocks => "with_blocks",
            Call::InBlocks => "in_blocks",
            Call::OfCoefficients => "of_coefficients",
            Call::OfCoefficientsBitReversed => "of_coefficients_bit_reversed",
            Call::Encode => "encode",
            Call::IsCodeword => "is_codeword",
            Call::RunJobs => "run_jobs",
            Call::Prepare => "prepare",
            Call::New => "new",
            Call::WithTile => "with_tile",
            Call::WithRoom => "with_room",
            Call::TryClone => "try_clone",
        }
    }

    /// The call of these words.
    pub fn of(form: &str, word: &str) -> Option<Call> {
        for call in CALLS {
            if call.form() == form && call.word() == word {
                return Some(call);
            }
        }
        None
    }

    /// What a call of four forms does.
    pub fn operation(self) -> Option<Operation> {
        match self {
            Call::Batch(operation)
            | Call::Vector(operation)
            | Call::AlgebraBatch(operation)
            | Call::AlgebraVector(operation) => Some(operation),
            _ => None,
        }
    }

    /// Whether it is made on one column.
    pub fn is_of_column(self) -> bool {
        match self {
            Call::Vector(_) | Call::AlgebraVector(_) => true,
            _ => false,
        }
    }
}
