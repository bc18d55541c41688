//! The names of fields, engines and operations on the command line.

ghost use Rattle.std.specs.Prelude.{◌≡◌};
ghost use Rattle.dft_program.specs.Names.{field_named, engine_named, operation_named};

/// A field that has a name on the command line.
#[derive(Clone, Copy)]
pub enum FieldName {
    BabyBear,
    Goldilocks,
}

impl FieldName {
    /// The field of this name.
    pub fn of(word: &str) -> Option<FieldName>
        ensures { result ≡ field_named word.now }
    {
        match word {
            "babybear" => Some(FieldName::BabyBear),
            "goldilocks" => Some(FieldName::Goldilocks),
            _ => None,
        }
    }
}

/// An engine that has a name on the command line.
#[derive(Clone, Copy)]
pub enum EngineName {
    Naive,
    Dit,
    Bowers,
    Parallel,
    Small,
}

impl EngineName {
    /// The engine of this name.
    pub fn of(word: &str) -> Option<EngineName>
        ensures { result ≡ engine_named word.now }
    {
        match word {
            "naive" => Some(EngineName::Naive),
            "dit" => Some(EngineName::Dit),
            "bowers" => Some(EngineName::Bowers),
            "parallel" => Some(EngineName::Parallel),
            "small" => Some(EngineName::Small),
            _ => None,
        }
    }
}

/// An operation that has a name on the command line.
#[derive(Clone, Copy)]
pub enum Operation {
    Dft,
    CosetDft,
    Idft,
    CosetIdft,
    Lde,
    CosetLde,
}

impl Operation {
    /// The operation of this name.
    pub fn of(word: &str) -> Option<Operation>
        ensures { result ≡ operation_named word.now }
    {
        match word {
            "dft" => Some(Operation::Dft),
            "coset-dft" => Some(Operation::CosetDft),
            "idft" => Some(Operation::Idft),
            "coset-idft" => Some(Operation::CosetIdft),
            "lde" => Some(Operation::Lde),
            "coset-lde" => Some(Operation::CosetLde),
            _ => None,
        }
    }
}
