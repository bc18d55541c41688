//! The words of the command line.

use crate::case::{Call, Calls, Case};
use crate::fault::Fault;

#[derive(Clone, Copy)]
pub enum FieldName {
    BabyBear,
    KoalaBear,
    Goldilocks,
}

impl FieldName {
    fn of(word: &str) -> Option<FieldName> {
        match word {
            "babybear" => Some(FieldName::BabyBear),
            "koalabear" => Some(FieldName::KoalaBear),
            "goldilocks" => Some(FieldName::Goldilocks),
            _ => None,
        }
    }
}

fn call_named(word: &str) -> Option<Call> {
    match word {
        "dft" => Some(Call::Dft),
        "idft" => Some(Call::Idft),
        "coset_lde" => Some(Call::CosetLde),
        _ => None,
    }
}

fn number(word: &str) -> Result<usize, Fault> {
    word.parse().ok().ok_or(Fault::NotANumber)
}

fn calls_of(word: &str) -> Result<Calls, Fault> {
    match word {
        "check" => Ok(Calls::Untimed),
        word => Ok(Calls::Timed(number(word)?)),
    }
}

/// A field and a case.
#[derive(Clone, Copy)]
pub struct Request {
    pub field: FieldName,
    pub case: Case,
}

impl Request {
    /// What the words ask for.
    pub fn of(words: &[String]) -> Result<Request, Fault> {
        let [field, call, log_height, width, added_bits, calls] = words else {
            return Err(Fault::Words);
        };
        let field = FieldName::of(field.as_str()).ok_or(Fault::UnknownField)?;
        let call = call_named(call.as_str()).ok_or(Fault::UnknownCall)?;
        let log_height = number(log_height.as_str())?;
        let width = number(width.as_str())?;
        let added_bits = number(added_bits.as_str())?;
        Ok(Request {
            field,
            case: Case {
                call,
                log_height,
                width,
                added_bits: call.added_bits(added_bits),
                calls: calls_of(calls.as_str())?,
            },
        })
    }
}
