//! The words of a case.

use crate::cases::Case;
use crate::memory::Before;
use engine_calls::names::{Call, EngineName};
use std::str;

#[derive(Clone, Copy)]
pub enum FieldName {
    BabyBear,
    Goldilocks,
}

impl FieldName {
    fn of(word: &str) -> Option<FieldName> {
        match word {
            "babybear" => Some(FieldName::BabyBear),
            "goldilocks" => Some(FieldName::Goldilocks),
            _ => None,
        }
    }
}

/// A case over a field on an engine, and what happens to memory before the call.
///
/// Its words are the names of the field and the engine, the form or `alone`, the name of the call, the
/// logarithm of the height, the added bits, the shift, the logarithm of the height that the engine is
/// prepared for first or `-`, and how many requests for memory come before the call, or `stop` to make all
/// ready and not call.
#[derive(Clone, Copy)]
pub struct Request {
    pub field: FieldName,
    pub engine: EngineName,
    pub case: Case,
    pub before: Before,
}

impl Request {
    /// That of a text.
    pub fn of(text: &[u8]) -> Option<Request> {
        let mut words = str::from_utf8(text).ok()?.split_whitespace();
        let field = FieldName::of(words.next()?)?;
        let engine = EngineName::of(words.next()?)?;
        let call = Call::of(words.next()?, words.next()?)?;
        let case = Case {
            call,
            log_h: words.next()?.parse().ok()?,
            added_bits: words.next()?.parse().ok()?,
            shift: words.next()?.parse().ok()?,
            prepared: words.next()?.parse().ok(),
        };
        let before = match words.next()?.parse() {
            Ok(times) => Before::Requests(times),
            Err(_) => Before::Stop,
        };
        Some(Request {
            field,
            engine,
            case,
            before,
        })
    }
}
