// Tests by the client that they are of.
//
// The numbers were worked out by another program. What is known of a concrete field is dear to prove, at each call that
// names it, so tests are generic over the field, and `over` names fields. Extension fields have one of their own.

mod by_parts;
mod clients;
mod extensions;
mod folding;
mod fri;
mod helpers;
mod opening;
mod own_engine;
mod product;
mod whole_rows;

use p3_dft::{BabyBear, CanonicalField, FieldOps, Goldilocks};
use std::alloc::Global;
use std::process::Abort;

#[derive(Clone, Copy)]
enum FieldName {
    BabyBear,
    Goldilocks,
}

// What is tested over a field.
#[derive(Clone, Copy)]
enum Topic<'a> {
    Roots,
    OneRoot,
    LowDegree,
    PublishedDegree(&'a [u64]),
    Texts,
    Foldings(&'a [folding::Case]),
    TwoFoldings,
    HonestQueries(&'a [fri::Case]),
    ChangedQueries(&'a [fri::Case]),
    Proofs(&'a [fri::Case]),
    OwnEngine,
    SmallProducts,
    LargeProducts,
    Parts(&'a [by_parts::Case]),
    WholeRows,
}

impl<'a> Topic<'a> {
    fn hold<F: CanonicalField + FieldOps>(self, rt: &impl Abort, alloc: Global) {
        match self {
            Topic::Roots => clients::roots_over::<F>(rt, alloc),
            Topic::OneRoot => clients::one_root_over::<F>(rt, alloc),
            Topic::LowDegree => clients::low_degrees_over::<F>(rt, alloc),
            Topic::PublishedDegree(numbers) => clients::published::<F>(rt, alloc, numbers),
            Topic::Texts => clients::texts_over::<F>(rt, alloc),
            Topic::Foldings(cases) => folding::foldings::<F>(rt, alloc, cases),
            Topic::TwoFoldings => folding::two_foldings_over::<F>(rt, alloc),
            Topic::HonestQueries(cases) => fri::honest_queries::<F>(rt, alloc, cases),
            Topic::ChangedQueries(cases) => fri::refused_queries::<F>(rt, alloc, cases),
            Topic::Proofs(cases) => fri::proofs_and_changes::<F>(rt, alloc, cases),
            Topic::OwnEngine => own_engine::answers_agree::<F>(rt, alloc),
            Topic::SmallProducts => product::small_products_of::<F>(rt, alloc),
            Topic::LargeProducts => product::large_products::<F>(rt, alloc),
            Topic::Parts(cases) => by_parts::each_number_of_parts::<F>(rt, alloc, cases),
            Topic::WholeRows => whole_rows::each_client::<F>(rt, alloc),
        }
    }
}

// Stops the test where a topic does not hold over a field.
fn over(rt: &impl Abort, alloc: Global, field: FieldName, topic: Topic) {
    match field {
        FieldName::BabyBear => topic.hold::<BabyBear>(rt, alloc),
        FieldName::Goldilocks => topic.hold::<Goldilocks>(rt, alloc),
    }
}
