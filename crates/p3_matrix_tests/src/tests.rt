// What the tests share.
//
// What is known of a concrete field is dear to carry, call by call, and a body with many assertions takes
// long to prove. So tests are generic over the field, which `over` names, and most hand what they found to `is`. Beside
// it a field is named where lanes and coordinates are: that there is room for them is known of concrete ones alone.

ghost use Rattle.std.specs.Prelude.{◌≡◌, vec_len};

mod algebra;
mod bitrev;
mod butterflies;
mod dense;
mod error;
mod evaluations;
mod field_forms;
mod fields;
mod util;
mod vectors;
mod views;

use fields::Table;
use p3_field::{
    BabyBear, CanonicalField, FieldOps, Goldilocks, KoalaBear, WideBabyBear, WideGoldilocks,
    WideKoalaBear,
};
use std::alloc::Global;
use std::fmt::Debug;
use std::process::Abort;

#[derive(Clone, Copy)]
enum FieldName {
    BabyBear,
    KoalaBear,
    Goldilocks,
    WideBabyBear,
    WideKoalaBear,
    WideGoldilocks,
}

// What is tested over a field.
#[derive(Clone, Copy)]
enum Topic<'a> {
    OneDimension,
    PairsOfFive,
    PairAtARoot,
    ScaledButterfly,
    TwoButterflies,
    RowsOfButterflies,
    TwiddlesByPlace,
    Wraps,
    CountedRows,
    ScaledMatrices,
    Numbers(&'a Table<'a>),
    OneLane,
    PairsInPacks,
    Lanes(&'a [(usize, usize, u64, u64, u64)]),
    Forms(u64, u64, &'a str),
}

impl<'a> Topic<'a> {
    fn hold<F: CanonicalField + FieldOps>(self, rt: &impl Abort, alloc: Global) {
        match self {
            Topic::OneDimension => algebra::in_dimension_one::<F>(rt, alloc),
            Topic::PairsOfFive => butterflies::applies_to_pairs::<F>(rt),
            Topic::PairAtARoot => butterflies::applies_at_a_root::<F>(rt),
            Topic::ScaledButterfly => butterflies::reads::<F>(rt),
            Topic::TwoButterflies => butterflies::undo_up_to_factors::<F>(rt),
            Topic::RowsOfButterflies => butterflies::rows_of_butterflies::<F>(rt, alloc),
            Topic::TwiddlesByPlace => butterflies::rows_by_place::<F>(rt, alloc),
            Topic::Wraps => butterflies::wraps::<F>(rt, alloc),
            Topic::CountedRows => butterflies::counts::<F>(rt, alloc),
            Topic::ScaledMatrices => butterflies::scales::<F>(rt, alloc),
            Topic::Numbers(table) => fields::agrees::<F>(rt, table),
            Topic::OneLane => fields::one_lane::<F>(rt, alloc),
            Topic::PairsInPacks => fields::pairs_in_packs::<F>(rt, alloc),
            Topic::Lanes(table) => fields::lanes::<F>(rt, alloc, table),
            Topic::Forms(below, above, last) => {
                field_forms::agrees::<F>(rt, alloc, below, above, last)
            }
        }
    }
}

// Stops the test where a topic does not hold over a field.
fn over(rt: &impl Abort, alloc: Global, field: FieldName, topic: Topic) {
    match field {
        FieldName::BabyBear => topic.hold::<BabyBear>(rt, alloc),
        FieldName::KoalaBear => topic.hold::<KoalaBear>(rt, alloc),
        FieldName::Goldilocks => topic.hold::<Goldilocks>(rt, alloc),
        FieldName::WideBabyBear => topic.hold::<WideBabyBear>(rt, alloc),
        FieldName::WideKoalaBear => topic.hold::<WideKoalaBear>(rt, alloc),
        FieldName::WideGoldilocks => topic.hold::<WideGoldilocks>(rt, alloc),
    }
}

// Stops the test where two values differ, and prints both.
fn is<T: PartialEq + Debug + Drop>(rt: &impl Abort, found: T, wanted: T) {
    assert_eq!(rt; found, wanted);
}

// The bytes, which tests take for entries.
fn bytes(rt: &impl Abort, alloc: Global, entries: &[u8]) -> Vec<u8>
    ensures { result.items ≡ entries.now }
{
    let mut bytes = Vec::new(alloc);
    bytes.extend_from_slice(entries).expect(rt, "memory");
    bytes
}

// A row that begins with the element of one number and goes on in steps. A test stops where memory is refused.
fn row<F: CanonicalField>(
    rt: &impl Abort,
    alloc: Global,
    size: usize,
    first: usize,
    step: usize,
) -> Vec<F>
    ensures { vec_len result ≡ size }
{
    let mut row = vec![in alloc; F::ZERO; size].expect(rt, "memory");
    fill(
        row.as_mut_slice(),
        F::from_usize(first),
        F::from_usize(step),
    );
    row
}

fn fill<F: CanonicalField>(row: &mut [F], first: F, step: F) {
    let mut next = first;
    for x in row.iter_mut() {
        *x = next;
        next = next + step;
    }
}
