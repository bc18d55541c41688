// Worked roots, values, numbers and texts of the clients in `examples`.
//
// The numbers were worked out by a program in Python from the definitions alone. Coefficient j of a column of n
// values is `sum(v[i] * g^(-i * j)) / n`, and row i of the extension has the values of these polynomials at
// `31 * h^i`, where g and h are powers of 440564289, whose order is 2^27. Leaf r is the digest of the row whose
// number has the digits of r in reverse, and neighbours are joined until one is left.

use super::helpers::matrices::{assert_rows, elements, matrix};
use super::{FieldName, Topic, over};
use examples::field_forms::{aligned_text_of, geometric_sum, line_at, text_of, total_of_squares};
use examples::low_degree::has_low_degree;
use examples::merkle_root::{HornerHash, merkle_root, roots_of_two};
use examples::published_degree::published_degree;
use p3_dft::{
    BabyBear, CanonicalField, Field, FieldOps, Goldilocks, NaiveDft, Radix2DitParallel,
    RowMajorMatrix, TwoAdicSubgroupDft, fits_dft, fits_lde, has_degree_below,
};
use std::alloc::Global;
use std::process::Abort;

// A matrix of the numbers from one on, and what comes of it.
#[derive(Clone, Copy)]
struct Worked {
    rows: u8,
    width: u8,
    added_bits: usize,
    base: u64,
    // The first and the last.
    leaves: (u64, u64),
    root: u64,
}

impl Worked {
    fn matrix<F: CanonicalField>(self, rt: &impl Abort, alloc: Global) -> RowMajorMatrix<F> {
        let mut entries = Vec::new(alloc);
        for n in 0..self.rows.saturating_mul(self.width) {
            entries.push(F::from_u8(n) + F::ONE).expect(rt, "memory");
        }
        let width = self.width as usize;
        assert!(rt; width != 0 && entries.len() % width == 0);
        RowMajorMatrix::new(entries, width)
    }

    fn hash<F: CanonicalField>(self) -> HornerHash<F> {
        HornerHash {
            base: F::from_u64(self.base),
        }
    }

    fn assert_on<F: CanonicalField, D: TwoAdicSubgroupDft<F>>(
        self,
        rt: &impl Abort,
        alloc: Global,
        engine: &mut D,
    ) {
        let mat: RowMajorMatrix<F> = self.matrix(rt, alloc);
        assert!(rt; fits_lde::<F>(mat.height(), mat.width(), self.added_bits));
        let made = merkle_root(engine, &self.hash(), mat, self.added_bits, F::GENERATOR);
        let made = made.expect(rt, "memory");
        let leaves = made.leaves.as_slice();
        assert!(rt; leaves.len() == made.rows.height());
        let (Some(first), Some(last)) = (leaves.first(), leaves.last()) else {
            panic!(rt; "no leaves");
        };
        assert!(rt; (first.as_canonical_u64(), last.as_canonical_u64()) == self.leaves);
        assert!(rt; made.root.as_canonical_u64() == self.root);
    }
}

const WORKED: [Worked; 2] = [
    Worked {
        rows: 4,
        width: 2,
        added_bits: 1,
        base: 7,
        leaves: (927955603, 758701637),
        root: 622993614,
    },
    Worked {
        rows: 4,
        width: 3,
        added_bits: 2,
        base: 1000003,
        leaves: (35417832, 362881735),
        root: 1990375518,
    },
];

// By the definition, in one block whose rows were in natural order, and in blocks of two rows.
pub(crate) fn roots_over<F: CanonicalField>(rt: &impl Abort, alloc: Global) {
    for worked in WORKED {
        worked.assert_on::<F, NaiveDft>(rt, alloc, &mut NaiveDft::default());
        let mut parallel: Radix2DitParallel<F> = Radix2DitParallel::default();
        worked.assert_on(rt, alloc, &mut parallel);
    }
}

#[test]
fn worked_roots(rt: HostRuntime) {
    over(&rt, rt.alloc(), FieldName::BabyBear, Topic::Roots);
}

// Of two engines.
pub(crate) fn one_root_over<F: CanonicalField>(rt: &impl Abort, alloc: Global) {
    for worked in WORKED {
        let mat: RowMajorMatrix<F> = worked.matrix(rt, alloc);
        assert!(rt; fits_lde::<F>(mat.height(), mat.width(), worked.added_bits));
        let mut parallel: Radix2DitParallel<F> = Radix2DitParallel::default();
        let roots = roots_of_two(
            &mut parallel,
            &mut NaiveDft::default(),
            &worked.hash(),
            mat,
            worked.added_bits,
            F::ONE,
        );
        let (one, other) = roots.expect(rt, "memory");
        assert!(rt; one == other);
    }
}

#[test]
fn one_root(rt: HostRuntime) {
    over(&rt, rt.alloc(), FieldName::BabyBear, Topic::OneRoot);
}

// Four values on a coset are those of a polynomial of degree below four, and these of none below two.
fn low_degrees<F: CanonicalField, D: TwoAdicSubgroupDft<F>>(rt: &impl Abort, alloc: Global) {
    let values: RowMajorMatrix<F> = matrix(rt, alloc, &[9, 873820294, 1, 0], 1);
    assert!(rt; fits_dft::<F>(values.height(), values.width()));
    assert!(rt; values.height() == 4);
    let shift = F::invertible_generator();
    let (told, engine) = has_low_degree(D::default(), &values, 2, shift);
    assert!(rt; told.expect(rt, "memory"));
    let (told, _engine) = has_low_degree(engine, &values, 1, shift);
    assert!(rt; !told.expect(rt, "memory"));
}

pub(crate) fn low_degrees_over<F: CanonicalField>(rt: &impl Abort, alloc: Global) {
    low_degrees::<F, NaiveDft>(rt, alloc);
    low_degrees::<F, Radix2DitParallel<F>>(rt, alloc);
}

#[test]
fn low_degrees_are_told(rt: HostRuntime) {
    over(&rt, rt.alloc(), FieldName::BabyBear, Topic::LowDegree);
    over(&rt, rt.alloc(), FieldName::Goldilocks, Topic::LowDegree);
}

// The columns are the values of 2 - x and 3 - x at 1 and -1, extended by one bit on the coset of the generator. Read as
// coefficients, the rows of the extension have degree below 4 and not below 3.
pub(crate) fn published<F: CanonicalField>(rt: &impl Abort, alloc: Global, numbers: &[u64]) {
    let mat: RowMajorMatrix<F> = matrix(rt, alloc, &[1, 2, 3, 4], 2);
    assert!(rt; fits_lde::<F>(mat.height(), mat.width(), 1));
    let shift = F::invertible_generator();
    let answer = published_degree(&mut Radix2DitParallel::default(), mat, 1, shift);
    let (kept, low) = answer.expect(rt, "memory");
    assert!(rt; low && has_degree_below(&kept, 4) && !has_degree_below(&kept, 3));
    assert_rows(rt, &kept, numbers, 2);
}

// At 31, 31 i, -31 and -31 i, where i = 1728404513 has the square -1 modulo `2^31 - 2^27 + 1`.
const PUBLISHED_OVER_BABY_BEAR: [u64; 8] = [
    2013265892, 2013265893, 777639966, 777639967, 33, 34, 1235625959, 1235625960,
];

// At 7, 7 i, -7 and -7 i, where i = `2^48` has the square -1 modulo `2^64 - 2^32 + 1`.
const PUBLISHED_OVER_GOLDILOCKS: [u64; 8] = [
    18446744069414584316,
    18446744069414584317,
    18444773744577609731,
    18444773744577609732,
    9,
    10,
    1970324836974594,
    1970324836974595,
];

#[test]
fn what_was_published_has_low_degree(rt: HostRuntime) {
    let topic = Topic::PublishedDegree(&PUBLISHED_OVER_BABY_BEAR);
    over(&rt, rt.alloc(), FieldName::BabyBear, topic);
    let topic = Topic::PublishedDegree(&PUBLISHED_OVER_GOLDILOCKS);
    over(&rt, rt.alloc(), FieldName::Goldilocks, topic);
}

pub(crate) fn texts_over<F: CanonicalField + FieldOps>(rt: &impl Abort, alloc: Global) {
    let pair: Vec<F> = elements(rt, alloc, &[9, 5]);
    assert!(rt; text_of(alloc, &pair).expect(rt, "memory").as_str() == "[9, 5]");
    let text = aligned_text_of(alloc, F::from_u8(7)).expect(rt, "memory");
    assert!(rt; text.as_str() == "       7");
}

// 3 * 5 + 2, 1 + 4 + 9, and 1 + 2 + 4 + 8 + 16.
#[test]
fn elements_have_the_worked_numbers_and_texts(rt: HostRuntime) {
    let alloc = rt.alloc();
    assert!(rt; line_at(Goldilocks::from_u8(5)) == Goldilocks::from_u8(17));
    let numbers = [1u8, 2, 3].map(|n: u8| -> BabyBear { BabyBear::from_u8(n) });
    assert!(rt; total_of_squares(&numbers) == BabyBear::from_u8(14));
    assert!(rt; geometric_sum(BabyBear::TWO, 5) == BabyBear::from_u8(31));
    over(&rt, alloc, FieldName::BabyBear, Topic::Texts);
    over(&rt, alloc, FieldName::Goldilocks, Topic::Texts);
}
