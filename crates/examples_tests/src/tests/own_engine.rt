// The engine of one's own answers each call as `Radix2Bowers` does, which has bodies of its own.

use super::helpers::matrices::{matrix_of, sample};
use super::{FieldName, Topic, over};
use engine_calls::answers::{Answer, Input, answer_to};
use engine_calls::changes::Change;
use engine_calls::names::{CALLS, Call};
use examples::own_engine::NaturalToReversed;
use p3_dft::{
    CanonicalField, Layout, Radix2Bowers, RowMajorMatrix, TwoAdicField, TwoAdicSubgroupDft,
};
use std::alloc::Global;
use std::process::Abort;

// Heights, widths and added bits.
const SHAPES: [(usize, usize, usize); 4] = [(1, 1, 1), (4, 3, 0), (8, 1, 2), (16, 5, 3)];

fn input<F: TwoAdicField>(
    rt: &impl Abort,
    mat: &RowMajorMatrix<F>,
    added_bits: usize,
    shift: F,
    change: Change,
) -> Input<F> {
    Input {
        mat: mat.try_clone().expect(rt, "memory"),
        added_bits,
        shift,
        change,
    }
}

// Whether both are rows, and the same, or both tell the same.
fn are_same<F: TwoAdicField>(one: &Answer<F>, other: &Answer<F>) -> bool {
    match (one, other) {
        (Answer::Rows(one), Answer::Rows(other)) => *one == *other,
        (Answer::Holds(one), Answer::Holds(other)) => *one == *other,
        (Answer::Absent, Answer::Absent) => true,
        _ => false,
    }
}

fn assert_agreed<F: TwoAdicField>(
    rt: &impl Abort,
    call: Call,
    mat: &RowMajorMatrix<F>,
    added_bits: usize,
    shift: F,
    change: Change,
) {
    let mut own = NaturalToReversed::default();
    let answer = answer_to(&mut own, call, input(rt, mat, added_bits, shift, change));
    let mut bowers = Radix2Bowers::default();
    let expected = answer_to(&mut bowers, call, input(rt, mat, added_bits, shift, change));
    assert!(rt;
        are_same(&answer, &expected),
        "{} {}: wrong at {} rows of {}, {added_bits} added bits",
        call.form(),
        call.word(),
        mat.height(),
        mat.width()
    );
}

// A matrix of zeros of the same shape.
fn zeros_like<F: TwoAdicField>(rt: &impl Abort, mat: &RowMajorMatrix<F>) -> RowMajorMatrix<F> {
    let mut entries = Vec::new(*mat.allocator());
    for _entry in mat.values() {
        entries.push(F::ZERO).expect(rt, "memory");
    }
    matrix_of(rt, entries, mat.width())
}

// The shifts of the cosets on which both are compared.
fn shift<F: TwoAdicField>(n: u8) -> F {
    match n {
        0 => F::ZERO,
        1 => F::ONE,
        _ => F::GENERATOR,
    }
}

pub(crate) fn answers_agree<F: CanonicalField>(rt: &impl Abort, alloc: Global) {
    assert!(rt; <NaturalToReversed as TwoAdicSubgroupDft<F>>::LAYOUT == Layout::Natural);
    for (height, width, added_bits) in SHAPES {
        let mat: RowMajorMatrix<F> = sample(rt, alloc, height, width, 9);
        // A codeword.
        let zeros = zeros_like(rt, &mat);
        for call in CALLS {
            for n in 0..3u8 {
                let shift = shift::<F>(n);
                for change in [Change::Nothing, Change::Weighted, Change::Reversed] {
                    assert_agreed(rt, call, &mat, added_bits, shift, change);
                }
                assert_agreed(rt, call, &zeros, added_bits, shift, Change::Nothing);
            }
        }
    }
}

#[test]
fn an_engine_of_ones_own_answers_as_another(rt: HostRuntime) {
    over(&rt, rt.alloc(), FieldName::BabyBear, Topic::OwnEngine);
    over(&rt, rt.alloc(), FieldName::Goldilocks, Topic::OwnEngine);
}
