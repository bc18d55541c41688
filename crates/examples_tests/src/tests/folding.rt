// Foldings, in natural and in bit reversed order, as `vectors/folding.py` worked them out from the coefficients.

use super::helpers::matrices::{assert_rows, sample};
use super::{FieldName, Topic, over};
use examples::folding::{are_apart, fold, fold_twice};
use p3_dft::{CanonicalField, Field, Layout, RowMajorMatrix, TwoAdicField, fits_dft};
use std::alloc::Global;
use std::process::Abort;

// A folding of the matrix that `sample` makes, and its numbers.
pub(crate) struct Case {
    height: usize,
    width: usize,
    seed: u8,
    layout: Layout,
    shift: u64,
    beta: u64,
    folded: &'static [u64],
}

const OVER_BABY_BEAR: [Case; 10] = [
    Case {
        height: 2,
        width: 1,
        seed: 1,
        layout: Layout::Natural,
        shift: 3,
        beta: 5,
        folded: &[1213985697],
    },
    Case {
        height: 2,
        width: 3,
        seed: 2,
        layout: Layout::BitReversed,
        shift: 4,
        beta: 0,
        folded: &[710314216, 1066429889, 635176105],
    },
    Case {
        height: 4,
        width: 1,
        seed: 3,
        layout: Layout::Natural,
        shift: 5,
        beta: 1,
        folded: &[1100659942, 755024171],
    },
    Case {
        height: 4,
        width: 2,
        seed: 4,
        layout: Layout::BitReversed,
        shift: 6,
        beta: 77,
        folded: &[532269062, 1253102923, 1787422709, 1380112584],
    },
    Case {
        height: 8,
        width: 1,
        seed: 5,
        layout: Layout::Natural,
        shift: 7,
        beta: 1234567,
        folded: &[767160773, 739649055, 215497018, 659060526],
    },
    Case {
        height: 8,
        width: 3,
        seed: 6,
        layout: Layout::BitReversed,
        shift: 8,
        beta: 2013265920,
        folded: &[
            1828552354, 1594812604, 1589943025, 499678451, 816569493, 220218464, 1366347064,
            786792215, 1803530534, 460748317, 1625472370, 1259112746,
        ],
    },
    Case {
        height: 16,
        width: 1,
        seed: 7,
        layout: Layout::Natural,
        shift: 9,
        beta: 2,
        folded: &[
            287030848, 1487042423, 1926837721, 403074524, 622240708, 387330777, 1905542596,
            456967084,
        ],
    },
    Case {
        height: 16,
        width: 2,
        seed: 8,
        layout: Layout::BitReversed,
        shift: 10,
        beta: 0,
        folded: &[
            1997332762, 1623758780, 1106411456, 434702204, 298219750, 1370621070, 660791850,
            1010033163, 1794592914, 1725210521, 652853869, 1106448661, 1264391409, 1300964035,
            610402378, 1145687144,
        ],
    },
    Case {
        height: 32,
        width: 1,
        seed: 9,
        layout: Layout::Natural,
        shift: 11,
        beta: 31,
        folded: &[
            1623589698, 560599638, 1090731644, 128666821, 841577999, 1241893027, 1122557736,
            598884713, 294356877, 1927983782, 1233653820, 663622839, 1296208837, 824633882,
            724393580, 1916512999,
        ],
    },
    Case {
        height: 64,
        width: 1,
        seed: 10,
        layout: Layout::BitReversed,
        shift: 12,
        beta: 999,
        folded: &[
            729051225, 92556231, 903916903, 208594820, 987603289, 1333123864, 350445206,
            1206590652, 1353086567, 1211971728, 1231442278, 1381511670, 291310589, 1562510842,
            171650988, 1280879414, 1221811689, 713386644, 1478044320, 1212344497, 494008179,
            1336736093, 1113485069, 200353862, 936594195, 1897956131, 863921769, 27017097,
            460385867, 1600499099, 1412651660, 1171454656,
        ],
    },
];

const OVER_GOLDILOCKS: [Case; 10] = [
    Case {
        height: 2,
        width: 1,
        seed: 1,
        layout: Layout::BitReversed,
        shift: 3,
        beta: 5,
        folded: &[6148913766258700758],
    },
    Case {
        height: 2,
        width: 3,
        seed: 2,
        layout: Layout::Natural,
        shift: 4,
        beta: 0,
        folded: &[
            11827765141684509367,
            9569730512789584969,
            15476700549140576411,
        ],
    },
    Case {
        height: 4,
        width: 1,
        seed: 3,
        layout: Layout::BitReversed,
        shift: 5,
        beta: 1,
        folded: &[3324775832706, 13493910656955753850],
    },
    Case {
        height: 4,
        width: 2,
        seed: 4,
        layout: Layout::Natural,
        shift: 6,
        beta: 77,
        folded: &[
            11632134407061756307,
            17694239950409407082,
            11569589581253614246,
            5244845359244644460,
        ],
    },
    Case {
        height: 8,
        width: 1,
        seed: 5,
        layout: Layout::BitReversed,
        shift: 7,
        beta: 1234567,
        folded: &[
            11954630061982021141,
            1984085653463435334,
            16944167687307452611,
            142588859594399767,
        ],
    },
    Case {
        height: 8,
        width: 3,
        seed: 6,
        layout: Layout::Natural,
        shift: 8,
        beta: 18446744069414584320,
        folded: &[
            15385675016590606636,
            4554493379122931749,
            9681677286251102856,
            16071401316467947912,
            2387757613790919453,
            2105131472108455129,
            4163196312399132105,
            3571291743791879624,
            4219978189804527709,
            8351445955017526036,
            948725757999532116,
            7322783796875417054,
        ],
    },
    Case {
        height: 16,
        width: 1,
        seed: 7,
        layout: Layout::BitReversed,
        shift: 9,
        beta: 2,
        folded: &[
            17421932496762114400,
            460791817939943745,
            3553706106248174207,
            11393398402702475211,
            598729549222718996,
            18142466918844542889,
            15364002692022634742,
            10939027370501790468,
        ],
    },
    Case {
        height: 16,
        width: 2,
        seed: 8,
        layout: Layout::Natural,
        shift: 10,
        beta: 0,
        folded: &[
            15094299667349964413,
            4796371647377660406,
            3470084945751505635,
            17088055999689091177,
            563650401562238001,
            8781289958450048466,
            11623062963329853560,
            7486010886119431485,
            5778536880885824373,
            17808982324257812006,
            2858849594060879534,
            12286687652261964586,
            17889734993501258334,
            14718332286898630928,
            3484980781281630706,
            707918418506985707,
        ],
    },
    Case {
        height: 32,
        width: 1,
        seed: 9,
        layout: Layout::BitReversed,
        shift: 11,
        beta: 31,
        folded: &[
            1676954064709066187,
            15910366737476047795,
            13399841834876478699,
            516457157297019410,
            7275590827258726165,
            16784323130197433443,
            13446488747194948800,
            8502798226380347367,
            11177284377643358082,
            17379768740200379474,
            14345281954218940184,
            15920757588232110188,
            14483427750960977264,
            5001671449960460445,
            10685451047441603732,
            10600835742766863712,
        ],
    },
    Case {
        height: 64,
        width: 1,
        seed: 10,
        layout: Layout::Natural,
        shift: 12,
        beta: 999,
        folded: &[
            4626180211881337014,
            2495412772666095747,
            1762220149332754042,
            10196462320247425092,
            16106215141080292880,
            10632875765144436532,
            7943174657477309989,
            12608567506312360403,
            3973245944390555996,
            14275775774764567065,
            10973368260665852544,
            2196340387114254348,
            1488843981871055498,
            39419319360303177,
            14016343620204011932,
            17610823297881071059,
            7733319794356560007,
            14076924963725205178,
            907432860406133512,
            6103952282282808449,
            16136908891547068765,
            16566711953239639030,
            9651586138669353405,
            5132514163677720080,
            2583983369044201646,
            6361387749469467957,
            11524860868155702368,
            17546885587568771304,
            3097226716097435146,
            14112184978877539131,
            3327103397068237663,
            17330816333762846729,
        ],
    },
];

pub(crate) fn foldings<F: CanonicalField>(rt: &impl Abort, alloc: Global, cases: &[Case]) {
    for case in cases {
        let values: RowMajorMatrix<F> = sample(rt, alloc, case.height, case.width, case.seed);
        assert!(rt; fits_dft::<F>(values.height(), values.width()));
        assert!(rt; values.height() >= 2);
        let shift = F::from_u64(case.shift);
        assert!(rt; shift.try_inverse().is_some());
        let folded = fold(&values, case.layout, shift, F::from_u64(case.beta));
        assert_rows(rt, &folded.expect(rt, "memory"), case.folded, case.width);
    }
}

#[test]
fn foldings_over_baby_bear(rt: HostRuntime) {
    over(
        &rt,
        rt.alloc(),
        FieldName::BabyBear,
        Topic::Foldings(&OVER_BABY_BEAR),
    );
}

#[test]
fn foldings_over_goldilocks(rt: HostRuntime) {
    over(
        &rt,
        rt.alloc(),
        FieldName::Goldilocks,
        Topic::Foldings(&OVER_GOLDILOCKS),
    );
}

// The numbers of the foldings of eight rows by one and by zero.
const BY_ONE: [u64; 8] = [
    1377747368, 1846502390, 284432791, 1850925074, 1735957724, 1090894009, 549857859, 1332406166,
];

const BY_ZERO: [u64; 8] = [
    1289399068, 888378414, 366716219, 180045223, 1049611779, 933259860, 397088822, 1016511567,
];

pub(crate) fn two_foldings_over<F: CanonicalField>(rt: &impl Abort, alloc: Global) {
    let values: RowMajorMatrix<F> = sample(rt, alloc, 8, 2, 1);
    assert!(rt; fits_dft::<F>(values.height(), values.width()));
    assert!(rt; values.height() >= 2);
    let (one, zero) = (F::ONE, F::ZERO);
    assert!(rt; are_apart(one, zero));
    let (first, second) = fold_twice(&values, Layout::Natural, F::GENERATOR, one, zero).expect(
        rt, "memory",
    );
    assert_rows(rt, &first, &BY_ONE, 2);
    assert_rows(rt, &second, &BY_ZERO, 2);
}

#[test]
fn two_foldings(rt: HostRuntime) {
    over(&rt, rt.alloc(), FieldName::BabyBear, Topic::TwoFoldings);
}
