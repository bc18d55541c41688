// Commitments and queries of FRI, as `vectors/fri.py` worked them out from the coefficients, and what a verifier
// refuses.

use super::helpers::matrices::{assert_elements, assert_rows, sample};
use super::{FieldName, Topic, over};
use examples::fri::{
    Commitment, Layer, Opening, Parameters, QueryTranscript, Transcript, check, commit, open,
    verify,
};
use examples::merkle_paths::root_of_path;
use examples::merkle_root::{HornerHash, RowHash};
use p3_dft::{CanonicalField, Field, RowMajorMatrix, fits_dft};
use std::alloc::Global;
use std::process::Abort;

// A commitment to the matrix that `sample` makes, with the values of each codeword after it.
pub(crate) struct Case {
    log_height: usize,
    width: usize,
    seed: u8,
    shift: u64,
    roots: &'static [u64],
    challenges: &'static [u64],
    // Of the queries that are drawn.
    numbers: [usize; 3],
    folded: &'static [&'static [u64]],
}

const OVER_BABY_BEAR: [Case; 3] = [
    Case {
        log_height: 3,
        width: 1,
        seed: 1,
        shift: 3,
        roots: &[1067302451, 1515514765, 1260486041],
        challenges: &[1067302451, 376370089, 848363274],
        numbers: [3, 0, 0],
        folded: &[
            &[768367533, 1710940954, 493144649, 781820373],
            &[11563763, 1179539700],
            &[773110572],
        ],
    },
    Case {
        log_height: 4,
        width: 2,
        seed: 2,
        shift: 5,
        roots: &[959246646, 1753490611],
        challenges: &[959246646, 1291147822],
        numbers: [6, 6, 3],
        folded: &[
            &[
                1197593485, 1123537002, 1593242684, 1638020483, 1193418067, 829849844, 1019977255,
                555529181, 1288541558, 947083653, 2007553966, 963048509, 934238913, 1323153558,
                689517865, 1114527288,
            ],
            &[
                381187319, 974293879, 1057799968, 568269915, 55951900, 1668107962, 277502341,
                1957366154,
            ],
        ],
    },
    Case {
        log_height: 5,
        width: 1,
        seed: 3,
        shift: 1,
        roots: &[465276182, 86110938, 11881558, 1616986730],
        challenges: &[465276182, 416811133, 853431155, 1900895562],
        numbers: [0, 14, 12],
        folded: &[
            &[
                513045885, 271900476, 1128306507, 1402587331, 1667616873, 900058397, 1846541733,
                802857821, 1724729425, 518432362, 1098413924, 437740269, 1875503440, 201226953,
                1166227701, 1269330003,
            ],
            &[
                100857771, 1989643990, 1091416066, 531839537, 463708364, 568245085, 381499503,
                798910039,
            ],
            &[1738762994, 832137497, 1771105478, 871461170],
            &[461777527, 389591036],
        ],
    },
];

const OVER_GOLDILOCKS: [Case; 3] = [
    Case {
        log_height: 3,
        width: 1,
        seed: 1,
        shift: 3,
        roots: &[
            2071812107816883382,
            9800303569854611955,
            8016100350621714222,
        ],
        challenges: &[
            2071812107816883382,
            239502634519659513,
            15440682020731159125,
        ],
        numbers: [2, 0, 2],
        folded: &[
            &[
                11548706260501603879,
                17469898267636021551,
                3667470996286618011,
                15375130664986333469,
            ],
            &[10456674714856477037, 8606353624284712247],
            &[802854831413936379],
        ],
    },
    Case {
        log_height: 4,
        width: 2,
        seed: 2,
        shift: 5,
        roots: &[2201134578025857255, 15455589177629396169],
        challenges: &[2201134578025857255, 9903784818772633790],
        numbers: [3, 1, 6],
        folded: &[
            &[
                6568064190287180529,
                4365926313382596903,
                16551896140702168075,
                2552448470975331431,
                10395908743313353072,
                5025488266981091936,
                12770923639064380257,
                10313554214184123514,
                5523057941969417059,
                1072470636371243848,
                1860997576446704292,
                7493078506389537376,
                9506696834060779679,
                976137245256272688,
                14457541354549108715,
                17686497226232862974,
            ],
            &[
                11487004326720402953,
                5160848743199523727,
                12263405130521848250,
                1712781296984152034,
                4639387089736260027,
                15325764220787141946,
                17102614284875557999,
                12618337263899914078,
            ],
        ],
    },
    Case {
        log_height: 5,
        width: 1,
        seed: 3,
        shift: 1,
        roots: &[
            11706965784129015290,
            10765615515659440812,
            17903129259929100848,
            12831829895140402235,
        ],
        challenges: &[
            11706965784129015290,
            4746673435367228382,
            17476053200996506122,
            1187157043594562387,
        ],
        numbers: [9, 6, 6],
        folded: &[
            &[
                14014733388491047747,
                16530830921996633948,
                4526407300393429684,
                6212096637624519578,
                13478220396119042429,
                11488704073709011313,
                1756206200655709534,
                7701989884000754497,
                2401724070069360422,
                227532766859245947,
                16479195857442724282,
                8698524609799607967,
                4138877897411537027,
                10943134939354738770,
                18364208932300782123,
                4324643664043662563,
            ],
            &[
                710185851035727464,
                6608033754961558884,
                237982442282713486,
                14022891707559534440,
                3803558794283297065,
                9763105776882037098,
                17580919073449956772,
                14376203821214286508,
            ],
            &[
                7285395829889655290,
                3441610252734905160,
                16678078038910925324,
                13071706063220256304,
            ],
            &[15834757124469891315, 15134032768217689705],
        ],
    },
];

// Draws 31 times the challenge before plus the root.
#[derive(Drop)]
struct Sums<F> {
    last: F,
}

impl<F: Field> Transcript<F, F> for Sums<F> {
    ghost use Rattle.std.specs.Prelude.{◌≡◌};

    ghost draws = { λ before root challenge after. challenge ≡ after.last };

    fn draw(&mut self, root: F) -> F {
        self.last = self.last * F::from_u8(31) + root;
        self.last
    }
}

// Takes in an entry as a root, and draws what a one then gives, modulo the number of pairs.
impl<F: CanonicalField> QueryTranscript<F, F> for Sums<F> {
    ghost use Rattle.std.specs.Prelude.{⊤};

    ghost takes = { λ before last after. ⊤ };

    ghost draws_index = { λ before bits index after. ⊤ };

    fn take(&mut self, last: &RowMajorMatrix<F>) {
        for entry in last.values() {
            self.last = self.last * F::from_u8(31) + *entry;
        }
    }

    fn draw_index(&mut self, bits: usize) -> usize {
        self.last = self.last * F::from_u8(31) + F::ONE;
        self.last.as_canonical_u64() as usize % (1 << bits)
    }
}

fn hash<F: Field>() -> HornerHash<F> {
    HornerHash {
        base: F::from_u8(7),
    }
}

// The commitment of a case, with its numbers, and what is opened for a query.
fn opened<F: CanonicalField>(
    rt: &impl Abort,
    alloc: Global,
    case: &Case,
    index: usize,
) -> (Commitment<F, F>, Vec<Opening<F, F>>) {
    let log_height = case.log_height;
    let folds = case.roots.len();
    assert!(rt; log_height < 64 && folds <= log_height);
    let codeword: RowMajorMatrix<F> = sample(rt, alloc, 1 << log_height, case.width, case.seed);
    assert!(rt; fits_dft::<F>(codeword.height(), codeword.width()));
    assert!(rt; codeword.height() == 1 << log_height);
    let shift = F::from_u64(case.shift);
    assert!(rt; shift.try_inverse().is_some());
    let mut transcript = Sums { last: F::ZERO };
    let made = commit(&hash(), codeword, log_height, shift, folds, &mut transcript);
    let (layers, commitment) = made.expect(rt, "memory");
    assert!(rt; index < 1 << 32 && 2 * index < 1 << log_height);
    let openings = open::<F, HornerHash<F>>(alloc, &layers, log_height, index);
    for (layer, numbers) in layers.iter().skip(1).zip(case.folded) {
        assert_rows(rt, &layer.codeword, numbers, case.width);
    }
    (commitment, openings.expect(rt, "memory"))
}

// Whether a verifier with this commitment accepts the query.
fn is_accepted<F: CanonicalField>(
    rt: &impl Abort,
    commitment: &Commitment<F, F>,
    index: usize,
    openings: &[Opening<F, F>],
) -> bool {
    let log_height = commitment.log_height;
    let layers = commitment.roots.len();
    assert!(rt; log_height < 64 && log_height <= F::TWO_ADICITY && layers <= log_height);
    assert!(rt; commitment.challenges.len() == layers);
    assert!(rt; commitment.last.height() == 1 << (log_height - layers));
    assert!(rt; index < 1 << 32 && 2 * index < 1 << log_height);
    check(&hash(), commitment, index, openings)
}

pub(crate) fn honest_queries<F: CanonicalField>(rt: &impl Abort, alloc: Global, cases: &[Case]) {
    for case in cases {
        assert!(rt; 1 <= case.log_height && case.log_height < 32);
        for index in 0..1 << (case.log_height - 1) {
            let (commitment, openings) = opened::<F>(rt, alloc, case, index);
            assert!(rt; is_accepted(rt, &commitment, index, &openings));
            if let Some(last) = case.folded.last() {
                assert_rows(rt, &commitment.last, last, case.width);
            }
            assert_elements(rt, commitment.roots, case.roots);
            assert_elements(rt, commitment.challenges, case.challenges);
        }
    }
}

#[test]
fn honest_queries_are_accepted(rt: HostRuntime) {
    let topic = Topic::HonestQueries(&OVER_BABY_BEAR);
    over(&rt, rt.alloc(), FieldName::BabyBear, topic);
    let topic = Topic::HonestQueries(&OVER_GOLDILOCKS);
    over(&rt, rt.alloc(), FieldName::Goldilocks, topic);
}

// One thing that differs from an honest query.
#[derive(Clone, Copy)]
enum Change {
    Near,
    Far,
    Path,
    Root,
    RootOfAnother,
    Challenge,
    Last,
    Index,
    Count,
}

const CHANGES: [Change; 9] = [
    Change::Near,
    Change::Far,
    Change::Path,
    Change::Root,
    Change::RootOfAnother,
    Change::Challenge,
    Change::Last,
    Change::Index,
    Change::Count,
];

// Adds one to an element.
fn add_one<F: Field>(rt: &impl Abort, elements: &mut [F], i: usize) {
    assert!(rt; i < elements.len());
    elements[i] = elements[i] + F::ONE;
}

fn changed_queries<F: CanonicalField>(rt: &impl Abort, alloc: Global, case: &Case, layer: usize) {
    for what in CHANGES {
        let (mut commitment, mut openings) = opened::<F>(rt, alloc, case, 0);
        assert!(rt; layer < openings.len());
        let mut index = 0;
        match what {
            Change::Near => add_one(rt, openings[layer].pair.values_mut(), 0),
            Change::Far => add_one(rt, openings[layer].pair.values_mut(), case.width),
            Change::Path => add_one(rt, &mut openings[layer].path, 0),
            Change::Root => add_one(rt, &mut commitment.roots, layer),
            Change::RootOfAnother => {
                let another = (layer + 1) % openings.len();
                assert!(rt; commitment.roots.len() == openings.len());
                commitment.roots.swap(layer, another);
            }
            Change::Challenge => add_one(rt, &mut commitment.challenges, layer),
            Change::Last => add_one(rt, commitment.last.values_mut(), 0),
            Change::Index => index = 1,
            Change::Count => {
                openings.pop();
            }
        }
        assert!(rt; !is_accepted(rt, &commitment, index, &openings));
    }
}

// The rows of the second pair exchanged, with the root to which it then leads, and with the opposite challenge, so that
// it folds as before: what the first pair folds to is then in its other row.
fn exchanged_rows<F: CanonicalField>(rt: &impl Abort, alloc: Global, case: &Case) {
    let (mut commitment, mut openings) = opened::<F>(rt, alloc, case, 0);
    assert!(rt; case.log_height >= 2 && case.log_height < 64);
    let (roots, challenges) = (&mut commitment.roots, &mut commitment.challenges);
    assert!(rt; openings.len() >= 2 && roots.len() >= 2 && challenges.len() >= 2);
    let entries = openings[1].pair.values_mut();
    assert!(rt; entries.len() / 2 == case.width);
    for j in 0..case.width {
        entries.swap(j, case.width + j);
    }
    let leaf = hash().hash_row(entries);
    let node = 1 << (case.log_height - 2);
    roots[1] = root_of_path::<F, HornerHash<F>>(&hash(), node, leaf, &openings[1].path);
    challenges[1] = -challenges[1];
    assert!(rt; !is_accepted(rt, &commitment, 0, &openings));
}

pub(crate) fn refused_queries<F: CanonicalField>(rt: &impl Abort, alloc: Global, cases: &[Case]) {
    for case in cases {
        for layer in 0..2 {
            changed_queries::<F>(rt, alloc, case, layer);
        }
        exchanged_rows::<F>(rt, alloc, case);
    }
}

#[test]
fn changed_queries_are_refused(rt: HostRuntime) {
    let topic = Topic::ChangedQueries(&OVER_BABY_BEAR);
    over(&rt, rt.alloc(), FieldName::BabyBear, topic);
}

// What a prover sends.
#[derive(Drop)]
struct Proof<F> {
    parameters: Parameters<F>,
    commitment: Commitment<F, F>,
    queries: Vec<Vec<Opening<F, F>>>,
}

// The proof of a case, whose queries have the numbers that were worked out.
fn made_proof<F: CanonicalField>(rt: &impl Abort, alloc: Global, case: &Case) -> Proof<F> {
    let log_height = case.log_height;
    let folds = case.roots.len();
    assert!(rt; 1 <= log_height && log_height < 64 && folds <= log_height);
    let codeword: RowMajorMatrix<F> = sample(rt, alloc, 1 << log_height, case.width, case.seed);
    assert!(rt; fits_dft::<F>(codeword.height(), codeword.width()));
    assert!(rt; codeword.height() == 1 << log_height);
    let shift = F::from_u64(case.shift);
    assert!(rt; shift.try_inverse().is_some());
    let mut transcript = Sums { last: F::ZERO };
    let made = commit(&hash(), codeword, log_height, shift, folds, &mut transcript);
    let (layers, commitment) = made.expect(rt, "memory");
    transcript.take(&commitment.last);
    let mut queries = Vec::new(alloc);
    for number in case.numbers {
        let index = transcript.draw_index(log_height - 1);
        assert!(rt; index == number);
        assert!(rt; index < 1 << 32 && 2 * index < 1 << log_height);
        let openings = open::<F, HornerHash<F>>(alloc, &layers, log_height, index);
        queries
            .push(openings.expect(rt, "memory"))
            .expect(rt, "memory");
    }
    let parameters = Parameters {
        log_height,
        shift,
        queries: queries.len(),
    };
    Proof {
        parameters,
        commitment,
        queries,
    }
}

// What differs from an honest proof.
#[derive(Clone, Copy)]
enum ProofChange {
    Nothing,
    Root,
    RootMissing,
    Last,
    FirstQuery,
    LastQuery,
    Order,
    QueryMissing,
    MoreQueries,
    LargerHeight,
    NoHeight,
}

const PROOF_CHANGES: [ProofChange; 11] = [
    ProofChange::Nothing,
    ProofChange::Root,
    ProofChange::RootMissing,
    ProofChange::Last,
    ProofChange::FirstQuery,
    ProofChange::LastQuery,
    ProofChange::Order,
    ProofChange::QueryMissing,
    ProofChange::MoreQueries,
    ProofChange::LargerHeight,
    ProofChange::NoHeight,
];

// Adds one to an entry of the first pair.
fn change_pair<F: Field>(rt: &impl Abort, openings: &mut [Opening<F, F>]) {
    assert!(rt; openings.len() != 0);
    add_one(rt, openings[0].pair.values_mut(), 0);
}

fn assert_verdict<F: CanonicalField>(
    rt: &impl Abort,
    alloc: Global,
    case: &Case,
    change: ProofChange,
) {
    let Proof {
        mut parameters,
        mut commitment,
        mut queries,
    } = made_proof::<F>(rt, alloc, case);
    assert!(rt; queries.len() == 3);
    match change {
        ProofChange::Nothing => {}
        ProofChange::Root => add_one(rt, &mut commitment.roots, 0),
        ProofChange::RootMissing => {
            commitment.roots.pop();
        }
        ProofChange::Last => add_one(rt, commitment.last.values_mut(), 0),
        ProofChange::FirstQuery => change_pair(rt, &mut queries[0]),
        ProofChange::LastQuery => change_pair(rt, &mut queries[2]),
        ProofChange::Order => queries.swap(0, 2),
        ProofChange::QueryMissing => {
            queries.pop();
        }
        ProofChange::MoreQueries => parameters.queries = 4,
        ProofChange::LargerHeight => parameters.log_height = case.log_height.saturating_add(1),
        ProofChange::NoHeight => parameters.log_height = 0,
    }
    let Commitment { roots, last, .. } = commitment;
    let mut transcript = Sums { last: F::ZERO };
    let verdict = verify(&hash(), &mut transcript, parameters, roots, last, &queries);
    // Queries of one number may change places.
    let is_honest = match change {
        ProofChange::Nothing => true,
        ProofChange::Order => case.numbers[0] == case.numbers[2],
        _ => false,
    };
    assert!(rt; verdict.expect(rt, "memory") == is_honest);
}

pub(crate) fn proofs_and_changes<F: CanonicalField>(
    rt: &impl Abort,
    alloc: Global,
    cases: &[Case],
) {
    for case in cases {
        for change in PROOF_CHANGES {
            assert_verdict::<F>(rt, alloc, case, change);
        }
    }
}

#[test]
fn honest_proofs_are_verified_and_others_not(rt: HostRuntime) {
    let topic = Topic::Proofs(&OVER_BABY_BEAR);
    over(&rt, rt.alloc(), FieldName::BabyBear, topic);
    let topic = Topic::Proofs(&OVER_GOLDILOCKS);
    over(&rt, rt.alloc(), FieldName::Goldilocks, topic);
}
