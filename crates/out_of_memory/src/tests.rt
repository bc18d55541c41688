// What every commit must show: extensions that no memory holds, and each call with too little memory for it.
//
// Each test has a process of its own. It takes all of the address space once, for good, in blocks that it
// never touches; then memory for a call is what it leaves free, from none up, until the call answers.

use crate::cases::{Case, Verdict, verdict_on};
use crate::jobs::{are_first_answers, three_jobs};
use crate::line::Line;
use crate::memory::{Memory, Plenty};
use engine_calls::answers::{Answer, Input};
use engine_calls::changes::Change;
use engine_calls::engines::Engine;
use engine_calls::names::{CALLS, Call, ENGINES, EngineName, Operation, Tables};
use p3_dft::{
    BabyBear, CanonicalField, DftError, Field, Goldilocks, JobsStopped, KoalaBear,
    Radix2DFTSmallBatch, RowMajorMatrix, TwoAdicField, WideBabyBear, WideGoldilocks,
};
use std::alloc::Global;
use std::process::Abort;

// Some of the engines.
#[derive(Clone, Copy)]
enum Engines {
    All,
    Fast,
    BySums,
}

impl Engines {
    fn has(self, engine: EngineName) -> bool {
        match self {
            Engines::All => true,
            Engines::Fast => engine.is_fast(),
            Engines::BySums => !engine.is_fast(),
        }
    }
}

// Shapes of a column: the logarithm of its height, the bits that are added, and the shift.
const SHAPES: [(usize, usize, usize); 3] = [(1, 1, 2), (3, 2, 0), (4, 1, 3)];

// Shapes for the engine that works by sums, and for the others.
const SHAPES_OF_SUMS: [(usize, usize, usize); 2] = [(12, 0, 3), (2, 8, 3)];

const LARGE_SHAPES: [(usize, usize, usize); 3] = [(12, 1, 2), (17, 1, 3), (4, 8, 0)];

// Some calls at the largest height for each: transforms, and those that make tables or have their own extensions.
const CALLS_AT_LARGEST: [Call; 8] = [
    Call::Batch(Operation::CosetDft),
    Call::Batch(Operation::CosetIdft),
    Call::Batch(Operation::CosetLde),
    Call::WithBlocks,
    Call::OfCoefficients,
    Call::Prepare,
    Call::New,
    Call::RunJobs,
];

const LARGEST_SHAPE: [(usize, usize, usize); 1] = [(20, 0, 3)];

const LARGEST_SHAPE_OF_SUMS: [(usize, usize, usize); 1] = [(14, 0, 3)];

// A shape past a pack of sixteen lanes.
const SHAPE_IN_PACKS: [(usize, usize, usize); 1] = [(6, 1, 3)];

// Room for what is held while a call is made.
const MOST_BLOCKS: usize = 20000;

// Blocks that are taken before a call and given back afterwards, whether small ones are among them, and how many bytes
// are left free.
#[derive(Drop)]
struct Scarce {
    held: Vec<Vec<u8>>,
    small: bool,
    left: usize,
}

impl Scarce {
    // What is free while a call is made is the rest of a block of so many bytes.
    fn spare(&self) -> usize {
        if self.small { 4096 } else { 16384 }
    }

    // Takes a block, if there is one of this size.
    fn take(&mut self, alloc: Global, size: usize) -> bool {
        if self.held.len() >= self.held.capacity() {
            return false;
        }
        match Vec::with_capacity(alloc, size) {
            Ok(block) => self.held.push(block).is_ok(),
            Err(_) => false,
        }
    }

    // Takes all blocks of this size.
    fn take_all_of(&mut self, alloc: Global, size: usize) {
        for _n in 0..MOST_BLOCKS {
            if !self.take(alloc, size) {
                break;
            }
        }
    }

    // Takes what there is, large blocks first. An allocator may keep apart what was freed of each small
    // size, so that each is tried.
    fn take_rest(&mut self, alloc: Global) {
        for n in 0..6usize {
            self.take_all_of(alloc, 65536 >> n);
        }
        if self.small {
            for n in 0..64usize {
                self.take_all_of(alloc, 1032 - 16 * n);
            }
        }
    }
}

impl Memory for Scarce {
    fn strain(&mut self, alloc: Global) -> bool {
        let Ok(spare) = Vec::<u8>::with_capacity(alloc, self.spare()) else {
            return false;
        };
        self.take_rest(alloc);
        drop(spare);
        self.take(alloc, self.spare().saturating_sub(self.left))
    }

    fn relieve(&mut self) {
        self.held.clear();
    }
}

// Takes blocks of a size for good, up to so many. Answers whether there are no more of them.
fn take_for_good(alloc: Global, size: usize, most: usize) -> bool {
    for _n in 0..most {
        match Vec::<u8>::with_capacity(alloc, size) {
            Ok(block) => {
                let _ = block.leak();
            }
            Err(_) => return true,
        }
    }
    false
}

// What a test needs beside: 64 blocks of this size.
fn kept(rt: &impl Abort, alloc: Global, size: usize) -> Vec<Vec<u8>> {
    let mut kept = Vec::new(alloc);
    for _n in 0..64usize {
        let block = Vec::with_capacity(alloc, size).expect(rt, "memory");
        kept.push(block).expect(rt, "memory");
    }
    kept
}

// What a test needs where small blocks are among those that are taken: those that were freed stay apart, and need more.
const ROOM_BY_SMALL_BLOCKS: usize = 100000;

// Takes all memory for good, but for 64 blocks of a size that a test needs, and answers what makes that scarce. None
// where small blocks have memory of their own beside the address space that a process can get: so it is in a process
// that looks for misuse of memory, where nothing can be shown in this way.
fn scarce_memory(rt: &impl Abort, alloc: Global, small: bool, size: usize) -> Option<Scarce> {
    let held = Vec::with_capacity(alloc, MOST_BLOCKS).expect(rt, "memory");
    let kept = kept(rt, alloc, size);
    for n in 0..27usize {
        assert!(rt; take_for_good(alloc, (1 << 46) >> n, 200000));
    }
    if !take_for_good(alloc, 65536, 20000) {
        return None;
    }
    for n in 1..16usize {
        assert!(rt; take_for_good(alloc, 65536 >> n, 20000));
    }
    drop(kept);
    Some(Scarce {
        held,
        small,
        left: 0,
    })
}

// How much is left free for the n-th try of a call: nothing, and then from what an allocator hands out at
// least.
fn left_free(n: usize) -> usize {
    if n == 0 {
        0
    } else {
        n.saturating_mul(16).saturating_add(16)
    }
}

// More tries than a call makes requests.
const MOST_TRIES: usize = 200;

// Makes a call with nothing left free, and with more and more until it answers; then once more with enough, where an
// engine that met a refusal on its way, and kept it, would give it out. Counts how often memory was refused.
fn sweep<F: TwoAdicField>(
    alloc: Global,
    scarce: &mut Scarce,
    name: EngineName,
    case: Case,
) -> (Verdict, usize) {
    let mut refused = 0usize;
    for n in 0..MOST_TRIES {
        scarce.left = left_free(n);
        let mut engine: Engine<F> = Engine::new(name);
        match verdict_on(alloc, scarce, &mut engine, case) {
            Verdict::RefusedFirst => refused = refused.saturating_add(1),
            Verdict::Answered => {
                return (verdict_on(alloc, &mut Plenty, &mut engine, case), refused);
            }
            verdict => return (verdict, refused),
        }
    }
    (Verdict::RefusedFirst, refused)
}

// Calls that are made again and again: on which engines, the logarithm of the height, and how often, so that what they
// were passed would fill the memory twice over.
#[derive(Clone, Copy)]
struct Repeated {
    engines: Engines,
    log_h: usize,
    times: usize,
}

// In memory of 256 kilobytes, elements of eight bytes.
const REPEATED: [Repeated; 2] = [
    Repeated {
        engines: Engines::Fast,
        log_h: 9,
        times: 128,
    },
    Repeated {
        engines: Engines::BySums,
        log_h: 8,
        times: 128,
    },
];

const ROOM: usize = 4000;

// In memory of 512 kilobytes, elements of four bytes or of eight.
const REPEATED_AT_LARGER_HEIGHTS: [Repeated; 1] = [Repeated {
    engines: Engines::Fast,
    log_h: 11,
    times: 64,
}];

const ROOM_AT_LARGER_HEIGHTS: usize = 8000;

// Makes a call again and again, by a new engine and by one that goes on: with too little memory, of four amounts in
// turn, and with enough. Were what it was passed kept, there would soon be no memory for the next. Counts how often
// memory was refused.
fn repeat<F: TwoAdicField>(
    alloc: Global,
    scarce: &mut Scarce,
    name: EngineName,
    case: Case,
    times: usize,
) -> (Verdict, usize) {
    let mut refused = 0usize;
    let mut engine: Engine<F> = Engine::new(name);
    for n in 0..times {
        scarce.left = n % 4 * 4096;
        match verdict_on(alloc, scarce, &mut Engine::<F>::new(name), case) {
            Verdict::Answered => {}
            Verdict::RefusedFirst => refused = refused.saturating_add(1),
            verdict => return (verdict, refused),
        }
        match verdict_on(alloc, scarce, &mut engine, case) {
            Verdict::Answered | Verdict::RefusedFirst => {}
            verdict => return (verdict, refused),
        }
    }
    (Verdict::Answered, refused)
}

// Whether a call takes memory whatever the engine has: an extension is larger than its input.
fn always_takes_memory(call: Call) -> bool {
    match call {
        Call::Prepare | Call::New | Call::WithTile => false,
        Call::Batch(operation) | Call::Vector(operation) => operation.extends(),
        _ => true,
    }
}

// Whether an engine that has the tables of a height transforms there without memory.
fn goes_by_tables(engine: EngineName, operation: Operation) -> bool {
    match engine.facts().tables {
        None => false,
        Some(Tables::OfHeights) => !operation.extends(),
        Some(Tables::OfHeightsAndCosets) => {
            !operation.extends() && operation != Operation::CosetDft
        }
    }
}

// Whether a case's call is promised to answer, however little memory there is.
fn is_promised(engine: EngineName, case: Case) -> bool {
    match case.call {
        Call::Batch(operation) | Call::Vector(operation) => {
            case.prepared.is_some() && goes_by_tables(engine, operation)
        }
        _ => false,
    }
}

// Calls at each shape, on new engines and on such as have the tables.
fn cases(
    rt: &impl Abort,
    alloc: Global,
    calls: &[Call],
    shapes: &[(usize, usize, usize)],
) -> Vec<Case> {
    let mut cases = Vec::new(alloc);
    for call in calls {
        for (log_h, added_bits, shift) in shapes {
            for prepared in [None, Some(*log_h)] {
                let case = Case {
                    call: *call,
                    log_h: *log_h,
                    added_bits: *added_bits,
                    shift: *shift,
                    prepared,
                };
                cases.push(case).expect(rt, "memory");
            }
        }
    }
    cases
}

// Stops the test unless the call answered in the end, or the engine has no such call; and where memory was refused
// more or less often than it can be.
fn assert_answered(
    rt: &impl Abort,
    engine: EngineName,
    case: Case,
    verdict: Verdict,
    refused_as_promised: bool,
) {
    let text = verdict.text();
    let answered = verdict == Verdict::Answered || verdict == Verdict::Absent;
    assert!(rt;
        answered && refused_as_promised,
        "{} {} on {}: {text}; 2^{} rows, {} added bits, shift {}, refused as promised: {refused_as_promised}",
        case.call.form(),
        case.call.word(),
        engine.word(),
        case.log_h,
        case.added_bits,
        case.shift
    );
}

// Calls at some shapes with enough memory.
fn answer_all<F: TwoAdicField>(
    rt: &impl Abort,
    alloc: Global,
    engines: Engines,
    calls: &[Call],
    shapes: &[(usize, usize, usize)],
) {
    for case in cases(rt, alloc, calls, shapes) {
        for name in ENGINES {
            if engines.has(name) {
                let mut engine: Engine<F> = Engine::new(name);
                let verdict = verdict_on(alloc, &mut Plenty, &mut engine, case);
                assert_answered(rt, name, case, verdict, true);
            }
        }
    }
}

// Each case with too little memory: promised calls answer with none. Answers how often memory was refused.
fn are_refused<F: TwoAdicField>(
    rt: &impl Abort,
    alloc: Global,
    cases: &[Case],
    scarce: &mut Scarce,
) -> usize {
    let mut refused = 0usize;
    for engine in ENGINES {
        for case in cases {
            let (verdict, times) = sweep::<F>(alloc, scarce, engine, *case);
            let free = verdict == Verdict::Absent || !always_takes_memory(case.call);
            let right = (times > 0 || free) && (times == 0 || !is_promised(engine, *case));
            assert_answered(rt, engine, *case, verdict, right);
            refused = refused.saturating_add(times);
        }
    }
    refused
}

// The case of a transform of four rows.
const FOUR_ROWS: Case = Case {
    call: Call::Batch(Operation::Dft),
    log_h: 2,
    added_bits: 0,
    shift: 1,
    prepared: None,
};

// A row of 2^21 entries and its extension by 24 bits, of 2^45 entries: in four bytes each they are more than
// a process can address. Then the engine answers another call.
fn grow<F: TwoAdicField>(rt: &impl Abort, alloc: Global) {
    for name in ENGINES {
        let mut engine: Engine<F> = Engine::new(name);
        let mut entries = Vec::<F>::new(alloc);
        entries.resize(1 << 21, F::ONE).expect(rt, "memory");
        assert!(rt; !entries.is_empty());
        let input = Input {
            mat: RowMajorMatrix::new_row(entries),
            added_bits: 24,
            shift: F::ONE,
            change: Change::Nothing,
        };
        let answer = engine.answer(Call::Batch(Operation::CosetLde), input);
        assert!(rt; matches!(&answer, Answer::OutOfMemory));
        let verdict = verdict_on(alloc, &mut Plenty, &mut engine, FOUR_ROWS);
        assert_answered(rt, name, FOUR_ROWS, verdict, true);
    }
}

// Every call on every engine with every amount of memory up to one that is enough.
fn sweep_all<F: TwoAdicField>(rt: &impl Abort, alloc: Global) {
    answer_all::<F>(rt, alloc, Engines::All, &CALLS, &SHAPES);
    let cases = cases(rt, alloc, &CALLS, &SHAPES);
    if let Some(mut scarce) = scarce_memory(rt, alloc, true, ROOM_BY_SMALL_BLOCKS) {
        let refused = are_refused::<F>(rt, alloc, cases.as_slice(), &mut scarce);
        assert!(rt; refused > 5000);
    }
}

// Every call on some engines again and again.
fn repeat_all<F: TwoAdicField>(
    rt: &impl Abort,
    alloc: Global,
    scarce: &mut Scarce,
    repeated: Repeated,
) {
    let cases = cases(rt, alloc, &CALLS, &[(repeated.log_h, 1, 3)]);
    for engine in ENGINES {
        if repeated.engines.has(engine) {
            for case in cases.as_slice() {
                let (verdict, refused) = repeat::<F>(alloc, scarce, engine, *case, repeated.times);
                let free = verdict == Verdict::Absent || !always_takes_memory(case.call);
                assert_answered(rt, engine, *case, verdict, refused > 0 || free);
            }
        }
    }
}

// What is passed is given back, whether a call answers or is refused memory, of which there are 64 blocks of a size.
fn give_back<F: TwoAdicField>(rt: &impl Abort, alloc: Global, calls: &[Repeated], size: usize) {
    if let Some(mut scarce) = scarce_memory(rt, alloc, false, size) {
        for repeated in calls {
            repeat_all::<F>(rt, alloc, &mut scarce, *repeated);
        }
    }
}

// An engine that was made for height `2^log_h`.
fn made_for<F: TwoAdicField>(rt: &impl Abort, alloc: Global, log_h: usize) -> Engine<F> {
    assert!(rt; log_h <= F::TWO_ADICITY && log_h <= 63);
    let engine = Radix2DFTSmallBatch::new(alloc, 1 << log_h);
    Engine::Small(engine.expect(rt, "memory"))
}

// An engine that was made for height 8, and to which height 32 is refused, transforms eight rows while no memory is
// given.
fn keep_tables<F: TwoAdicField>(rt: &impl Abort, alloc: Global, scarce: &mut Scarce) {
    let mut engine: Engine<F> = made_for(rt, alloc, 3);
    let line = Line::new(3);
    let coefficients = line.coefficients(alloc, 3).expect(rt, "memory");
    let input = Input {
        mat: RowMajorMatrix::new_col(coefficients),
        added_bits: 0,
        shift: F::ONE,
        change: Change::Nothing,
    };
    scarce.left = 0;
    assert!(rt; scarce.strain(alloc));
    let larger = engine.prepare(alloc, 5);
    let answer = engine.answer(Call::Batch(Operation::Dft), input);
    scarce.relieve();
    assert!(rt; matches!(&larger, Some(Err(DftError::OutOfMemory))));
    let Answer::Rows(values) = answer else {
        panic!(rt; "memory was taken");
    };
    assert!(rt; line.has_values(values.values(), 3, F::ONE));
}

// The jobs of three worked rows: how many were answered with so much left free.
fn answers_within<F: TwoAdicField>(
    rt: &impl Abort,
    alloc: Global,
    scarce: &mut Scarce,
    left: usize,
) -> usize {
    let case = Case {
        call: Call::RunJobs,
        log_h: 1,
        added_bits: 1,
        shift: 2,
        prepared: None,
    };
    let jobs = three_jobs::<F>(alloc, case, 64).expect(rt, "memory");
    let mut engine: Engine<F> = Engine::new(EngineName::Naive);
    scarce.left = left;
    assert!(rt; scarce.strain(alloc));
    let answer = engine.run_jobs(jobs);
    scarce.relieve();
    let answers = match answer {
        Ok(answers) => {
            assert!(rt; answers.len() == 3);
            answers
        }
        Err(
            JobsStopped {
                answers,
                error: DftError::OutOfMemory,
            },
        ) => {
            assert!(rt; answers.len() < 3);
            answers
        }
    };
    assert!(rt; are_first_answers(case, answers.as_slice()));
    answers.len()
}

// Nothing left free refuses the list of answers. With more and more the second job is refused, since what the
// first frees is too large a block for it, and then none.
fn stop_within_list<F: TwoAdicField>(rt: &impl Abort, alloc: Global, scarce: &mut Scarce) {
    assert!(rt; answers_within::<F>(rt, alloc, scarce, 0) == 0);
    let mut seen = [false; 4];
    for n in 0..MOST_TRIES {
        let answers = answers_within::<F>(rt, alloc, scarce, left_free(n));
        if answers < 4 {
            seen[answers] = true;
        }
    }
    assert!(rt; seen[0] && seen[1] && seen[3]);
}

fn keep_rows<F: TwoAdicField>(rt: &impl Abort, alloc: Global) {
    if let Some(mut scarce) = scarce_memory(rt, alloc, true, ROOM_BY_SMALL_BLOCKS) {
        keep_tables::<F>(rt, alloc, &mut scarce);
        stop_within_list::<F>(rt, alloc, &mut scarce);
    }
}

// Stops the test where a list is not that of the elements with these numbers.
fn assert_numbers<F: CanonicalField>(rt: &impl Abort, found: &[F], numbers: &[u64]) {
    assert!(rt; found.len() == numbers.len());
    for (element, number) in found.iter().zip(numbers) {
        assert!(rt; element.as_canonical_u64() == *number);
    }
}

// The polynomial has the coefficients and values that were worked out by hand.
fn work_rows<F: CanonicalField>(rt: &impl Abort, alloc: Global) {
    let line = Line::<F>::new(1);
    let coefficients = line.coefficients(alloc, 1).expect(rt, "memory");
    assert_numbers(rt, coefficients.as_slice(), &[5, 4]);
    let values = line.values(alloc, 1, F::ONE).expect(rt, "memory");
    assert_numbers(rt, values.as_slice(), &[9, 1]);
    let values = line.values(alloc, 1, F::TWO).expect(rt, "memory");
    assert_numbers(rt, values.as_slice(), &[13, 2013265918]);
    let values = line.values(alloc, 2, F::ONE).expect(rt, "memory");
    assert_numbers(rt, values.as_slice(), &[9, 873820294, 1, 1139445637]);
    let values = line.values(alloc, 2, F::ZERO).expect(rt, "memory");
    assert_numbers(rt, values.as_slice(), &[5, 5, 5, 5]);
    assert!(rt; !line.has_values(values.as_slice(), 2, F::ONE));
    assert!(rt; !line.has_coefficients(values.as_slice(), 2));
}

// What is shown over a field.
#[derive(Clone, Copy)]
enum Topic<'a> {
    WorkedRows,
    AboveAllMemory,
    TooLittleMemory,
    AfterARefusal,
    GivenBack(&'a [Repeated], usize),
    Answers(Engines, &'a [Call], &'a [(usize, usize, usize)]),
}

impl<'a> Topic<'a> {
    fn hold<F: CanonicalField>(self, rt: &impl Abort, alloc: Global) {
        match self {
            Topic::WorkedRows => work_rows::<F>(rt, alloc),
            Topic::AboveAllMemory => grow::<F>(rt, alloc),
            Topic::TooLittleMemory => sweep_all::<F>(rt, alloc),
            Topic::AfterARefusal => keep_rows::<F>(rt, alloc),
            Topic::GivenBack(calls, size) => give_back::<F>(rt, alloc, calls, size),
            Topic::Answers(engines, calls, shapes) => {
                answer_all::<F>(rt, alloc, engines, calls, shapes)
            }
        }
    }
}

// What is known of a concrete field is dear to prove, at each call that names it: so each is named once.
fn over_baby_bear(rt: &impl Abort, alloc: Global, topic: Topic) {
    topic.hold::<BabyBear>(rt, alloc);
}

fn over_koala_bear(rt: &impl Abort, alloc: Global, topic: Topic) {
    topic.hold::<KoalaBear>(rt, alloc);
}

fn over_goldilocks(rt: &impl Abort, alloc: Global, topic: Topic) {
    topic.hold::<Goldilocks>(rt, alloc);
}

fn over_wide_baby_bear(rt: &impl Abort, alloc: Global, topic: Topic) {
    topic.hold::<WideBabyBear>(rt, alloc);
}

fn over_wide_goldilocks(rt: &impl Abort, alloc: Global, topic: Topic) {
    topic.hold::<WideGoldilocks>(rt, alloc);
}

#[test]
fn calls_answer_their_worked_rows(rt: HostRuntime) {
    over_baby_bear(&rt, rt.alloc(), Topic::WorkedRows);
}

#[test]
fn an_extension_above_all_memory_is_refused(rt: HostRuntime) {
    over_baby_bear(&rt, rt.alloc(), Topic::AboveAllMemory);
}

#[test]
fn every_call_answers_or_refuses_with_too_little_memory(rt: HostRuntime) {
    over_baby_bear(&rt, rt.alloc(), Topic::TooLittleMemory);
}

#[test]
fn tables_and_answers_stay_after_a_refusal(rt: HostRuntime) {
    over_baby_bear(&rt, rt.alloc(), Topic::AfterARefusal);
}

#[test]
fn what_is_passed_is_given_back(rt: HostRuntime) {
    over_goldilocks(&rt, rt.alloc(), Topic::GivenBack(&REPEATED, ROOM));
}

// Over fields whose packs are vectors, which have a pass of their own through all code that goes by packs.
#[test]
fn what_is_passed_is_given_back_at_larger_heights_over_wide_baby_bear(rt: HostRuntime) {
    let topic = Topic::GivenBack(&REPEATED_AT_LARGER_HEIGHTS, ROOM_AT_LARGER_HEIGHTS);
    over_wide_baby_bear(&rt, rt.alloc(), topic);
}

#[test]
fn what_is_passed_is_given_back_at_larger_heights_over_wide_goldilocks(rt: HostRuntime) {
    let topic = Topic::GivenBack(&REPEATED_AT_LARGER_HEIGHTS, ROOM_AT_LARGER_HEIGHTS);
    over_wide_goldilocks(&rt, rt.alloc(), topic);
}

#[test]
fn calls_answer_past_a_pack_over_wide_fields(rt: HostRuntime) {
    let topic = Topic::Answers(Engines::All, &CALLS, &SHAPE_IN_PACKS);
    over_wide_baby_bear(&rt, rt.alloc(), topic);
    over_wide_goldilocks(&rt, rt.alloc(), topic);
}

// Tables of 2^20 rows, and sums of 2^14 terms.
#[test]
fn calls_answer_at_the_largest_shapes(rt: HostRuntime) {
    let sums = Topic::Answers(
        Engines::BySums,
        &[Call::Batch(Operation::CosetDft)],
        &LARGEST_SHAPE_OF_SUMS,
    );
    over_baby_bear(&rt, rt.alloc(), sums);
    let fast = Topic::Answers(Engines::Fast, &CALLS_AT_LARGEST, &LARGEST_SHAPE);
    over_baby_bear(&rt, rt.alloc(), fast);
}

#[test]
fn calls_answer_at_large_shapes_over_baby_bear(rt: HostRuntime) {
    let sums = Topic::Answers(Engines::BySums, &CALLS, &SHAPES_OF_SUMS);
    over_baby_bear(&rt, rt.alloc(), sums);
    let large = Topic::Answers(Engines::Fast, &CALLS, &LARGE_SHAPES);
    over_baby_bear(&rt, rt.alloc(), large);
}

#[test]
fn calls_answer_at_large_shapes_over_koala_bear(rt: HostRuntime) {
    let small = Topic::Answers(Engines::All, &CALLS, &SHAPES);
    over_koala_bear(&rt, rt.alloc(), small);
    let large = Topic::Answers(Engines::Fast, &CALLS, &LARGE_SHAPES);
    over_koala_bear(&rt, rt.alloc(), large);
}

#[test]
fn calls_answer_at_large_shapes_over_goldilocks(rt: HostRuntime) {
    let small = Topic::Answers(Engines::All, &CALLS, &SHAPES);
    over_goldilocks(&rt, rt.alloc(), small);
    let large = Topic::Answers(Engines::Fast, &CALLS, &LARGE_SHAPES);
    over_goldilocks(&rt, rt.alloc(), large);
}
