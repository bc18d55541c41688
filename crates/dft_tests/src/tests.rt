ghost use Rattle.std.specs.Prelude.{◌≡◌, ◌++◌, ◌⊎◌, ℕ, List, map};
ghost use Rattle.std.specs.String.{string_bytes};
ghost use Rattle.dft_program.specs.Faults.{memory_line};
ghost use Rattle.dft_program.specs.Outcome.{IsOutcome};

use dft_program::counted::Counted;
use dft_program::environment::Environment;
use dft_program::program::{run, run_command_line};
use dft_program::words::words_after_name;
use std::alloc::Global;
use std::env::FillError;
use std::io::{ErrorKind, Write};
use std::process::Abort;
use std::rt::Env;
use std::{io, str};

// What a full writer does.
#[derive(Clone, Copy)]
enum WhenFull {
    Fails,
    TakesNone,
}

// A writer that takes so many bytes a call, has so much room, and may not flush.
#[derive(Drop)]
struct Stubborn {
    held: Vec<u8>,
    most_a_call: usize,
    room: usize,
    when_full: WhenFull,
    flush_fails: bool,
}

impl Stubborn {
    fn with_room(alloc: Global, room: usize) -> Stubborn {
        Stubborn {
            held: Vec::new(alloc),
            most_a_call: 64,
            room,
            when_full: WhenFull::Fails,
            flush_fails: false,
        }
    }
}

impl Write for Stubborn {
    fn write(&mut self, buf: &[u8]) -> io::Result<usize> {
        let room = self.room.saturating_sub(self.held.len());
        if room == 0 && !buf.is_empty() {
            return match self.when_full {
                WhenFull::Fails => Err(io::Error::from(ErrorKind::StorageFull)),
                WhenFull::TakesNone => Ok(0),
            };
        }
        let count = buf.len().min(self.most_a_call).min(room);
        self.held.extend_from_slice(&buf[..count])?;
        Ok(count)
    }

    fn flush(&mut self) -> io::Result<()> {
        if self.flush_fails {
            return Err(io::Error::from(ErrorKind::StorageFull));
        }
        Ok(())
    }
}

// An environment with these words, the program's name among them.
#[derive(Clone, Copy)]
struct FakeEnvironment<'a> {
    words: &'a [&'a [u8]],
}

impl Env for FakeEnvironment<'_> {
    fn arg(&self, i: usize, buf: &mut [u8]) -> Result<usize, FillError> {
        let Some(word) = self.words.get(i) else {
            return Err(FillError::NotPresent);
        };
        let Some(room) = buf.get_mut(..word.len()) else {
            return Err(FillError::TooLong);
        };
        room.copy_from_slice(word);
        Ok(word.len())
    }

    fn var(&self, _name: &str, _buf: &mut [u8]) -> Result<usize, FillError> {
        Err(FillError::NotPresent)
    }

    fn var_at(&self, _i: usize, _buf: &mut [u8]) -> Result<usize, FillError> {
        Err(FillError::NotPresent)
    }
}

// These words behind the program's name. A test stops where memory is refused.
fn line_of<'a>(rt: &impl Abort, alloc: Global, words: &[&'a str]) -> Vec<&'a [u8]> {
    let mut line = Vec::new(alloc);
    line.push(b"dft".as_slice()).expect(rt, "memory");
    for word in words {
        line.push(word.as_bytes()).expect(rt, "memory");
    }
    line
}

// What the program answers for a command line.
fn status_of(alloc: Global, words: &[&[u8]], out: &mut Stubborn) -> u8 {
    let mut line = Environment::new(FakeEnvironment { words });
    run_command_line(alloc, &mut line, &mut Counted::new(out))
}

// Stops the test unless the program left this text, and ended with this status.
fn is_left(rt: &impl Abort, words: &[&str], out: &Stubborn, found: u8, status: u8, text: &[u8]) {
    let held = out.held.as_slice();
    let told = str::from_utf8(held).ok().unwrap_or("invalid UTF-8");
    assert!(rt;
        found == status && held == text,
        "{words:?}: status {found}, wanted {status}, with {told:?}"
    );
}

// Stops the test unless the program, on this writer, ends with this status and leaves this text.
fn ends(
    rt: &impl Abort,
    alloc: Global,
    words: &[&str],
    mut out: Stubborn,
    status: u8,
    text: &[u8],
) {
    let mut owned = Vec::new(alloc);
    for word in words {
        let word = String::from_str(alloc, word).expect(rt, "memory");
        owned.push(word).expect(rt, "memory");
    }
    let found = run(alloc, owned.as_slice(), &mut Counted::new(&mut out));
    is_left(rt, words, &out, found, status, text);
}

// Stops the test unless the program, on these words of a command line behind its name, ends with this status and leaves
// this text.
fn line_ends(rt: &impl Abort, alloc: Global, words: &[&str], status: u8, text: &[u8]) {
    let line = line_of(rt, alloc, words);
    let mut out = Stubborn::with_room(alloc, 20000);
    let found = status_of(alloc, line.as_slice(), &mut out);
    is_left(rt, words, &out, found, status, text);
}

// Runs the program on a `Vec`, of which contracts say what it holds.
fn run_into(alloc: Global, words: &[String], held: Vec<u8>) -> (u8, Vec<u8>)
    ensures ended { (result.0 ≡ 0) ⊎ (result.0 ≡ 2) → (text : List ℕ)
        × IsOutcome (map string_bytes words.now) (record { status = result.0; text = text })
        × (result.1.items ≡ held.items ++ text) }
    ensures memory { result.0 ≡ 3 → result.1.items ≡ held.items ++ memory_line }
{
    let mut out = Counted::new(held);
    let status = run(alloc, words, &mut out);
    (status, out.into_writer())
}

const FIRST_WORDS: [&str; 10] = [
    "babybear", "naive", "dft", "3", "5", "2", "0", "4", "3", "0",
];

const FIRST_TEXT: &str = "9 5 0\n1 2013265920 0\n";

#[test]
fn every_operation_prints_its_rows(rt: HostRuntime) {
    let rows: [(&[&str], &str); 20] = [
        (&FIRST_WORDS, FIRST_TEXT),
        (
            &["babybear", "naive", "dft", "1", "1", "2", "3", "4"],
            "10\n569722814\n2013265919\n1443543103\n",
        ),
        (&["babybear", "naive", "dft", "1", "007"], "7\n"),
        (
            &["goldilocks", "naive", "dft", "1", "0", "1", "0", "0"],
            "1\n281474976710656\n18446744069414584320\n18446462594437873665\n",
        ),
        (
            &["babybear", "dit", "dft", "1", "1", "2", "3", "4"],
            "10\n569722814\n2013265919\n1443543103\n",
        ),
        (
            &["goldilocks", "dit", "dft", "1", "0", "1", "0", "0"],
            "1\n281474976710656\n18446744069414584320\n18446462594437873665\n",
        ),
        (
            &["babybear", "dit", "coset-dft", "2", "1", "5", "4"],
            "13\n2013265918\n",
        ),
        (
            &["goldilocks", "bowers", "dft", "1", "0", "1", "0", "0"],
            "1\n281474976710656\n18446744069414584320\n18446462594437873665\n",
        ),
        (
            &["babybear", "bowers", "coset-lde", "1", "0", "1", "9", "1"],
            "5\n5\n5\n5\n",
        ),
        (
            &["babybear", "parallel", "dft", "1", "1", "2", "3", "4"],
            "10\n569722814\n2013265919\n1443543103\n",
        ),
        (&["babybear", "parallel", "idft", "1", "9", "1"], "5\n4\n"),
        (
            &["goldilocks", "small", "dft", "1", "0", "1", "0", "0"],
            "1\n281474976710656\n18446744069414584320\n18446462594437873665\n",
        ),
        (&["babybear", "small", "idft", "1", "9", "1"], "5\n4\n"),
        (&["babybear", "naive", "idft", "1", "9", "1"], "5\n4\n"),
        (
            &[
                "babybear",
                "dit",
                "coset-idft",
                "2",
                "1",
                "13",
                "2013265918",
            ],
            "5\n4\n",
        ),
        (
            &["babybear", "naive", "lde", "1", "1", "9", "1"],
            "9\n873820294\n1\n1139445637\n",
        ),
        (
            &["babybear", "dit", "coset-lde", "1", "0", "1", "9", "1"],
            "5\n5\n5\n5\n",
        ),
        (
            &["babybear", "dit", "coset-lde", "2", "31", "2", "42", "7"],
            "42 7\n42 7\n42 7\n42 7\n",
        ),
        (&["goldilocks", "dit", "lde", "0", "1", "9", "1"], "9\n1\n"),
        (
            &["goldilocks", "naive", "coset-dft", "0", "1", "5", "4"],
            "5\n5\n",
        ),
    ];
    for (words, text) in rows {
        let out = Stubborn::with_room(rt.alloc(), 1000);
        ends(&rt, rt.alloc(), words, out, 0, text.as_bytes());
    }
}

// Each operation by the engine with tables of cosets, over the larger field, and extensions by two others at
// zero and on a coset.
#[test]
fn every_operation_answers_over_goldilocks(rt: HostRuntime) {
    let line = "9\n1125899906842629\n1\n18445618169507741702\n";
    let on_seven = "33\n7881299347898373\n18446744069414584298\n18438862770066685958\n";
    let rows: [(&[&str], &str); 10] = [
        (
            &["goldilocks", "small", "dft", "1", "1", "2", "3", "4"],
            "10\n18446181119461163007\n18446744069414584319\n562949953421310\n",
        ),
        (
            &["goldilocks", "parallel", "dft", "1", "1", "2", "3", "4"],
            "10\n18446181119461163007\n18446744069414584319\n562949953421310\n",
        ),
        (
            &["goldilocks", "parallel", "coset-dft", "2", "1", "5", "4"],
            "13\n18446744069414584318\n",
        ),
        (
            &["goldilocks", "parallel", "idft", "2", "9", "5", "1", "5"],
            "5 5\n4 0\n",
        ),
        (
            &[
                "goldilocks",
                "parallel",
                "coset-idft",
                "2",
                "1",
                "13",
                "18446744069414584318",
            ],
            "5\n4\n",
        ),
        (&["goldilocks", "parallel", "lde", "1", "1", "9", "1"], line),
        (
            &[
                "goldilocks",
                "parallel",
                "coset-lde",
                "1",
                "7",
                "1",
                "9",
                "1",
            ],
            on_seven,
        ),
        (
            &[
                "goldilocks",
                "parallel",
                "coset-lde",
                "1",
                "0",
                "1",
                "9",
                "1",
            ],
            "5\n5\n5\n5\n",
        ),
        (
            &["goldilocks", "bowers", "coset-lde", "1", "0", "1", "9", "1"],
            "5\n5\n5\n5\n",
        ),
        (
            &["goldilocks", "small", "coset-lde", "1", "7", "1", "9", "1"],
            on_seven,
        ),
    ];
    for (words, text) in rows {
        let out = Stubborn::with_room(rt.alloc(), 1000);
        ends(&rt, rt.alloc(), words, out, 0, text.as_bytes());
    }
}

#[test]
fn the_first_fault_is_printed(rt: HostRuntime) {
    let unknown_field = "error 1: unknown field\n";
    let unknown_engine = "error 2: unknown engine\n";
    let unknown_operation = "error 3: unknown operation\n";
    let too_few_words = "error 4: too few words\n";
    let not_a_number = "error 5: not a number\n";
    let not_below = "error 6: number not below the modulus\n";
    let unfit_shape = "error 7: shape does not fit\n";
    let no_inverse = "error 8: shift has no inverse\n";
    let rows: [(&[&str], &str); 38] = [
        (&[], too_few_words),
        (&["babybear"], too_few_words),
        (&["babybear", "naive", "dft", "1"], too_few_words),
        (&["babybear", "naive", "dft", "0"], too_few_words),
        (&["x"], unknown_field),
        (&["x", "y", "z"], unknown_field),
        (
            &["wide-goldilocks", "naive", "dft", "1", "7"],
            unknown_field,
        ),
        (&["babybear", "x"], unknown_engine),
        (&["babybear", "naive", "x"], unknown_operation),
        (&["babybear", "naive", "dft", "1", "-1", "2"], not_a_number),
        (&["babybear", "naive", "dft", "1", "+1", "2"], not_a_number),
        (&["babybear", "naive", "dft", "+1", "2"], not_a_number),
        (&["babybear", "naive", "dft", "1", ""], not_a_number),
        (
            &["babybear", "naive", "dft", "1", "18446744073709551616"],
            not_a_number,
        ),
        (
            &["babybear", "naive", "dft", "1", "2013265921", "x"],
            not_a_number,
        ),
        (
            &["babybear", "naive", "dft", "1", "2013265921", "0"],
            not_below,
        ),
        (
            &["babybear", "naive", "dft", "1", "18446744073709551615"],
            not_below,
        ),
        (&["babybear", "naive", "dft", "0", "2013265921"], not_below),
        (
            &["goldilocks", "naive", "dft", "1", "18446744069414584321"],
            not_below,
        ),
        (&["babybear", "naive", "dft", "0", "1"], unfit_shape),
        (
            &["babybear", "naive", "dft", "2", "1", "2", "3"],
            unfit_shape,
        ),
        (
            &["babybear", "naive", "dft", "1", "1", "2", "3"],
            unfit_shape,
        ),
        (
            &["goldilocks", "dit", "dft", "1", "1", "2", "3"],
            unfit_shape,
        ),
        (
            &["goldilocks", "small", "dft", "1", "1", "2", "3"],
            unfit_shape,
        ),
        (
            &[
                "babybear",
                "small",
                "lde",
                "18446744073709551615",
                "1",
                "9",
                "1",
            ],
            unfit_shape,
        ),
        (&["babybear", "dit", "lde", "1", "1"], too_few_words),
        (&["babybear", "dit", "coset-idft", "1", "1"], too_few_words),
        (
            &["babybear", "dit", "coset-lde", "1", "1", "1"],
            too_few_words,
        ),
        (
            &["babybear", "dit", "lde", "x", "1", "9", "1"],
            not_a_number,
        ),
        (
            &["babybear", "dit", "coset-idft", "2013265921", "1", "1"],
            not_below,
        ),
        (
            &["babybear", "bowers", "coset-idft", "2013265921", "1", "1"],
            not_below,
        ),
        (
            &["babybear", "dit", "coset-idft", "0", "2", "13"],
            unfit_shape,
        ),
        (
            &["babybear", "dit", "lde", "64", "1", "9", "1"],
            unfit_shape,
        ),
        (
            &["babybear", "dit", "lde", "27", "1", "9", "1"],
            unfit_shape,
        ),
        (
            &[
                "babybear",
                "dit",
                "lde",
                "18446744073709551615",
                "1",
                "9",
                "1",
            ],
            unfit_shape,
        ),
        (
            &["babybear", "dit", "lde", "2013265921", "1", "9", "1"],
            unfit_shape,
        ),
        (
            &[
                "babybear",
                "dit",
                "coset-idft",
                "0",
                "1",
                "13",
                "2013265918",
            ],
            no_inverse,
        ),
        (
            &["goldilocks", "naive", "coset-idft", "0", "1", "13"],
            no_inverse,
        ),
    ];
    for (words, line) in rows {
        let out = Stubborn::with_room(rt.alloc(), 1000);
        ends(&rt, rt.alloc(), words, out, 2, line.as_bytes());
    }
}

// A writer that has less room than the text is long is filled, and told of.
fn fills(rt: &impl Abort, alloc: Global, room: usize) {
    let Some(text) = FIRST_TEXT.as_bytes().get(..room) else {
        panic!(rt; "room for more than the text");
    };
    let full = Stubborn::with_room(alloc, room);
    ends(rt, alloc, &FIRST_WORDS, full, 4, text);
}

#[test]
fn a_writer_gets_the_text_or_its_beginning(rt: HostRuntime) {
    let alloc = rt.alloc();
    let text = FIRST_TEXT.as_bytes();
    assert_eq!(rt; text.len(), 21);
    for room in 0..21 {
        fills(&rt, alloc, room);
    }

    let mut slow = Stubborn::with_room(alloc, 1000);
    slow.most_a_call = 1;
    ends(&rt, alloc, &FIRST_WORDS, slow, 0, text);

    let mut idle = Stubborn::with_room(alloc, 0);
    idle.when_full = WhenFull::TakesNone;
    ends(&rt, alloc, &FIRST_WORDS, idle, 4, b"".as_slice());

    let mut unflushed = Stubborn::with_room(alloc, 1000);
    unflushed.flush_fails = true;
    ends(&rt, alloc, &FIRST_WORDS, unflushed, 4, text);
}

// Stops the test unless a command line makes the program leave this text.
fn leaves(rt: &impl Abort, alloc: Global, words: &[&[u8]], text: &[u8]) {
    let mut line = Environment::new(FakeEnvironment { words });
    let read = words_after_name(alloc, &mut line).expect(rt, "memory");
    let (_, held) = run_into(alloc, read.as_slice(), Vec::new(alloc));
    assert_eq!(rt; held.as_slice(), text);
}

// The program's own name is not read, and what is no UTF-8 is told the fault of its place.
#[test]
fn invalid_utf8_is_a_fault_of_its_place(rt: HostRuntime) {
    let rows: [(&[&[u8]], &str); 6] = [
        (&[b"\xff", b"babybear", b"naive", b"dft", b"1", b"7"], "7\n"),
        (&[b"dft", b"baby\xffbear"], "error 1: unknown field\n"),
        (&[b"dft", b"babybear", b"\xff"], "error 2: unknown engine\n"),
        (
            &[b"dft", b"babybear", b"\xe2\x82"],
            "error 2: unknown engine\n",
        ),
        (
            &[b"dft", b"babybear", b"naive", b"dft\xff"],
            "error 3: unknown operation\n",
        ),
        (
            &[b"dft", b"babybear", b"naive", b"dft", b"1", b"7\xff"],
            "error 5: not a number\n",
        ),
    ];
    for (words, text) in rows {
        leaves(&rt, rt.alloc(), words, text.as_bytes());
    }
}

// So many zeros, and a seven: longer than what a word is first read into.
fn seven(rt: &impl Abort, alloc: Global, zeros: usize) -> String {
    let mut seven = String::new(alloc);
    for _ in 0..zeros {
        seven.push('0').expect(rt, "memory");
    }
    seven.push('7').expect(rt, "memory");
    seven
}

#[test]
fn leading_zeros_are_read(rt: HostRuntime) {
    let seven = seven(&rt, rt.alloc(), 1000);
    let words = ["babybear", "naive", "dft", "00001", seven.as_str()];
    line_ends(&rt, rt.alloc(), &words, 0, b"7\n".as_slice());
}

// The numbers from 1 to 1999 and a long seven, four rows of 500: an extension by no bits keeps its values. A fault of
// the last word alone is told too.
#[test]
fn every_word_of_a_command_line_is_read_in_order(rt: HostRuntime) {
    let alloc = rt.alloc();
    let mut typed = String::new(alloc);
    let mut text = String::new(alloc);
    for n in 1..2000u64 {
        let end = if n % 500 == 0 { '\n' } else { ' ' };
        write!(typed, " {n}").expect(&rt, "memory");
        write!(text, "{n}{end}").expect(&rt, "memory");
    }
    text.push_str("7\n").expect(&rt, "memory");
    let seven = seven(&rt, alloc, 300);
    let mut words = Vec::new(alloc);
    for word in ["babybear", "dit", "lde", "0", "500"] {
        words.push(word).expect(&rt, "memory");
    }
    for word in typed.as_str().split_whitespace() {
        words.push(word).expect(&rt, "memory");
    }
    words.push(seven.as_str()).expect(&rt, "memory");
    line_ends(&rt, alloc, words.as_slice(), 0, text.as_bytes());

    words.pop();
    words.push("2013265921").expect(&rt, "memory");
    let line = b"error 6: number not below the modulus\n".as_slice();
    line_ends(&rt, alloc, words.as_slice(), 2, line);
}

// Takes all blocks of this size that there are, as long as `held` has room for more.
fn take_all_of(alloc: Global, held: &mut Vec<Vec<u8>>, size: usize) {
    for _n in held.len()..held.capacity() {
        let Ok(block) = Vec::with_capacity(alloc, size) else {
            break;
        };
        let _ = held.push(block);
    }
}

// What is free while the program runs is the rest of a block of so many bytes.
const SPARE: usize = 4096;

// Takes all memory but so many bytes.
fn strain(rt: &impl Abort, alloc: Global, held: &mut Vec<Vec<u8>>, left: usize) {
    let spare = Vec::<u8>::with_capacity(alloc, SPARE).expect(rt, "memory");
    for n in 0..6usize {
        take_all_of(alloc, held, 65536 >> n);
    }
    for n in 0..64usize {
        take_all_of(alloc, held, 1032 - 16 * n);
    }
    drop(spare);
    let rest = Vec::with_capacity(alloc, SPARE.saturating_sub(left)).expect(rt, "memory");
    held.push(rest).expect(rt, "room");
}

// Runs the program with no memory left, and with more and more until it ends with this status and text. Before that
// memory is refused to it: answers how often.
fn refusals(
    rt: &impl Abort,
    alloc: Global,
    held: &mut Vec<Vec<u8>>,
    words: &[&str],
    status: u8,
    text: &[u8],
) -> usize {
    let line = line_of(rt, alloc, words);
    let taken = held.len();
    for n in 0..500usize {
        let mut out = Stubborn::with_room(alloc, 100);
        out.held.reserve(100).expect(rt, "memory");
        strain(rt, alloc, held, 16 * n);
        let found = status_of(alloc, line.as_slice(), &mut out);
        held.truncate(taken);
        if found != 3 {
            assert_eq!(rt; found, status);
            assert_eq!(rt; out.held.as_slice(), text);
            return n;
        }
        assert_eq!(rt; out.held.as_slice(), b"error 9: out of memory\n".as_slice());
    }
    panic!(rt; "no memory is enough")
}

// Each test has a process of its own. This one takes all of its address space but what runs of the program need, in
// blocks that are never touched.
#[test]
fn each_refused_request_is_told(rt: HostRuntime) {
    let alloc = rt.alloc();
    let mut held = Vec::with_capacity(alloc, 40000).expect(&rt, "memory");
    let mut kept = Vec::with_capacity(alloc, 160).expect(&rt, "memory");
    for _n in 0..160usize {
        let block = Vec::<u8>::with_capacity(alloc, 100000).expect(&rt, "memory");
        kept.push(block).expect(&rt, "memory");
    }
    for n in 0..46usize {
        take_all_of(alloc, &mut held, (1 << 46) >> n);
    }
    // Where small blocks have memory of their own, as in a process that looks for misuse of memory, nothing can be
    // shown in this way.
    if held.len() == held.capacity() {
        return;
    }
    drop(kept);
    let line = "13\n1747640583\n2013265918\n265625348\n";
    for engine in ["naive", "dit", "bowers", "parallel", "small"] {
        let words = ["babybear", engine, "coset-lde", "1", "2", "1", "9", "1"];
        let times = refusals(&rt, alloc, &mut held, &words, 0, line.as_bytes());
        assert!(rt; times > 40, "{times}");
    }
    let words = ["x"];
    let fault = b"error 1: unknown field\n".as_slice();
    let times = refusals(&rt, alloc, &mut held, &words, 2, fault);
    assert!(rt; times > 10, "{times}");
}
