// The program on words, over a sink, and worked rows of it.

use dft_program::{Counted, Sink, run};
use std::alloc::Global;
use std::io;
use std::io::Write;
use std::process::Abort;

fn answer<W: Sink>(alloc: Global, words: &[String], out: &mut W) -> u8 {
    run(alloc, words, out)
}

fn write<W: Sink>(out: &mut W, buf: &[u8]) -> io::Result<usize> {
    out.write(buf)
}

fn flush<W: Sink>(out: &mut W) -> io::Result<()> {
    out.flush()
}

fn counted<W: Write>(writer: W) -> Counted<W> {
    Counted::new(writer)
}

// Stops the test unless the words end with this status and this text.
fn ends(rt: &impl Abort, alloc: Global, words: &[&str], status: u8, text: &str) {
    let mut owned = Vec::new(alloc);
    for word in words {
        let word = String::from_str(alloc, word).expect(rt, "memory");
        owned.push(word).expect(rt, "memory");
    }
    let mut held: Vec<u8> = Vec::new(alloc);
    let found = answer(alloc, owned.as_slice(), &mut counted(&mut held));
    assert!(rt;
        found == status && held.as_slice() == text.as_bytes(),
        "{words:?}: {found}"
    );
}

// The words after the program's name, the status, and the text.
type Line = (&'static [&'static str], u8, &'static str);

const LINES: [Line; 14] = [
    (
        &[
            "babybear", "naive", "dft", "3", "5", "2", "0", "4", "3", "0",
        ],
        0,
        "9 5 0\n1 2013265920 0\n",
    ),
    (&["babybear", "naive", "dft", "1", "007"], 0, "7\n"),
    (
        &["babybear", "naive", "lde", "1", "1", "9", "1"],
        0,
        "9\n873820294\n1\n1139445637\n",
    ),
    (
        &["babybear", "dit", "coset-lde", "1", "0", "1", "9", "1"],
        0,
        "5\n5\n5\n5\n",
    ),
    (&["x"], 2, "error 1: unknown field\n"),
    (&["babybear", "x"], 2, "error 2: unknown engine\n"),
    (
        &["babybear", "naive", "x"],
        2,
        "error 3: unknown operation\n",
    ),
    (
        &["babybear", "naive", "dft", "1"],
        2,
        "error 4: too few words\n",
    ),
    (&["babybear"], 2, "error 4: too few words\n"),
    (
        &["babybear", "naive", "dft", "1", "-1", "2"],
        2,
        "error 5: not a number\n",
    ),
    (
        &["babybear", "naive", "dft", "1", "2013265921", "0"],
        2,
        "error 6: number not below the modulus\n",
    ),
    (
        &["goldilocks", "small", "dft", "1", "1", "2", "3"],
        2,
        "error 7: shape does not fit\n",
    ),
    (
        &["babybear", "dit", "lde", "64", "1", "9", "1"],
        2,
        "error 7: shape does not fit\n",
    ),
    (
        &[
            "babybear",
            "dit",
            "coset-idft",
            "0",
            "1",
            "13",
            "2013265918",
        ],
        2,
        "error 8: shift has no inverse\n",
    ),
];

fn all_end(rt: &impl Abort, alloc: Global, lines: &[Line]) {
    for (words, status, text) in lines {
        ends(rt, alloc, words, *status, text);
    }
}

#[test]
fn words_end_as_worked(rt: HostRuntime) {
    all_end(&rt, rt.alloc(), &LINES);
    ends(&rt, rt.alloc(), &[], 2, "error 4: too few words\n");
}

#[test]
fn sinks_take_bytes(rt: HostRuntime) {
    let mut held: Vec<u8> = Vec::new(rt.alloc());
    let mut sink = counted(&mut held);
    assert!(rt; write(&mut sink, b"ab".as_slice()).is_ok() && flush(&mut sink).is_ok());
    assert!(rt; held.as_slice() == b"ab".as_slice());
}
