// Cases as text: numbers with blanks between them, a bar between the parts of a case, and a semicolon between cases.

use std::alloc::Global;
use std::process::Abort;

// The numbers of a part.
pub(crate) fn numbers(rt: &impl Abort, alloc: Global, part: &str) -> Vec<u64> {
    let mut numbers = Vec::new(alloc);
    for word in part.split_whitespace() {
        let number = word.parse::<u64>().ok().expect(rt, "a number");
        numbers.push(number).expect(rt, "memory");
    }
    numbers
}
