// The texts of errors.

use growth::Refused;
use p3_matrix::{BlockRefused, DftError};

#[test]
fn says_what_was_refused(rt: HostRuntime) {
    // No process has room for so many bytes.
    let answer: Result<Vec<u8>, Refused> = growth::with_capacity(rt.alloc(), usize::MAX);
    let Err(refused) = answer else {
        panic!(rt; "room for 2^64 - 1 bytes");
    };
    let text = DftError::from(refused)
        .to_string(rt.alloc())
        .expect(&rt, "memory");
    assert_eq!(rt; text.as_str(), "out of memory");
}

#[test]
fn is_a_plain_value(rt: HostRuntime) {
    let answer: Result<u8, DftError> = Err(DftError::OutOfMemory);
    assert!(rt; answer == Err(DftError::OutOfMemory));
    assert_eq!(rt; answer, Err(DftError::OutOfMemory));
    let Err(DftError::OutOfMemory) = answer else {
        panic!(rt; "no error");
    };
    let error = DftError::OutOfMemory;
    let (first, second) = (error, error);
    assert_eq!(rt; first, second);
}

#[test]
fn says_which_block_was_one_too_many(rt: HostRuntime) {
    let text = BlockRefused { start: 12 }
        .to_string(rt.alloc())
        .expect(&rt, "memory");
    assert_eq!(rt; text.as_str(), "the block from row 12 on was one too many");
}
