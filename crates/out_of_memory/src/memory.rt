//! What happens to memory between the making of an input and the call.

use std::alloc::Global;

/// Makes memory scarce before a call.
pub trait Memory {
    /// Called once all is ready for a call. Answers whether the call is to be made.
    fn strain(&mut self, alloc: Global) -> bool;

    /// Called after the call.
    fn relieve(&mut self);
}

/// Memory as it is.
#[derive(Drop)]
pub struct Plenty;

impl Memory for Plenty {
    fn strain(&mut self, _alloc: Global) -> bool {
        true
    }

    fn relieve(&mut self) {}
}

/// What comes before a call.
#[derive(Clone, Copy)]
pub enum Before {
    /// So many requests for memory, whatever comes of them: so that the runner, which refuses the request
    /// with one number, refuses the wanted one of the call.
    Requests(usize),
    /// The end: so that the runner tells how many requests came before.
    Stop,
}

impl Memory for Before {
    fn strain(&mut self, alloc: Global) -> bool {
        match *self {
            Before::Stop => false,
            Before::Requests(times) => {
                for _n in 0..times {
                    let _ = Vec::<u8>::with_capacity(alloc, 1);
                }
                true
            }
        }
    }

    fn relieve(&mut self) {}
}
