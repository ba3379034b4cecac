// What can go wrong outside a core.
use std::alloc::AllocError;
use thiserror::Error;

#[derive(Clone, Copy, Debug, Error)]
pub enum WorldError {
    #[error("the core wants a fifth word of code")]
    TooManyWants,
    #[error("the core makes a fifth request")]
    TooManyRequests,
    #[error("out of memory")]
    NoMemory(#[from(alloc)] AllocError),
}
