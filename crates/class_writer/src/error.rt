use std::alloc::AllocError;

/// Memory ran out.
pub type NoMemory = AllocError;

/// Why a class was not written.
#[derive(Debug, PartialEq, Eq, Drop)]
pub enum WriteError {
    /// It has more than a class file can hold, by the first of these: 1 more than 65,534 slots in the pool, 2 more than 65,535
    /// fields, 3 more than 65,535 methods, 4 a text of more than 65,535 bytes.
    TooLong(u32),
    /// Memory ran out.
    NoMemory,
}
