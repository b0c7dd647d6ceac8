use nv_words::Order;

/// With what a program begins, apart from its memory and code.
#[derive(Clone, Copy)]
pub struct Beginning {
    /// The address of the first instruction.
    pub entry: u32,
    /// The heap's first address.
    pub heap_start: u32,
    /// The heap's bytes.
    pub heap_bytes: u32,
    /// The order of the bytes of the program's words.
    pub order: Order,
}
