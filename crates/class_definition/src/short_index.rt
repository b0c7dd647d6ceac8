/// The local variables that an opcode can name by itself.
#[derive(Clone, Copy)]
pub enum ShortIndex {
    Zero,
    One,
    Two,
    Three,
}
