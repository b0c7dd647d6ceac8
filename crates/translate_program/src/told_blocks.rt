/// Whether it is told where the blocks of a program's classes are.
#[derive(Debug, Clone, Copy)]
pub enum ToldBlocks {
    /// All blocks are listed.
    Listed,
    /// None is: they take no memory.
    Omitted,
}
