/// A span: consecutive words of the code, which one method does.
#[derive(Debug, Clone, Copy)]
pub struct SpanInfo {
    /// The number of its class among the classes of code, from 0, in the order of their files.
    pub class: u32,
    /// Its number among the spans of its class, from 0: method `s0` does the first.
    pub method: u32,
    /// The address of its first word, a multiple of 4.
    pub first: u32,
    /// How many words it has, at least 1.
    pub words: u32,
}
