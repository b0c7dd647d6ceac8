/// What a description reads or writes: a file, by the number of its node, or a side of the console.
#[derive(Clone, Copy, Debug, PartialEq, Eq)]
pub enum Target {
    File(usize),
    Input,
    Output,
    ErrorOutput,
}
