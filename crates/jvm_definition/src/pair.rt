/// A key of a `lookupswitch` and its target.
#[derive(Clone, Copy)]
pub struct Pair {
    pub key: i32,
    pub target: u32,
}
