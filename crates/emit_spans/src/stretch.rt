/// The offsets of code in a method, from its first byte to the one after its last.
#[derive(Clone, Copy)]
pub struct Stretch {
    pub from: u32,
    pub to: u32,
}
