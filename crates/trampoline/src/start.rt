/// A method, by its number in the program, and the address at which its part of the code begins.
#[derive(Clone, Copy)]
pub struct Start {
    pub first: u32,
    pub method: u32,
}
