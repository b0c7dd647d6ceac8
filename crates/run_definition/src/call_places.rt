use crate::text_place::TextPlace;

/// Where the texts of a call are, and the room for its answer: an address and a number of bytes.
#[derive(Clone, Copy, Debug, PartialEq, Eq)]
pub struct Places {
    pub text: TextPlace,
    pub second: TextPlace,
    pub room: Option<(u32, u32)>,
}
