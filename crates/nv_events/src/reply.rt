/// An answer that is written down beforehand: the value, and the bytes for the call's room.
#[derive(Debug, Drop)]
pub struct Reply {
    pub value: i32,
    pub patch: Vec<u8>,
}
