/// Where a text of a call is in the guest's memory.
#[derive(Clone, Copy, Debug, PartialEq, Eq)]
pub enum TextPlace {
    /// The call has no such text.
    Absent,
    /// From this address up to the first byte 0.
    Zero(u32),
    /// From this address, this number of bytes.
    Counted(u32, u32),
}
