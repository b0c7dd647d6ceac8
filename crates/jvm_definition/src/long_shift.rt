/// Shifts of a long by an int.
#[derive(Clone, Copy)]
pub enum LongShift {
    Lshl,
    Lshr,
    Lushr,
}
