/// Shifts of an int by an int.
#[derive(Clone, Copy)]
pub enum IntShift {
    Ishl,
    Ishr,
    Iushr,
}
