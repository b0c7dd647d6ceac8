/// Divisions of ints.
#[derive(Clone, Copy)]
pub enum IntDivision {
    Idiv,
    Irem,
}
