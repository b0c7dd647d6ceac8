/// Operations on two ints that always give one.
#[derive(Clone, Copy)]
pub enum IntArithmetic {
    Iadd,
    Isub,
    Imul,
    Iand,
    Ior,
    Ixor,
}
