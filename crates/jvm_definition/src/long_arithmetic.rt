/// Operations on two longs that always give one.
#[derive(Clone, Copy)]
pub enum LongArithmetic {
    Ladd,
    Lmul,
    Land,
}
