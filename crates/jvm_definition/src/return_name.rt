/// Returns from a method.
#[derive(Clone, Copy)]
pub enum ReturnName {
    Ireturn,
    Return,
}
