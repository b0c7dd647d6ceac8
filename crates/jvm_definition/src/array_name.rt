/// Instructions on an element of an array.
#[derive(Clone, Copy)]
pub enum ArrayName {
    Iaload,
    Aaload,
    Iastore,
    Aastore,
}
