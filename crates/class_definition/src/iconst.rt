/// The constants of `iconst_<n>`.
#[derive(Clone, Copy)]
pub enum Iconst {
    M1,
    Zero,
    One,
    Two,
    Three,
    Four,
    Five,
}
