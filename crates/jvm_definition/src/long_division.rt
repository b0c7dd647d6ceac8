/// Divisions of longs.
#[derive(Clone, Copy)]
pub enum LongDivision {
    Ldiv,
    Lrem,
}
