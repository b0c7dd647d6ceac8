/// The statuses with which a program ends, in both machines.
#[derive(Clone, Copy, Debug)]
pub struct Statuses {
    /// In the reference machine.
    pub interp: u8,
    /// As classes.
    pub classes: u8,
}
