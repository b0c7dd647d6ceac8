use constant_pool::Entry;

/// What is in a slot of a pool, as far as it matters to what names the slot.
#[derive(Clone, Copy)]
pub enum SlotKind {
    /// A text.
    Text,
    /// The name of a class.
    Class,
    /// Anything else, or nothing.
    Other,
}
