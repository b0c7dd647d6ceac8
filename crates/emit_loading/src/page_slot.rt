/// A page, by its number below 524,288, and the slot of the text of its words in the pool of the class that has it.
#[derive(Clone, Copy)]
pub struct PageSlot {
    pub page: u32,
    pub slot: u16,
}
