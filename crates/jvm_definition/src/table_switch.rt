use crate::sequence::Sequence;

/// `tableswitch`: the targets of the keys from `low` on, one after the other, and that of any other key.
#[derive(Drop)]
pub struct TableSwitch {
    pub default: u32,
    pub low: i32,
    pub targets: Sequence<u32>,
}
