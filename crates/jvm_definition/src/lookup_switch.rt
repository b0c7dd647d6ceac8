use crate::pair::Pair;
use crate::sequence::Sequence;

/// `lookupswitch`: targets by their keys, which rise, and that of any other key.
#[derive(Drop)]
pub struct LookupSwitch {
    pub default: u32,
    pub pairs: Sequence<Pair>,
}
