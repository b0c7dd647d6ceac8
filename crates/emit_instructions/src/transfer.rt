use jvm_definition::BranchName;

/// A conditional branch: whether it is a likely one, the test that what is on the stack passes where it is taken, where it goes, and
/// the register of its link, if it has one.
#[derive(Clone, Copy)]
pub struct Transfer {
    pub likely: bool,
    pub test: BranchName,
    pub target: u32,
    pub link: Option<u8>,
}
