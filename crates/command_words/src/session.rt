use crate::name_list::NameList;
use crate::texts::Texts;

/// How a guest or a class is run.
#[derive(Debug, Drop)]
pub struct Session {
    /// The most steps that it may make: for a guest at most 1,099,511,627,776, for a class 1,125,899,906,842,624.
    pub steps: u64,
    /// The blocks of its disk, 0 to 65,536.
    pub disk: u32,
    /// The files that it finds.
    pub with: NameList,
    /// The files that are kept.
    pub keep: NameList,
    /// Its arguments; none has a byte 0.
    pub arguments: Texts,
}
