/// The version of class files.
#[derive(Clone, Copy, Debug, PartialEq, Eq)]
pub enum Version {
    /// 48.0.
    V48,
    /// 51.0, with tables of frames.
    V51,
}
