/// Branches with an offset of two bytes.
#[derive(Clone, Copy)]
pub enum BranchName {
    Ifeq,
    Ifne,
    Iflt,
    Ifge,
    Ifgt,
    Ifle,
    IfIcmpeq,
    IfIcmpne,
    IfIcmplt,
    IfIcmpge,
    IfIcmpgt,
    IfIcmple,
    Goto,
    Ifnull,
    Ifnonnull,
}
