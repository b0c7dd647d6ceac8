use crate::sized_table::SizedTable;
use jvm_code::Method;

/// A method with pruned code, and its table.
#[derive(Drop)]
pub struct TabledMethod {
    pub method: Method,
    pub table: SizedTable,
}
