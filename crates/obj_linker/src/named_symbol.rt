use obj_reader::Symbol;

/// A symbol with the number of its name, 0 if it is local.
#[derive(Clone, Copy)]
pub struct NamedSymbol {
    pub symbol: Symbol,
    pub name: usize,
}
