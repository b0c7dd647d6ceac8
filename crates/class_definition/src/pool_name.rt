/// Instructions with a slot of the constant pool, of two bytes.
#[derive(Clone, Copy)]
pub enum PoolName {
    LdcW,
    Ldc2W,
    Getstatic,
    Putstatic,
    Invokevirtual,
    Invokestatic,
    Anewarray,
}
