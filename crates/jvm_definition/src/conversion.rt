/// Conversions of numbers.
#[derive(Clone, Copy)]
pub enum Conversion {
    I2l,
    L2i,
    I2b,
    I2c,
    I2s,
}
