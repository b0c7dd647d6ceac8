/// How far a part of a word is shifted: eight times its address, or eight times the address whose two low bits are turned.
#[derive(Clone, Copy)]
pub enum Amount {
    Forward,
    Backward,
}
