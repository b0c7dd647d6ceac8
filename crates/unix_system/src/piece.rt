ghost use Rattle.std.specs.Prelude.{◌≡◌, ◌≤◌, ◌<◌, ◌+◌, ◌++◌, ◌∷◌, [], length};
ghost use Rattle.unix_definition.specs.Asked.{word_in_order};

use nv_words::{Order, lane_of};
use std::marker::Model;

/// At most 4,096 bytes on their way into the program's memory or out of it. A contract sees them as a list.
#[derive(Drop)]
pub struct Piece {
    bytes: [u8; 4096],
    len: usize,
}

impl Model for Piece {
    ghost use Rattle.std.specs.Prelude.{List, ℕ, take, ◌≤◌};

    ghost Value = { List ℕ };

    ghost view = { λ p. take p.len p.bytes };

    ghost invariant = { λ p. p.len ≤ 4096 };
}

impl Piece {
    pub fn new() -> Piece
        ensures { result ≡ [] }
    {
        Piece {
            bytes: [0; 4096],
            len: 0,
        }
    }

    pub fn push(&mut self, b: u8)
        requires { length self.old < 4096 }
        ensures { self.new ≡ self.old ++ b ∷ [] }
    {
        self.bytes[self.len] = b;
        self.len += 1;
    }

    pub fn extend(&mut self, bytes: &[u8])
        requires { length self.old + length bytes.now ≤ 4096 }
        ensures { self.new ≡ self.old ++ bytes.now }
    {
        let end = self.len + bytes.len();
        self.bytes[self.len..end].copy_from_slice(bytes);
        self.len = end;
    }

    pub fn push_word(&mut self, order: Order, w: u32)
        requires { length self.old + 4 ≤ 4096 }
        ensures { self.new ≡ self.old ++ word_in_order order w }
    {
        self.extend(&word_bytes(order, w));
    }

    pub fn as_slice(&self) -> &[u8]
        ensures value { result.now ≡ self.now }
        ensures small { length result.now ≤ 4096 }
    {
        &self.bytes[..self.len]
    }
}

/// The four bytes of a word as memory has them.
fn word_bytes(order: Order, w: u32) -> [u8; 4]
    ensures value { result ≡ word_in_order order w }
    ensures len { length (word_in_order order w) ≡ 4 }
{
    [
        lane_of(order, w, 0),
        lane_of(order, w, 1),
        lane_of(order, w, 2),
        lane_of(order, w, 3),
    ]
}
