ghost use Rattle.std.specs.Prelude.{◌≡◌, ◌≤◌, length};

use std::marker::Model;

/// The most bytes of a name.
pub const LONGEST_NAME: usize = 255;

/// The name of a file, of at most 255 bytes. A contract sees it as its bytes.
#[derive(Drop)]
pub struct Name {
    bytes: [u8; 255],
    len: usize,
}

impl Model for Name {
    ghost use Rattle.std.specs.Prelude.{List, ℕ, take, ◌≤◌};

    ghost Value = { List ℕ };

    ghost view = { λ n. take n.len n.bytes };

    ghost invariant = { λ n. n.len ≤ 255 };
}

impl Name {
    /// The name of these bytes.
    pub fn from_bytes(bytes: &[u8]) -> Name
        requires { length bytes.now ≤ 255 }
        ensures { result ≡ bytes.now }
    {
        let mut kept = [0; 255];
        kept[..bytes.len()].copy_from_slice(bytes);
        Name {
            bytes: kept,
            len: bytes.len(),
        }
    }

    pub fn as_bytes(&self) -> &[u8]
        ensures { result.now ≡ self.now }
    {
        &self.bytes[..self.len]
    }
}
