ghost use Rattle.std.specs.Prelude.{◌≡◌, ◌≤◌, ◌+◌, None, length};
ghost use Rattle.block_pool.specs.Bytes.{zeros, overwritten};

/// A block in use: its 4,096 bytes, and the number of the block that follows it in its file, if one does.
#[derive(Drop)]
pub struct Block {
    pub bytes: [u8; 4096],
    pub next: Option<u32>,
}

impl Block {
    /// A block of zeros that nothing follows.
    #[tactic(auto, unfolding(crate::specs::Bytes::zeros))]
    pub(crate) fn zeroed() -> Block
        ensures value { result ≡ record { bytes = zeros; next = None } }
        ensures len { length result.bytes ≡ 4096 }
    {
        Block {
            bytes: [0; 4096],
            next: None,
        }
    }

    /// Writes the bytes of `from`, from `at` on.
    pub(crate) fn overwrite(&mut self, at: usize, from: &[u8])
        requires { at + length from.now ≤ 4096 }
        ensures value { self.new
            ≡ record self.old { bytes = overwritten self.old.bytes at from.now } }
        ensures len { length self.new.bytes ≡ 4096 }
    {
        self.bytes[at..at + from.len()].copy_from_slice(from);
    }
}
