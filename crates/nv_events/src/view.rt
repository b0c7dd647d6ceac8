ghost use Rattle.std.specs.Prelude.{◌≡◌, ◌≤◌, ◌<◌, ◌^◌, ℕ, Option, None, IsTrue, is_some, if◌then◌else◌};
ghost use Rattle.run_definition.specs.Memory.{Memory};
ghost use Rattle.nv_events.specs.ByPages.{IsByPages};

/// A memory of bytes, as a server sees it at a call. None of its calls takes memory.
pub trait View {
    /// What the view holds, as plain data.
    ghost Content: { Type 0 };

    ghost content: { Self → Content };

    /// The bytes that can be read, and the addresses that may be written.
    ghost memory: { Content → Memory };

    /// What a byte put at an address leaves.
    ghost put_at: { Content → ℕ → ℕ → Content };

    /// The byte at an address; None where it cannot be read.
    fn byte(&self, at: u32) -> Option<u8>
        ensures { result ≡ (memory (content self.now)).byte at };

    fn writable(&self, at: u32) -> bool
        ensures { result ≡ (memory (content self.now)).writable at };

    /// Puts a byte where the address may be written; otherwise answers false and changes nothing.
    fn put(&mut self, at: u32, b: u8) -> bool
        ensures answer { result ≡ (memory (content self.old)).writable at }
        ensures after { content self.new ≡ (if result then put_at (content self.old) at b
            else content self.old) };

    /// What holds of every content. It does nothing: its contract is the law.
    ///
    /// What may be written can be read, and addresses end at 2^32. A byte that is put keeps what can be read and what may be written. Of a
    /// page of 4,096 addresses the front can be read, or nothing; and the front may be written, or nothing.
    fn laws(&self)
        ensures written_is_readable { (c : Content) (a : ℕ) → IsTrue ((memory c).writable a)
            → IsTrue (is_some ((memory c).byte a)) }
        ensures ends { (c : Content) (a : ℕ) → 2 ^ 32 ≤ a → (memory c).byte a ≡ None }
        ensures readable_stays { (c : Content) (a b x : ℕ) → b < 256
            → IsTrue ((memory c).writable a)
            → is_some ((memory (put_at c a b)).byte x) ≡ is_some ((memory c).byte x) }
        ensures writable_stays { (c : Content) (a b x : ℕ) → b < 256
            → IsTrue ((memory c).writable a)
            → (memory (put_at c a b)).writable x ≡ (memory c).writable x }
        ensures reads_by_pages { (c : Content) → IsByPages (λ a. is_some ((memory c).byte a)) }
        ensures writes_by_pages { (c : Content) → IsByPages (memory c).writable };
}
