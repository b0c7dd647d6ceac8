ghost use Rattle.std.specs.Prelude.{◌≡◌, ◌≤◌, ◌<◌, ◌+◌, ◌*◌, ◌^◌, ◌++◌, ◌∷◌, [], ℕ, List, length, Ok, Err, OnErr, IfOk, ◌≢◌};
ghost use Rattle.unix_definition.specs.Asked.{words_in_order, addresses, texts_with_zeros};
ghost use Rattle.unix_definition.specs.Calls.{block_length};

use crate::NoMemory;
use crate::text::Text;
use nv_words::Order;
use std::alloc::Global;
use std::marker::Model;
use unix_system::Piece;

/// The most bytes of the argument block.
pub const LONGEST_BLOCK: usize = 4096;

/// The arguments of a program, whose argument block has at most 4,096 bytes. A contract sees them as the list of their
/// texts.
#[derive(Drop)]
pub struct Args {
    alloc: Global,
    texts: Vec<Text>,
    block: usize,
}

impl Model for Args {
    ghost use Rattle.std.specs.Prelude.{List, ℕ, ◌≡◌, ◌≤◌};

    ghost Value = { List (List ℕ) };

    ghost use Rattle.unix_definition.specs.Calls.{block_length};

    ghost view = { λ a. a.texts.items };

    ghost invariant = { λ a. (a.block ≡ block_length a.texts.items) × (a.block ≤ 4096) };
}

impl Args {
    /// No arguments. It takes no memory.
    pub fn new(alloc: Global) -> Args
        ensures { result ≡ [] }
    {
        Args {
            alloc,
            texts: Vec::new(alloc),
            block: 4,
        }
    }

    /// How many there are.
    pub fn count(&self) -> usize
        ensures count { result ≡ length self.now }
        ensures small { result ≤ 4096 }
    {
        self.texts.len()
    }

    /// The bytes of the argument block with one more text.
    pub fn block_with(&self, text: &[u8]) -> u64
        ensures { result ≡ block_length (self.now ++ text.now ∷ []) }
    {
        self.block as u64 + text.len() as u64 + 5
    }

    /// Adds a text.
    pub fn push(&mut self, text: &[u8]) -> Result<(), NoMemory>
        requires { block_length (self.old ++ text.now ∷ []) ≤ 4096 }
        ensures ok { IfOk result (λ _. self.new ≡ self.old ++ text.now ∷ []) }
        ensures err { OnErr result (self.new ≡ self.old) }
    {
        let kept = Text::from_bytes(self.alloc, text)?;
        self.texts.push(kept)?;
        self.block += text.len() + 5;
        Ok(())
    }

    /// The argument block for an address.
    pub fn block(&self, order: Order, place: u32) -> Piece
        requires { place + 4096 ≤ 2 ^ 32 }
        ensures block { result
            ≡ words_in_order order (addresses (place + 4 * (length self.now + 1)) self.now
            ++ 0 ∷ []) ++ texts_with_zeros self.now }
        ensures small { length result ≤ 4096 }
    {
        let mut block = Piece::new();
        push_addresses(&mut block, order, place, &self.texts);
        push_texts(&mut block, &self.texts);
        block
    }
}

/// Puts the addresses of the texts, which follow them, and a 0.
fn push_addresses(block: &mut Piece, order: Order, place: u32, texts: &Vec<Text>)
    requires empty { block.old ≡ [] }
    requires place { place + 4096 ≤ 2 ^ 32 }
    requires small { block_length texts.now.items ≤ 4096 }
    ensures block { block.new
        ≡ words_in_order order (addresses (place + 4 * (length texts.now.items + 1)) texts.now.items
        ++ 0 ∷ []) }
    ensures len { length block.new ≡ 4 * (length texts.now.items + 1) }
{
    let mut at = u64::from(place) + 4 * (texts.len() as u64 + 1);
    for text in texts {
        block.push_word(order, at as u32);
        at += text.as_bytes().len() as u64 + 1;
    }
    block.push_word(order, 0);
}

/// Puts the texts, each with a byte 0 after it.
fn push_texts(block: &mut Piece, texts: &Vec<Text>)
    requires { length block.old + length (texts_with_zeros texts.now.items) ≤ 4096 }
    ensures { block.new ≡ block.old ++ texts_with_zeros texts.now.items }
{
    for text in texts {
        block.extend(text.as_bytes());
        block.push(0);
    }
}
