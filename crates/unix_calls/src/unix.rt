ghost use Rattle.std.specs.Prelude.{◌-◌, ◌≡◌, ◌≤◌, ◌<◌, ◌++◌, ◌∷◌, [], ℕ, List, Option, Some, IfOk, OnOk, OnErr, IsSome, Ok, Err, length, ◌≢◌, false, option_map};
ghost use Rattle.unix_definition.specs.Files.{blocks_for, bytes_at, node_named};
ghost use Rattle.unix_definition.specs.Calls.{block_length};
ghost use Rattle.unix_definition.specs.Unix.{blocks_needed};
ghost use Rattle.unix_calls.specs.Held.{Held, limited, with_args_held};
ghost use Rattle.unix_calls.specs.Sides.{console_of};
ghost use Rattle.unix_calls.specs.Starting.{held_at_start, Begins, BeginsLimited, IsFresh, IsOpenToFiles};

use crate::NoMemory;
use crate::args::{Args, LONGEST_BLOCK};
use crate::read_ahead::ReadAhead;
use crate::sides::{NONE, side_of};
use crate::unix_error::UnixError;
use nv_words::Order;
use std::alloc::Global;
use std::marker::Model;
use unix_files::Disk;
use unix_system::{Heap, Opened};

/// The system that answers a program's calls: files, descriptors, heap and arguments, and the input that was read ahead.
///
/// All memory is taken before the first call is served.
#[derive(Drop)]
pub struct Unix {
    pub(crate) disk: Disk,
    pub(crate) blocks: u32,
    pub(crate) opened: Opened,
    pub(crate) heap: Heap,
    pub(crate) args: Args,
    pub(crate) moment: u64,
    pub(crate) order: Order,
    /// How many bytes a read of input gives at most.
    pub(crate) most: u32,
    pub(crate) ahead: ReadAhead,
}

impl Model for Unix {
    ghost use Rattle.std.specs.Prelude.{◌≤◌};
    ghost use Rattle.unix_calls.specs.Held.{Held};

    ghost Value = { Held };

    ghost view = { λ u. record {
      files = u.disk;
      blocks = u.blocks;
      opened = u.opened;
      heap = u.heap;
      args = u.args;
      moment = u.moment;
      order = u.order;
      most = u.most;
      ahead = u.ahead;
    } };

    ghost invariant = { λ u. (u.heap.program_break ≤ u.heap.end) × (u.heap.end ≤ 0x7FFFFFFF)
        × (u.blocks ≤ 65536) };
}

impl Unix {
    /// A system without files and arguments, with so many blocks of 4,096 bytes for files, at a moment in seconds since
    /// 1970.
    pub fn new(alloc: Global, blocks: u32, moment: u64) -> Result<Unix, NoMemory>
        requires { blocks ≤ 65536 }
        ensures { IfOk result (λ unix. Begins unix blocks moment [] []) }
    {
        let disk = Disk::new(alloc, blocks)?;
        Ok(Unix {
            disk,
            blocks,
            opened: Opened::first(),
            heap: no_heap(),
            args: Args::new(alloc),
            moment,
            order: Order::Big,
            most: u32::MAX,
            ahead: ReadAhead::new(),
        })
    }

    /// Adds a file. It takes no memory, and changes nothing where it answers an error.
    ///
    /// # Errors
    ///
    /// `FilesTooLarge` where the files so far need more blocks with this one than there are.
    pub fn add_file(&mut self, name: &[u8], bytes: &[u8]) -> Result<(), UnixError>
        requires begins { IsOpenToFiles self.old }
        requires short { length name.now ≤ 255 }
        ensures added { (most blocks moment : ℕ) (files : List (List ℕ × List ℕ))
            (args : List (List ℕ)) → BeginsLimited most self.old blocks moment files args
            → OnOk result (BeginsLimited most self.new blocks moment
            (files ++ (name.now, bytes.now) ∷ []) args) }
        ensures unchanged { OnErr result (self.new ≡ self.old) }
        ensures too_large { (most blocks moment : ℕ) (files : List (List ℕ × List ℕ))
            (args : List (List ℕ)) → BeginsLimited most self.old blocks moment files args
            → OnErr result
            ((result ≡ Err (UnixError.FilesTooLarge
            (blocks_needed (files ++ (name.now, bytes.now) ∷ []))))
            × (blocks < blocks_needed (files ++ (name.now, bytes.now) ∷ []))) }
    {
        let needed = self.used_blocks() + blocks_of(bytes);
        if needed > u64::from(self.blocks) {
            return Err(UnixError::FilesTooLarge(needed));
        }
        let Some(n) = self.disk.unused() else {
            unreachable!()
        };
        self.disk.set_name(n, name);
        self.disk.write(n, 0, bytes);
        Ok(())
    }

    /// From now on a read of input gives at most `most` bytes, and the tests of a read stay as they are.
    pub fn limit_reads(&mut self, most: u32)
        requires some { 1 ≤ most }
        requires fresh { IsFresh self.old }
        ensures { self.new ≡ limited self.old most }
    {
        self.most = most;
    }

    /// The side of the console that a descriptor stands for, as `sides` numbers them.
    pub fn console(&self, fd: u32) -> u32
        ensures { result ≡ console_of self.now.opened fd }
    {
        match self.opened.at(fd) {
            Some((_, description)) => side_of(description.target),
            None => NONE,
        }
    }

    /// The bytes of input that were read ahead, and not yet given to the program.
    pub fn ahead(&self) -> &[u8]
        ensures { result.now ≡ self.now.ahead }
    {
        self.ahead.bytes()
    }

    /// The bytes of the file of this name, in memory of their own. `None` exactly if there is no such file, and then
    /// no memory is taken.
    pub fn file(&self, alloc: Global, name: &[u8]) -> Result<Option<Vec<u8>>, NoMemory>
        ensures found { IfOk result (λ found. option_map (λ bytes. bytes.items) found
            ≡ option_map (bytes_at self.now.files) (node_named self.now.files name.now)) }
        ensures there { OnErr result (IsSome (node_named self.now.files name.now)) }
    {
        match self.disk.named(name) {
            Some(n) => Ok(Some(self.disk.bytes(alloc, n)?)),
            None => Ok(None),
        }
    }

    /// At most 4,096 bytes are read ahead. It does nothing.
    pub(crate) fn is_short_ahead(&self)
        ensures { length self.now.ahead ≤ 4096 }
    {
        self.ahead.is_short();
    }

    /// How many blocks files use.
    fn used_blocks(&self) -> u64
        requires { self.now.files.free ≤ self.now.blocks }
        ensures { result ≡ self.now.blocks - self.now.files.free }
    {
        u64::from(self.blocks) - u64::from(self.disk.free())
    }

    /// Adds an argument. It changes nothing where it answers an error.
    ///
    /// # Errors
    ///
    /// `ArgsTooLong` where the argument block would have more than 4,096 bytes, and `NoMemory`.
    pub fn add_arg(&mut self, text: &str) -> Result<(), UnixError>
        ensures added { (most blocks moment : ℕ) (files : List (List ℕ × List ℕ))
            (args : List (List ℕ)) → BeginsLimited most self.old blocks moment files args
            → OnOk result
            (BeginsLimited most self.new blocks moment files (args ++ text.now ∷ [])) }
        ensures only_args { OnOk result
            (self.new ≡ with_args_held self.old (self.old.args ++ text.now ∷ [])) }
        ensures unchanged { OnErr result (self.new ≡ self.old) }
        ensures fits { OnOk result (block_length (self.old.args ++ text.now ∷ []) ≤ 4096) }
        ensures too_long { (n : ℕ) → result ≡ Err (UnixError.ArgsTooLong n)
            → (n ≡ block_length (self.old.args ++ text.now ∷ [])) × (4096 < n) }
        ensures no_file_error { (n : ℕ) → result ≢ Err (UnixError.FilesTooLarge n) }
    {
        let bytes = text.as_bytes();
        let block = self.args.block_with(bytes);
        if block > LONGEST_BLOCK as u64 {
            return Err(UnixError::ArgsTooLong(block));
        }
        match self.args.push(bytes) {
            Ok(()) => Ok(()),
            Err(_) => Err(UnixError::NoMemory),
        }
    }
}

/// The heap before the program began.
fn no_heap() -> Heap
    ensures { result ≡ record { begun = false; start = 0; end = 0; program_break = 0 } }
{
    Heap {
        begun: false,
        start: 0,
        end: 0,
        program_break: 0,
    }
}

/// How many blocks these bytes need.
fn blocks_of(bytes: &[u8]) -> u64
    ensures { result ≡ blocks_for (length bytes.now) }
{
    (bytes.len() as u64 + 4095) / 4096
}
