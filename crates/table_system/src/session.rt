//! A system with a memory of 8,192 bytes that may all be written, an input, two outputs and a shelf.
use crate::given_files::give;
use crate::std_streams::{push_got, push_written};
use crate::streams::Streams;
use anyhow::{Context, Result, bail, ensure};
use mips_memory::GuestMemory;
use nv_events::{Call, IoFault, View};
use nv_outside::{MemShelf, Shelf, ShelfError, Sink, Source};
use std::alloc::{AllocError, Global};
use std::fmt::Write;
use table_rows::{count, hex_of, long_count, rest, word};
use unix_calls::Unix;

/// A system beside its memory, which has `f` at 4096, `g` at 4104 and zeros, its input, its outputs, and a shelf without files.
#[derive(Drop)]
pub struct Session {
    unix: Unix,
    memory: GuestMemory,
    streams: Streams,
    shelf: MemShelf,
}

impl Session {
    /// A system of so many blocks at a moment, with arguments: `system BLOCKS MOMENT FAILS ROOM INPUT ARGUMENTS`. This call of input, of
    /// output and of the shelf fails, counted from 1; 0: none. Output has so much room. In the input `\n` is an end of line.
    pub fn new(alloc: Global, row: &str) -> Result<Session> {
        let unix = unix_of(alloc, row)?;
        let memory = memory(alloc)?;
        let streams = Streams::of_row(alloc, row)?;
        let shelf = shelf_of(alloc, long_count(row, 3))?;
        Ok(Session {
            unix,
            memory,
            streams,
            shelf,
        })
    }

    /// The answer to a row: `call NUMBER A0 A1 A2`, `name NUMBER`, `output`, `byte ADDRESS`; without the system, `read COUNT` of input and
    /// `write TEXT` to output; and of the shelf `add NAME TEXT`, `store NAME TEXT`, `load NAME` and `get NAME`.
    pub fn push_answer(&mut self, alloc: Global, text: &mut String, row: &str) -> Result<()> {
        match word(row, 0) {
            "call" => Ok(self.push_call(text, row)?),
            "name" => Ok(self.push_name(text, count(row, 1))?),
            "output" => push_hex(alloc, text, self.streams.out.bytes()),
            "byte" => self.push_byte(text, value(row, 1)),
            "read" => self.push_read(alloc, text, count(row, 1)),
            "write" => Ok(self.push_write(text, letters(word(row, 1)))?),
            "add" => self.push_add(text, word(row, 1), word(row, 2)),
            "store" => self.push_store(text, word(row, 1), word(row, 2)),
            "load" => self.push_load(alloc, text, word(row, 1)),
            "get" => self.push_file(alloc, text, word(row, 1)),
            _ => bail!("no such row"),
        }
    }

    fn push_call(&mut self, text: &mut String, row: &str) -> Result<(), AllocError> {
        let (a0, a1, a2) = (value(row, 2), value(row, 3), value(row, 4));
        push_value(text, self.serve(count(row, 1), a0, a1, a2))
    }

    fn serve(&mut self, number: u32, a0: u32, a1: u32, a2: u32) -> Result<i32, IoFault> {
        let call = Call {
            number,
            a0,
            a1,
            a2,
            a3: 0,
        };
        let Streams { source, out, err } = &mut self.streams;
        self.unix.serve(&call, &mut self.memory, source, out, err)
    }

    /// Opens a new file of a name by its number, 0 to 255, and closes it.
    fn push_name(&mut self, text: &mut String, number: u32) -> Result<(), AllocError> {
        let number = u8::try_from(number).unwrap_or(0);
        let _first = self.memory.put(4096, 1 + number / 16);
        let _second = self.memory.put(4097, 1 + number % 16);
        push_value(text, self.serve(2, 4096, 0x200, 0))?;
        text.push_str(", ")?;
        push_value(text, self.serve(3, 3, 0, 0))
    }

    fn push_byte(&self, text: &mut String, at: u32) -> Result<()> {
        let byte = self.memory.byte(at).context("no such byte")?;
        write!(text, "{byte}")?;
        Ok(())
    }

    /// What a read of at most three bytes gives, with the bytes of a buffer of three.
    fn push_read(&mut self, alloc: Global, text: &mut String, count: u32) -> Result<()> {
        let mut buffer = [0u8; 3];
        let part = buffer
            .get_mut(..count as usize)
            .context("there is no such room")?;
        let count = self.streams.source.read(part);
        push_got(alloc, text, count, &buffer)
    }

    fn push_write(&mut self, text: &mut String, letters: &str) -> Result<(), AllocError> {
        push_written(text, self.streams.out.write(letters.as_bytes()))
    }

    fn push_add(&mut self, text: &mut String, name: &str, bytes: &str) -> Result<()> {
        self.shelf.add(name, bytes.as_bytes())?;
        text.push('-')?;
        Ok(())
    }

    fn push_store(&mut self, text: &mut String, name: &str, bytes: &str) -> Result<()> {
        match self.shelf.store(name, bytes.as_bytes()) {
            Ok(()) => text.push('-')?,
            Err(ShelfError::Failed) => bail!("failed"),
            Err(ShelfError::NoMemory) => bail!("no memory"),
        }
        Ok(())
    }

    fn push_load(&mut self, alloc: Global, text: &mut String, name: &str) -> Result<()> {
        match self.shelf.load(alloc, name) {
            Ok(Some(bytes)) => push_hex(alloc, text, bytes.as_slice())?,
            Ok(None) => text.push('-')?,
            Err(ShelfError::Failed) => bail!("failed"),
            Err(ShelfError::NoMemory) => bail!("no memory"),
        }
        Ok(())
    }

    /// The bytes of a file as digits, or `-` where there are none.
    fn push_file(&self, alloc: Global, text: &mut String, name: &str) -> Result<()> {
        let bytes = self.shelf.get(name).unwrap_or(&[]);
        if bytes.is_empty() {
            text.push('-')?;
        }
        push_hex(alloc, text, bytes)
    }
}

fn push_value(text: &mut String, answer: Result<i32, IoFault>) -> Result<(), AllocError> {
    match answer {
        Ok(value) => write!(text, "{value}"),
        Err(IoFault::ReadFault) => text.push_str("read fault"),
        Err(IoFault::WriteFault) => text.push_str("write fault"),
    }
}

fn push_hex(alloc: Global, text: &mut String, bytes: &[u8]) -> Result<()> {
    let digits = hex_of(alloc, bytes)?;
    text.push_str(digits.as_str())?;
    Ok(())
}

/// The letters of a word; `-` has none.
pub fn letters(word: &str) -> &str {
    if word == "-" { "" } else { word }
}

/// A word in decimal digits, or in hexadecimal ones after `0x`.
fn value(row: &str, number: usize) -> u32 {
    match word(row, number).strip_prefix("0x") {
        Some(digits) => u32::from_str_radix(digits, 16).unwrap_or(0),
        None => count(row, number),
    }
}

fn shelf_of(alloc: Global, fails: u64) -> Result<MemShelf> {
    Ok(MemShelf::new(alloc, [fails].to_vec(alloc)?))
}

fn unix_of(alloc: Global, row: &str) -> Result<Unix> {
    let blocks = count(row, 1);
    ensure!(blocks <= 65_536, "no lawful disk");
    let mut unix = Unix::new(alloc, blocks, long_count(row, 2))?;
    for argument in rest(row, 6).split_whitespace() {
        ensure!(give(&mut unix, argument).is_ok(), "no lawful argument");
    }
    Ok(unix)
}

fn memory(alloc: Global) -> Result<GuestMemory> {
    let mut words = vec![in alloc; 0u32; 1024]?;
    let mut memory = GuestMemory::new(alloc, 2)?;
    map(&mut memory, 0, words.as_slice())?;
    words[0] = 0x6600_0000;
    words[2] = 0x6700_0000;
    map(&mut memory, 1, words.as_slice())?;
    Ok(memory)
}

fn map(memory: &mut GuestMemory, page: u32, words: &[u32]) -> Result<()> {
    let is_fresh = page < 2 && memory.byte(page << 12).is_none();
    ensure!(is_fresh && words.len() == 1024, "no page");
    memory.map_page(page, true, words)?;
    Ok(())
}
