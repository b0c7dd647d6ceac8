//! What is read of written files. No call here changes anything: its contract is the law.

ghost use Rattle.std.specs.Prelude.{◌≡◌, ℕ, ◌≤◌, true, List, [], ◌∷◌, All, None, length, map, IfErr, IfOk};
ghost use Rattle.run_definition.specs.declared.order.Order.TheVariants.{Big};
ghost use Rattle.elf_definition.specs.Area.{code_ranges};
ghost use Rattle.elf_definition.specs.Check.{fails};
ghost use Rattle.elf_definition.specs.Fault.{elf_fault};
ghost use Rattle.elf_reader.specs.Answer.{IsAnswer};
ghost use Rattle.elf_definition.specs.Header.{header_of, order_of};
ghost use Rattle.elf_definition.specs.Segments.{live};
ghost use Rattle.elf_definition.specs.FileFields.{words};
ghost use Rattle.elf_definition.specs.File.{elf_file};
ghost use Rattle.elf_writer.specs.Limits.{IsWritable};
ghost use Rattle.elf_writer.specs.ReadBack.{HasWords};
ghost use Rattle.elf_definition.specs.Parts.{part_segment};
ghost use Rattle.mips_asm.specs.File.{IsAssembled, segments_of};
ghost use Rattle.mips_asm.specs.Program.{asm_fault, data_words, text_words};
ghost use Rattle.mips_asm_laws.specs.Reading.{contents_in, with_memory};

use elf_reader::{Elf, ElfError, read_elf};
use elf_writer::{Part, Parts};
use std::alloc::Global;

/// The fields of parts have 32 bits, by their types. It looks at each part once.
pub fn parts_have_words(parts: &[Part])
    ensures { All HasWords parts.now }
{
    let mut rest = parts;
    while let Some((part, others)) = rest.split_first() {
        part_has_words(part);
        rest = others;
    }
}

fn part_has_words(part: &Part)
    ensures { HasWords part.now }
{
    let _vaddr = part.vaddr;
    let _mem = part.mem;
    let _flags = part.flags;
}

/// A written file holds the entry and, as its live segments, the parts that have memory: each with its address, its flags, its
/// length in memory and its bytes. Its numbers are big-endian.
#[tactic(auto, using(crate::proofs::Contents::parts_read))]
pub fn parts_are_held(parts: &Parts)
    requires { IsWritable parts.now }
    ensures entry { (header_of (elf_file parts.now)).e_entry ≡ parts.now.entry }
    ensures order { order_of (elf_file parts.now) ≡ Big }
    ensures segments { contents_in (elf_file parts.now) (live (elf_file parts.now))
        ≡ with_memory (map part_segment parts.now.segments.items) }
{
    let _entry = parts.entry;
    parts_have_words(parts.segments.as_slice());
}

/// What `read_elf` gives for a written file: what it was written of.
///
/// # Errors
/// `Refused` with the first check that the file fails, since parts may be wrong; `NoMemory` where there is no memory for its tables.
pub fn read_written<'a>(alloc: Global, parts: &Parts, file: &'a [u8]) -> Result<Elf<'a>, ElfError>
    requires writable { IsWritable parts.now }
    requires written { file.now ≡ elf_file parts.now }
    ensures refused { IfErr result (IsAnswer (elf_fault file.now)) }
    ensures entry { IfOk result (λ elf. elf.entry ≡ parts.now.entry) }
    ensures order { IfOk result (λ elf. elf.order ≡ Big) }
    ensures segments { IfOk result (λ elf. contents_in file.now elf.segments.items
        ≡ with_memory (map part_segment parts.now.segments.items)) }
{
    parts_are_held(parts);
    read_elf(alloc, file)
}

/// The file of a text without a fault passes every check where its text segment has a word. If that has none, the file has no
/// code, and fails no check before that one.
pub fn assembled_files_pass()
    ensures passes { (text file : List ℕ) → asm_fault text ≡ None → 1 ≤ length (text_words text)
        → IsAssembled text file → elf_fault file ≡ None }
    ensures no_code { (text file : List ℕ) → asm_fault text ≡ None → text_words text ≡ []
        → IsAssembled text file → elf_fault file ≡ fails 21 true }
{}

/// The file of a text without a fault begins with the text, and its live segments are the text and the data, if there are any:
/// each with its address, its flags, its length and its words. Its numbers are big-endian. Its code is the text, if it has a word.
pub fn assembled_files_hold_their_programs()
    ensures entry { (text file : List ℕ) → IsAssembled text file
        → (header_of file).e_entry ≡ 0x00400000 }
    ensures order { (text file : List ℕ) → IsAssembled text file → order_of file ≡ Big }
    ensures segments { (text file : List ℕ) → asm_fault text ≡ None → IsAssembled text file
        → contents_in file (live file)
        ≡ with_memory (segments_of (words (text_words text)) (words (data_words text))) }
    ensures code { (text file : List ℕ) → asm_fault text ≡ None → 1 ≤ length (text_words text)
        → IsAssembled text file → code_ranges file
        ≡ record { first = 0x00400000; words = length (text_words text) } ∷ [] }
{}
