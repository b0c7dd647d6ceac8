//! Floating-point instructions among the words of a program.
ghost use Rattle.std.specs.Prelude.{◌≡◌, ◌+◌, ◌*◌, ◌%◌, ◌^◌, ◌<◌, All, IfSome};
ghost use Rattle.elf_definition.specs.Check.{least_below};
ghost use Rattle.elf_definition.specs.declared.range.Range.{Range};
ghost use Rattle.elf_definition.specs.Content.{stored_code_word};
ghost use Rattle.mips_definition.specs.Table.{is_float};
ghost use Rattle.elf_definition.specs.ImageFault.{float_in, first_float};

use crate::page_table::PageTable;
use elf_reader::Range;
use mips_decode::is_float;

/// Which word of a range is its first floating-point instruction.
#[tactic(auto, using(crate::proofs::Counting::least_none, crate::proofs::Counting::least_more, crate::proofs::Counting::least_found))]
fn float_word(table: &PageTable, range: Range) -> Option<u32>
    requires { range.first % 4 ≡ 0 }
    ensures value { result
        ≡ least_below (λ k.
        is_float (stored_code_word table.now.file.bytes table.now.segments.value.items
        (range.first + 4 * k))) range.words }
    ensures bound { IfSome result (λ k. k < 2 ^ 32) }
{
    for k in 0..range.words {
        let at = u64::from(range.first) + 4 * u64::from(k);
        if is_float(table.code_word(at)) {
            return Some(k);
        }
    }
    None
}

/// The address of the first floating-point instruction of a range.
fn float_in(table: &PageTable, range: Range) -> Option<u64>
    requires { range.first % 4 ≡ 0 }
    ensures value { result ≡ float_in table.now.file.bytes table.now.segments.value.items range }
    ensures even { IfSome result (λ at. at % 4 ≡ 0) }
{
    let k = float_word(table, range)?;
    Some(u64::from(range.first) + 4 * u64::from(k))
}

/// The address of the first floating-point instruction of ranges that rise.
pub fn first_float(table: &PageTable, code: &[Range]) -> Option<u64>
    requires { All (λ r. r.first % 4 ≡ 0) code.now }
    ensures value { result
        ≡ first_float table.now.file.bytes table.now.segments.value.items code.now }
    ensures even { IfSome result (λ at. at % 4 ≡ 0) }
{
    for range in code {
        if let Some(at) = float_in(table, *range) {
            return Some(at);
        }
    }
    None
}
