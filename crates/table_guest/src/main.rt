//! Prints the table of the guest with its answers: ELF files that are read and written, images, and assembly texts; numbers in bytes,
//! instructions and their texts, units, blocks, and runs of the machine.
#![tactic(auto)]

mod assembly;
mod blocks;
mod elf_files;
mod images;
mod machines;
mod numbers;
mod rows;
mod texts;

use rows::Rows;
use table_rows::print_answers;

fn main(rt: HostRuntime) -> anyhow::Result<()> {
    print_answers(&rt, &mut Rows)
}
