//! Prints the table of the guest's system with its answers: streams and shelves in memory and over std, the calls of a program, the files
//! and arguments that a system is given, and the blocks of a disk.
#![tactic(auto)]

mod disk_blocks;
mod given_files;
mod rows;
mod session;
mod std_streams;
mod streams;

use rows::Rows;
use table_rows::print_answers;

fn main(rt: HostRuntime) -> anyhow::Result<()> {
    print_answers(&rt, &mut Rows::new())
}
