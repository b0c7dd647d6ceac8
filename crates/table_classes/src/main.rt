//! Prints the table of classes with its answers: class files and their code, sets and links, and runs of the class machine.
#![tactic(auto)]

mod reading;
mod rows;
mod runs;
mod sets;

use rows::Rows;
use table_rows::print_answers;

fn main(rt: HostRuntime) -> anyhow::Result<()> {
    print_answers(&rt, &mut Rows)
}
