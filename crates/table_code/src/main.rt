//! Prints the table of code with its answers: constant pools as they are read and made, the types of methods, code that is cut into methods,
//! and steps that are assembled.
#![tactic(auto)]

mod emitted;
mod pools;
mod rows;
mod spans;
mod typings;

use rows::Rows;
use table_rows::print_answers;

fn main(rt: HostRuntime) -> anyhow::Result<()> {
    print_answers(&rt, &mut Rows)
}
