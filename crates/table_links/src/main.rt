//! Prints the table of links with its answers: objects of a compiler, those of `data`, that are linked whole and changed. What must come of
//! them was worked out by another linker, which is tried against the GNU one (`data/build`).
#![tactic(auto)]

mod linked;
mod linking;
mod object;
mod program;
mod rows;
mod tally;

use nv_outside::FileShelf;
use rows::Rows;
use std::path::PathBuf;
use table_rows::print_answers;

fn main(rt: HostRuntime) -> anyhow::Result<()> {
    let alloc = rt.alloc();
    let folder = FileShelf::new(alloc, rt, PathBuf::from_str(alloc, "")?);
    print_answers(&rt, &mut Rows::new(folder))
}
