//! Prints the table of whole calls of the program with its answers: what a call answers, prints and stores, over files, streams and failures
//! of the outside. The files are those of the table, and those of `data`: a class that was made by hand, guests in C of both orders of
//! bytes, the classes of a pipeline of two of them, and objects of a compiler.
#![tactic(auto)]

mod alike;
mod calls;
mod rows;
mod translations;

use nv_outside::FileShelf;
use rows::Rows;
use std::path::PathBuf;
use table_rows::print_answers;

fn main(rt: HostRuntime) -> anyhow::Result<()> {
    let alloc = rt.alloc();
    let folder = FileShelf::new(alloc, rt, PathBuf::from_str(alloc, "")?);
    print_answers(&rt, &mut Rows::new(alloc, folder))
}
