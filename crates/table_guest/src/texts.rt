//! Instructions and calls as texts.
use anyhow::Result;
use mips_decode::{Inst, decode, encode, print_inst};
use nv_events::{Call, places};
use std::alloc::{AllocError, Global};
use std::fmt::Write;

/// The text of a word at an address, the word that it is again, and what is no instruction.
pub fn inst_row(alloc: Global, text: &mut String, at: u32, word: u32) -> Result<()> {
    let inst = decode(word);
    let shown = print_inst(alloc, &inst, at)?;
    let (again, kind) = (encode(&inst), kind_of(&inst));
    write!(text, "{shown} = {again:08X}{kind}")?;
    Ok(())
}

fn kind_of(inst: &Inst) -> &'static str {
    match inst {
        Inst::Reserved(_) => ", reserved",
        Inst::Float(_) => ", floating point",
        _ => "",
    }
}

/// The texts and the room of the call of this number with the words 10, 20, 30 and 40.
pub fn places_row(text: &mut String, number: u32) -> Result<(), AllocError> {
    let found = places(&Call {
        number,
        a0: 10,
        a1: 20,
        a2: 30,
        a3: 40,
    });
    let (first, second, room) = (found.text, found.second, found.room);
    write!(text, "text {first:?}, second {second:?}, room {room:?}")
}
