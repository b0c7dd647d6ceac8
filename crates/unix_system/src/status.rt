//! The call that tells what a descriptor stands for.

ghost use Rattle.std.specs.Prelude.{◌≡◌, ◌∷◌, [], Some, length};
ghost use Rattle.run_definition.specs.Question.{room_at};
ghost use Rattle.unix_definition.specs.System.{System, system_with_tables, with_order};
ghost use Rattle.unix_definition.specs.Calls.{fstat, file_words};
ghost use Rattle.unix_definition.specs.Opened.{node_of};
ghost use Rattle.unix_definition.specs.Asked.{words_in_order};
ghost use Rattle.unix_system.specs.Serving.{Gives};

use crate::errors::{BAD_ADDRESS, BAD_DESCRIPTOR};
use crate::guest::put_bytes;
use crate::piece::Piece;
use nv_events::{View, has_room};
use nv_words::Order;
use unix_definition::{Opened, Target};
use unix_files::{BLOCK, Disk, blocks_for};

/// Puts four words on what a descriptor stands for into the program's memory.
pub fn fstat<M: View>(
    disk: &Disk,
    opened: &Opened,
    order: Order,
    fd: u32,
    place: u32,
    view: &mut M,
) -> i32
    ensures { (s : System)
        → Gives M.put_at (M.content view.old) (M.content view.new)
        (room_at (M.memory (M.content view.old)) (Some (place, 16))) result
        (with_order (system_with_tables s disk.now opened.now) order)
        (fstat (with_order (system_with_tables s disk.now opened.now) order) fd
        (room_at (M.memory (M.content view.old)) (Some (place, 16)))) }
{
    let Some((_, description)) = opened.at(fd) else {
        return BAD_DESCRIPTOR;
    };
    if !has_room(view, place, 16) {
        return BAD_ADDRESS;
    }
    let patch = status_of(disk, description.target, order);
    put_bytes(view, place, patch.as_slice());
    0
}

/// The kind, the length, the blocks and the size of a block.
fn status_of(disk: &Disk, target: Target, order: Order) -> Piece
    ensures value { result ≡ words_in_order order (file_words disk.now (node_of target)) }
    ensures size { length result ≡ 16 }
{
    let mut patch = Piece::new();
    match target {
        Target::File(n) => {
            let size = disk.size(n);
            push_words(&mut patch, order, 1, size, blocks_for(size));
        }
        _ => push_words(&mut patch, order, 2, 0, 0),
    }
    patch
}

fn push_words(patch: &mut Piece, order: Order, kind: u32, size: u32, blocks: u32)
    requires { patch.old ≡ [] }
    ensures value { patch.new ≡ words_in_order order (kind ∷ size ∷ blocks ∷ 4096 ∷ []) }
    ensures size { length patch.new ≡ 16 }
{
    patch.push_word(order, kind);
    patch.push_word(order, size);
    patch.push_word(order, blocks);
    patch.push_word(order, BLOCK);
}
