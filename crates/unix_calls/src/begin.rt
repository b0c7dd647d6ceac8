//! The call by which a program begins.

ghost use Rattle.std.specs.Prelude.{◌≡◌, ◌≤◌, Some, IsTrue, true};
ghost use Rattle.run_definition.specs.Memory.{can_write};
ghost use Rattle.run_definition.specs.Question.{room_at};
ghost use Rattle.unix_definition.specs.System.{System};
ghost use Rattle.unix_definition.specs.Asked.{order_of_number};
ghost use Rattle.unix_definition.specs.Calls.{begin};
ghost use Rattle.unix_system.specs.Serving.{Gives};
ghost use Rattle.unix_calls.specs.Beginning.{with_args, PutsBlock, block_of};

use crate::args::Args;
use nv_events::{Call, View, has_room};
use nv_words::Order;
use unix_system::Heap;
use unix_system::errors::{BAD_ADDRESS, INVALID};
use unix_system::guest::put_bytes;

/// The highest address of a program, and the most bytes of its heap.
const HIGHEST: u64 = 0x7FFF_FFFF;

/// Puts the argument block into the program's memory, where the room for it has `size` bytes, in the order of bytes
/// that the call names, and sets the heap up.
pub fn begin<M: View>(
    heap: &mut Heap,
    args: &Args,
    order: &mut Order,
    call: &Call,
    size: u32,
    view: &mut M,
) -> i32
    requires within { (heap.old.program_break ≤ heap.old.end) × (heap.old.end ≤ 0x7FFFFFFF) }
    requires size { 4096 ≤ size }
    ensures call { (s : System)
        → Gives M.put_at (M.content view.old) (M.content view.new)
        (room_at (M.memory (M.content view.old)) (Some (call.now.a0, size))) result
        (with_args s order.new args.now heap.new)
        (begin (with_args s order.old args.now heap.old)
        call.now.a0 call.now.a1 call.now.a2 call.now.a3
        (room_at (M.memory (M.content view.old)) (Some (call.now.a0, size)))) }
    ensures within { (heap.new.program_break ≤ heap.new.end) × (heap.new.end ≤ 0x7FFFFFFF) }
{
    if heap.begun {
        return INVALID;
    }
    let end = u64::from(call.a1) + u64::from(call.a2);
    if end > HIGHEST || call.a3 > 1 {
        return INVALID;
    }
    if !has_room(view, call.a0, size) {
        return BAD_ADDRESS;
    }
    *order = order_of_number(call.a3);
    put_block(args, *order, call.a0, size, view);
    *heap = heap_at(call.a1, end as u32);
    args.count() as i32
}

/// The order of bytes that the call names.
fn order_of_number(n: u32) -> Order
    ensures { result ≡ order_of_number n }
{
    if n == 1 { Order::Little } else { Order::Big }
}

/// The heap as a program finds it.
fn heap_at(start: u32, end: u32) -> Heap
    ensures { result ≡ record { begun = true; start = start; end = end; program_break = start } }
{
    Heap {
        begun: true,
        start,
        end,
        program_break: start,
    }
}

/// Puts the argument block where there is room for it.
fn put_block<M: View>(args: &Args, order: Order, place: u32, size: u32, view: &mut M)
    requires room { IsTrue (can_write (M.memory (M.content view.old)) place size) }
    requires size { 4096 ≤ size }
    ensures { PutsBlock M.put_at (M.content view.old) (M.content view.new) place
        (block_of order args.now place) }
{
    view.laws();
    let block = args.block(order, place);
    put_bytes(view, place, block.as_slice());
}
