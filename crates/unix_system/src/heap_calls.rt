//! The call on the heap.
ghost use Rattle.std.specs.Prelude.{◌≡◌, ◌≤◌};
ghost use Rattle.unix_definition.specs.System.{System, system_with_heap};
ghost use Rattle.unix_definition.specs.Asked.{value_only};
ghost use Rattle.unix_definition.specs.Calls.{sbrk};

use crate::errors::NO_HEAP;
use nv_words::signed;
use unix_definition::Heap;

/// Moves the program break by a signed number of bytes, and answers the old one.
pub fn sbrk(heap: &mut Heap, delta: u32) -> i32
    requires within { heap.old.program_break ≤ heap.old.end }
    requires small { heap.old.end ≤ 0x7FFFFFFF }
    ensures call { (s : System) → sbrk (system_with_heap s heap.old) delta
        ≡ (value_only result, system_with_heap s heap.new) }
    ensures within { heap.new.program_break ≤ heap.new.end }
    ensures end { heap.new.end ≡ heap.old.end }
{
    let old = heap.program_break;
    let new = i64::from(old) + i64::from(signed(delta));
    if new < i64::from(heap.start) || i64::from(heap.end) < new {
        return NO_HEAP;
    }
    heap.program_break = new as u32;
    old as i32
}
