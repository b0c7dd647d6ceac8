//! The program's memory, as calls read it and write it.

ghost use Rattle.std.specs.Prelude.{◌≡◌, ◌≤◌, ◌<◌, ◌+◌, ◌^◌, IsTrue, IsSome, Some, length, nat_lt};
ghost use Rattle.std.specs.List.{list_all};
ghost use Rattle.run_definition.specs.Memory.{can_write, patched, bytes_from};

use crate::path::byte_at;
use crate::piece::Piece;
use nv_events::View;

/// Puts the bytes one after the other from an address on.
pub fn put_bytes<M: View>(view: &mut M, place: u32, bytes: &[u8])
    requires { IsTrue (can_write (M.memory (M.content view.old)) place (length bytes.now)) }
    ensures after { M.content view.new ≡ patched M.put_at (M.content view.old) place bytes.now }
    ensures small { IsTrue (list_all (λ x. nat_lt x 256) bytes.now) }
{
    view.laws();
    for (i, b) in bytes.iter().enumerate() {
        view.put(place + i as u32, *b);
    }
}

/// So many bytes, at most 4,096, from the address that lies `skip` past another one. All of them can be read.
pub fn read_piece<M: View>(view: &M, at: u32, skip: u32, size: u32) -> Piece
    requires small { size ≤ 4096 }
    requires fits { skip + size < 2 ^ 32 }
    requires readable { IsSome (bytes_from (M.memory (M.content view.now)) (at + skip) size) }
    ensures { bytes_from (M.memory (M.content view.now)) (at + skip) size ≡ Some result }
{
    let mut piece = Piece::new();
    for i in 0..size {
        let Some(b) = byte_at(view, at, skip + i) else {
            unreachable!()
        };
        piece.push(b);
    }
    piece
}
