//! A patch of bytes, and the room of a call that it is put into.

ghost use Rattle.std.specs.Prelude.{◌≡◌, ℕ, Some, None, Option, IsTrue, length};
ghost use Rattle.run_definition.specs.Memory.{can_write, patched};
ghost use Rattle.run_definition.specs.Question.{room_at};
ghost use Rattle.run_definition.specs.Answer.{fits_room, room_place};

use crate::ranges::has_room;
use crate::view::View;

/// Whether a patch is empty, or its room is there and no shorter.
pub fn fits<V: View>(patch: &[u8], room: Option<(u32, u32)>, view: &V) -> bool
    ensures { result ≡ fits_room patch.now (room_at (V.memory (V.content view.now)) room) }
{
    if patch.is_empty() {
        return true;
    }
    match room {
        Some((place, size)) => patch.len() <= size as usize && has_room(view, place, size),
        None => false,
    }
}

/// Puts the bytes one after the other from an address on.
fn put_all<V: View>(patch: &[u8], place: u32, view: &mut V)
    requires { IsTrue (can_write (V.memory (V.content view.old)) place (length patch.now)) }
    ensures { V.content view.new ≡ patched V.put_at (V.content view.old) place patch.now }
{
    view.laws();
    for (i, b) in patch.iter().enumerate() {
        view.put(place + i as u32, *b);
    }
}

/// Puts a patch into the room that it fits.
pub fn lay<V: View>(patch: &[u8], room: Option<(u32, u32)>, view: &mut V)
    requires { IsTrue (fits_room patch.now (room_at (V.memory (V.content view.old)) room)) }
    ensures { V.content view.new
        ≡ patched V.put_at (V.content view.old)
        (room_place (room_at (V.memory (V.content view.old)) room)) patch.now }
{
    if let Some((place, _)) = room {
        put_all(patch, place, view);
    }
}
