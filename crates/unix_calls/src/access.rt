//! What is before a read or a write.

ghost use Rattle.std.specs.Prelude.{◌≡◌, Some};
ghost use Rattle.run_definition.specs.Question.{room_at, asked_text_at};
ghost use Rattle.run_definition.specs.declared.text_place.TextPlace.TheVariants.{Counted};
ghost use Rattle.unix_calls.specs.Access.{MayRead, MayWrite};

use nv_events::{Call, View, has_room, is_readable};
use unix_system::errors::{BAD_ADDRESS, BAD_DESCRIPTOR, INVALID};
use unix_system::{Description, Opened};

/// The numbers of bytes from here on are refused.
const TOO_MANY: u32 = 0x8000_0000;

/// Whether a read or a write goes on.
#[derive(Clone, Copy, Debug, PartialEq, Eq)]
pub enum Access {
    /// The call is answered at once.
    Answered(i32),
    /// It goes on with a description, which has this number.
    Granted(usize, Description),
}

/// The tests of a read: of the descriptor, of the number of bytes, of the room.
pub fn may_read<M: View>(opened: &Opened, call: &Call, view: &M) -> Access
    ensures { MayRead opened.now (M.memory (M.content view.now)) call.now result }
{
    let Some((d, description)) = opened.at(call.a0) else {
        return Access::Answered(BAD_DESCRIPTOR);
    };
    if !description.may_read {
        return Access::Answered(BAD_DESCRIPTOR);
    }
    if call.a2 >= TOO_MANY {
        return Access::Answered(INVALID);
    }
    if call.a2 == 0 {
        return Access::Answered(0);
    }
    if !has_room(view, call.a1, call.a2) {
        return Access::Answered(BAD_ADDRESS);
    }
    Access::Granted(d, description)
}

/// The tests of a write: of the descriptor, of the number of bytes, of the bytes.
pub fn may_write<M: View>(opened: &Opened, call: &Call, view: &M) -> Access
    ensures { MayWrite opened.now (M.memory (M.content view.now)) call.now result }
{
    let Some((d, description)) = opened.at(call.a0) else {
        return Access::Answered(BAD_DESCRIPTOR);
    };
    if !description.may_write {
        return Access::Answered(BAD_DESCRIPTOR);
    }
    if call.a2 >= TOO_MANY {
        return Access::Answered(INVALID);
    }
    if call.a2 == 0 {
        return Access::Answered(0);
    }
    if !is_readable(view, call.a1, call.a2) {
        return Access::Answered(BAD_ADDRESS);
    }
    Access::Granted(d, description)
}
