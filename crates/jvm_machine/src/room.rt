ghost use Rattle.jvm_machine.specs.Rooms.{IsRoomFor};

use jvm_definition::LinkedMethod;
use jvm_steps::named_locals;

/// How many local variables and operands a frame needs to have room for.
#[derive(Clone, Copy)]
pub(crate) struct Room {
    pub(crate) locals: u16,
    pub(crate) operands: u16,
}

/// Room for a frame of each of some methods.
pub(crate) fn room_for(methods: &[LinkedMethod]) -> Room
    ensures { IsRoomFor result.locals result.operands methods.now }
{
    let mut locals = 0;
    let mut operands = 0;
    for method in methods {
        locals = named_locals(method).max(locals);
        operands = method.stack.max(operands);
    }
    Room { locals, operands }
}
