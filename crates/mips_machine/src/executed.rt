/// What an instruction did, apart from where the program goes next.
#[derive(Clone, Copy)]
pub(crate) enum Executed {
    /// It changed registers, HI, LO, memory or the link of LL, and the program goes on.
    On,
    /// A branch: after the slot the program goes to the target, and the address after the slot is for a register.
    Branch { target: u32, link: Option<u8> },
    /// A likely branch that is not taken: the program goes on after the slot, whose address is for a register.
    Skip { link: Option<u8> },
    /// A fault, of a kind and with a value.
    Fault { kind: u32, value: u32 },
    /// A call of the system.
    Call,
}
