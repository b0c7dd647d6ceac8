use mips_decode::Inst;

/// What happens when a word of code is entered with no branch pending (MIPS II: a branch or jump takes effect after the
/// instruction that follows it, which is in its delay slot).
#[derive(Clone, Copy, PartialEq, Eq)]
pub enum Unit {
    /// An instruction that is done alone. The program goes on with the next word, or the instruction faults.
    Plain(Inst),
    /// A branch or jump and a copy of the instruction in its delay slot, which is no branch or jump. The slot may be a SYSCALL, a
    /// BREAK or a reserved word. Here and in the next two, a likely branch that is not taken goes on after its slot.
    Branch { inst: Inst, slot: Inst },
    /// A branch or jump that is the last word of its range. It writes its link, and then no word is in its delay slot.
    SlotMissing(Inst),
    /// A branch or jump with a branch or jump in its delay slot, which is the given word and faults.
    SlotIsBranch { inst: Inst, word: u32 },
    /// SYSCALL: a call of the system.
    Call,
    /// A fault of kind 8 (BREAK) with the code of the instruction, or of kind 9 (reserved) with the word.
    Trap { kind: u32, value: u32 },
}
