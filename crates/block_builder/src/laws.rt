//! What holds of the registers of instructions. Each call here does nothing: its contract is the law.
ghost use Rattle.block_builder.specs.Laws.{InstructionsChangeWhatTheyWrite, InstructionsGoByWhatTheyRead, SetsHaveTheirBits};

/// An instruction changes only the registers that it writes. In two states that differ at most in registers, and hold the same in
/// those that it reads, it does the same: it goes on, faults, calls or leaves alike, and where it goes on, the registers that it
/// writes hold the same.
pub fn instructions_keep_to_their_registers()
    ensures writes { InstructionsChangeWhatTheyWrite }
    ensures reads { InstructionsGoByWhatTheyRead }
{}

/// A set of registers has the bits of its registers, but for register 0, and no others.
pub fn register_sets_have_their_bits()
    ensures { SetsHaveTheirBits }
{}
