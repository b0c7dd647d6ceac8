//! What holds of the bytes of code. Each call here does nothing: its contract is the law.
ghost use Rattle.emit_limits.specs.Laws.{ExitsKeepToTheirBytes, PiecesKeepToTheirBytes, UnitsKeepToTheirBytes};

/// The code of a unit keeps to the unit's bytes, at every address and whatever registers are in local variables.
pub fn unit_code_keeps_to_its_bytes()
    ensures { UnitsKeepToTheirBytes }
{}

/// So does the way from a unit.
pub fn exit_code_keeps_to_its_bytes()
    ensures { ExitsKeepToTheirBytes }
{}

/// The warm code of a piece keeps to the bytes of its units and of the registers that they read or write.
pub fn warm_code_keeps_to_its_bytes()
    ensures { PiecesKeepToTheirBytes }
{}
