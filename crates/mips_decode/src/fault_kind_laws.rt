//! What holds of the faults of the guest machine. Each call here does nothing: its contract is the law.

ghost use Rattle.run_definition.specs.Answer.{next_answer};
ghost use Rattle.mips_decode.specs.FaultKinds.{RunsFaultSo, TurnsFaultSo};

use nv_events::Server;

/// A turn of the guest machine that ends in a fault ends in one of the eleven kinds that the instructions have. So does each run, over lists of
/// answers and over every system.
pub fn faults_have_kinds<V: Server>()
    ensures turns { TurnsFaultSo }
    ensures answered { RunsFaultSo next_answer }
    ensures served { RunsFaultSo V.reply }
{}
