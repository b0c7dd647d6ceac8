//! Where steps are.
ghost use Rattle.std.specs.Prelude.{◌≡◌, ◌<◌, ◌∷◌, length};
ghost use Rattle.std.specs.List.{list_all};
ghost use Rattle.emit_assembly.specs.Operations.{AreEnds};
ghost use Rattle.emit_assembly.specs.Operations as operations;

use emit_steps::Step;
use jvm_definition::TableSwitch;

/// Whether a step is at an offset, where the offset after each step is known.
pub fn is_start(code: &[Step], ends: &[u32], target: u32) -> bool
    requires some { 0 < length code.now }
    requires ends { AreEnds code.now ends.now }
    ensures { result ≡ operations.is_start code.now target }
{
    match ends.binary_search(&target) {
        Ok(k) => k + 1 < code.len(),
        Err(_) => target == 0,
    }
}

/// Whether a step is at each target of a switch.
pub fn are_starts(code: &[Step], ends: &[u32], switch: &TableSwitch) -> bool
    requires some { 0 < length code.now }
    requires ends { AreEnds code.now ends.now }
    ensures { result ≡ list_all (operations.is_start code.now)
        (switch.now.default ∷ switch.now.targets) }
{
    is_start(code, ends, switch.default) && all_start(code, ends, switch.targets.as_slice())
}

fn all_start(code: &[Step], ends: &[u32], targets: &[u32]) -> bool
    requires some { 0 < length code.now }
    requires ends { AreEnds code.now ends.now }
    ensures { result ≡ list_all (operations.is_start code.now) targets.now }
{
    targets.iter().all(|target| is_start(code, ends, *target))
}
