//! How many bytes code has.
ghost use Rattle.std.specs.Prelude.{◌≡◌, ◌^◌, nat_lt, if◌then◌else◌};
ghost use Rattle.emit_steps.specs.Widths as widths;

use crate::step::Step;
use crate::widths::instruction_width;
use jvm_definition::TableSwitch;

/// The number of bytes of all steps, if it is below 2^32.
pub fn code_size(code: &[Step]) -> Option<u32>
    ensures { result ≡ (if nat_lt (widths.size code.now) (2 ^ 32) then Some (widths.size code.now)
        else None) }
{
    let mut size: u32 = 0;
    for step in code {
        size = size.checked_add(small_width(step)?)?;
    }
    Some(size)
}

// The number of bytes of a step, where it is below 2^32.
fn small_width(step: &Step) -> Option<u32>
    ensures { result ≡ (if nat_lt (widths.width step.now) (2 ^ 32) then Some (widths.width step.now)
        else None) }
{
    match step {
        Step::Does(instruction) => Some(instruction_width(instruction)),
        Step::Skips(_, _) => Some(3),
        Step::Leaves(_) => Some(5),
        Step::Selects(switch) => switch_width(switch),
    }
}

fn switch_width(switch: &TableSwitch) -> Option<u32>
    ensures { let wide = widths.width (Step.Selects switch.now) in
        result ≡ (if nat_lt wide (2 ^ 32) then Some wide else None) }
{
    let bytes = 13 + 4 * switch.targets.as_slice().len() as u64;
    u32::try_from(bytes).ok()
}
