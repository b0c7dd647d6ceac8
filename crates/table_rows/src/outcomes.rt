//! How runs of machines end.
use anyhow::Result;
use nv_events::Outcome;
use std::alloc::Global;

/// An end as text, as `exited 7` or `fault 9 pc 00400000 value FC000000`.
///
/// # Errors
/// Out of memory.
pub fn outcome_text(alloc: Global, outcome: Outcome) -> Result<String> {
    Ok(match outcome {
        Outcome::Exited(status) => format!(in alloc; "exited {status}")?,
        Outcome::Faulted(fault) => {
            let (kind, pc, value) = (fault.kind, fault.pc, fault.value);
            format!(in alloc; "fault {kind} pc {pc:08X} value {value:08X}")?
        }
        Outcome::Trapped(kind) => format!(in alloc; "trap {kind}")?,
        Outcome::Waiting => String::from_str(alloc, "waiting")?,
        Outcome::Going => String::from_str(alloc, "going")?,
    })
}
