ghost use Rattle.std.specs.Prelude.{◌≡◌};
ghost use Rattle.command_deeds.specs.Line.{last_status, stage_status, stages_of};
ghost use Rattle.command_deeds.specs.declared.status.TheConstants.{GOOD};

use crate::status;
use nv_events::Outcome;

/// How the stages of a pipeline ended, in order: 8 at most.
#[derive(Clone, Copy, Debug, PartialEq, Eq)]
pub struct StageOutcomes {
    /// None after the last stage.
    pub stages: [Option<Outcome>; 8],
}

impl StageOutcomes {
    /// The status of the last stage.
    pub(crate) fn status(&self) -> u8
        ensures { result ≡ last_status GOOD (stages_of self.now.stages) }
    {
        last_status(status::GOOD, &self.stages)
    }
}

/// The status of the last of these stages, or this one where there is none.
fn last_status(before: u8, stages: &[Option<Outcome>]) -> u8
    ensures { result ≡ last_status before (stages_of stages.now) }
{
    match stages.split_first() {
        Some((stage, later)) => match stage {
            Some(ended) => last_status(stage_status(*ended), later),
            None => before,
        },
        None => before,
    }
}

/// The status of a stage that ended so.
fn stage_status(ended: Outcome) -> u8
    ensures { result ≡ stage_status ended }
{
    match ended {
        Outcome::Exited(status) => (status.cast_unsigned() % 256) as u8,
        Outcome::Faulted(_) => status::FAULTED,
        Outcome::Trapped(_) => status::TRAPPED,
        Outcome::Waiting | Outcome::Going => status::SPENT,
    }
}
