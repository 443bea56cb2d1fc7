//! Which answers enter their step into the list.

ghost use Rattle.std.specs.Prelude.{◌≡◌};
ghost use Rattle.world_law.specs.Builds.{is_tried_again};
ghost use Rattle.world_law.specs.Runs.{changes_world, is_recorded};

use crate::state::State;
use desk_law::Refused;
use rig_types::{Line, Step, WhenFull};
use world_law::Reply;

/// Whether a command that was refused so is tried again: one that waits, where its unit or the buffer region is full.
fn is_tried_again(when_full: WhenFull, refused: Refused) -> bool
    ensures { result ≡ is_tried_again when_full refused }
{
    match when_full {
        WhenFull::Wait => match refused {
            Refused::LunFull { .. } | Refused::RegionFull { .. } => true,
            Refused::BadRequest(_) => false,
        },
        WhenFull::Skip => false,
    }
}

/// Whether an answer tells of a step that was made.
fn changes_world(answer: Reply) -> bool
    ensures { result ≡ changes_world answer }
{
    !matches!(
        answer,
        Reply::Idle
            | Reply::NotNow(_)
            | Reply::StepLimit
            | Reply::OutOfMemory
            | Reply::BusyFront(_)
            | Reply::BusyStop(_)
    )
}

impl State {
    /// Whether the answer to a Build of a line is entered: a refusal of a command that waits isn't.
    pub(crate) fn decides(&self, line: Line, answer: Reply) -> bool
        ensures { result ≡ is_recorded self.now.setting (Step.Build line) answer }
    {
        let Some(commands) = self.work.submitters.as_slice().get(line.submitter as usize) else {
            return changes_world(answer);
        };
        let Some(command) = commands.as_slice().get(line.number as usize) else {
            return changes_world(answer);
        };
        match answer {
            Reply::Refused(refused) => !is_tried_again(command.when_full, refused),
            _ => changes_world(answer),
        }
    }

    /// Whether the answer to a step is entered into the list with the step.
    pub fn is_recorded(&self, step: Step, answer: Reply) -> bool
        ensures { result ≡ is_recorded self.now.setting step answer }
    {
        match step {
            Step::Build(line) => self.decides(line, answer),
            _ => changes_world(answer),
        }
    }
}
