// One step: a transfer is issued, what the work wants is done, a count is taken.
ghost use Rattle.std.specs.Prelude.{◌≡◌};
ghost use Rattle.machine.specs.Machine.{refuse, issue, proceed, on_count};

use crate::{Moved, Phase};
use wire::Command;
use work::{End, Error, Progress, Setup, Todo};

impl Moved {
    // A refusal that ends the session: nothing moves but the phase.
    pub fn refused(self, error: Error) -> Moved
        ensures { result ≡ refuse self.progress self.left error }
    {
        Moved {
            phase: Phase::Refused(error),
            ..self
        }
    }

    // A transfer is issued, and the progress moves, if the budget has one left.
    #[tactic(auto, using(crate::proofs::Issuing::spent, crate::proofs::Issuing::some))]
    pub fn issued(self, then: Progress, phase: Phase) -> Moved
        ensures { result ≡ issue self.progress self.left then phase }
    {
        let Some(left) = self.left.checked_sub(1) else {
            return self.refused(Error::BudgetSpent);
        };
        Moved {
            progress: then,
            left,
            phase,
        }
    }

    // What is wanted next is done: a command, or the end, with a USB reset first where one is due; what refuses it ends the session.
    pub fn proceeded(self, todo: Result<Todo, Error>) -> Moved
        ensures { result ≡ proceed self.progress self.left todo }
    {
        match todo {
            Ok(Todo::Send { command, then }) => self.issued(then, Phase::Sent(command)),
            Ok(Todo::End(End::Stays)) => Moved {
                phase: Phase::Finished(End::Stays),
                ..self
            },
            Ok(Todo::End(End::Reset)) => Moved {
                phase: Phase::Resetting,
                ..self
            },
            Err(error) => self.refused(error),
        }
    }

    // The count of a command was told: the progress moves and the wait begins, unless a block was not taken whole.
    pub fn counted(self, setup: Setup, sent: Command, then: Progress, count: u64) -> Moved
        ensures { result ≡ on_count setup self.progress self.left sent then count }
    {
        if !work::is_taken(sent, count) {
            return self.refused(Error::WrongCount {
                count,
                len: work::whole(sent),
            });
        }
        Moved {
            progress: then,
            phase: Phase::Waiting(setup.wait_after(sent, count)),
            ..self
        }
    }
}
