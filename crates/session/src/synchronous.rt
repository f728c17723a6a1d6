// A session told an answer: each telling takes the session and hands the next one back.
ghost use Rattle.std.specs.Prelude.{◌≡◌, ◌≤◌, length};
ghost use Rattle.machine.specs.Machine.{to, asks_at};
ghost use Rattle.session.specs.Told.{over, go, stay, count as counts, reply, waited, was_reset, failed};
ghost use Rattle.session.specs.Calls.{called, out, filled, call_of};

use crate::{Session, Step};
use machine::{Ask, Moved, Phase};
use work::{End, Error, Wait};

// Each telling begins with the guard and then goes on in its own way: a function that is handed what follows would be no plainer. What is lent
// stays three parameters: only `told_reply` may write one of them.
#[tactic(auto, using(crate::proofs::Calls::unawaited), unfolding(crate::specs::Calls::called, crate::specs::Calls::call_of, crate::specs::Told::told))]
impl Session {
    // What is wanted now.
    pub fn asks(self) -> Ask
        ensures { result ≡ asks_at self.phase }
    {
        self.phase.asked()
    }

    // The part of it that moves.
    fn moving(self) -> Moved
        ensures { result ≡ to self.progress self.left self.phase }
    {
        Moved {
            progress: self.progress,
            left: self.left,
            phase: self.phase,
        }
    }

    // The next session, put together from what moved, and what it asks.
    fn step_to(self, moved: Moved) -> Step
        ensures { result ≡ go (over self.setup moved) }
    {
        Step {
            next: Session {
                setup: self.setup,
                progress: moved.progress,
                left: moved.left,
                phase: moved.phase,
            },
            says: moved.phase.asked(),
        }
    }

    // The session stays, and this is said.
    fn stay(self, says: Ask) -> Step
        ensures { result ≡ record { next = self; says = says } }
    {
        Step { next: self, says }
    }

    // An answer of a kind that is not awaited.
    fn not_awaited(self) -> Step
        ensures { result ≡ stay self Error.NotAwaited }
    {
        self.stay(Ask::Refused(Error::NotAwaited))
    }

    // A transfer that carried data, or none, went through: so many bytes were taken.
    pub fn told_count(self, count: u64, firmware: &[u8], pages: &[u32], command: &[u8]) -> Step
        ensures { result ≡ called (length firmware.now) pages.now (length command.now) self (counts count) }
    {
        if let Err(says) = self.guard(firmware.len(), pages.len(), command.len()) {
            return self.stay(says);
        }
        match self.phase {
            Phase::Clear => self.step_to(self.moving().issued(self.progress, Phase::Second)),
            Phase::Sent(sent) => {
                let then = download::took(self.setup, self.progress, sent);
                self.step_to(self.moving().counted(self.setup, sent, then, count))
            }
            _ => self.not_awaited(),
        }
    }

    // A wait is over.
    pub fn told_wait(self, firmware: &[u8], pages: &[u32], command: &[u8]) -> Step
        ensures { result ≡ called (length firmware.now) pages.now (length command.now) self waited }
    {
        if let Err(says) = self.guard(firmware.len(), pages.len(), command.len()) {
            return self.stay(says);
        }
        let Phase::Waiting(Wait::Pause { busy, target, .. }) = self.phase else {
            return self.not_awaited();
        };
        let look = Phase::Waiting(Wait::Poll { busy, target });
        self.step_to(self.moving().issued(self.progress, look))
    }

    // The USB reset is done.
    pub fn told_reset(self, firmware: &[u8], pages: &[u32], command: &[u8]) -> Step
        ensures { result ≡ called (length firmware.now) pages.now (length command.now) self was_reset }
    {
        if let Err(says) = self.guard(firmware.len(), pages.len(), command.len()) {
            return self.stay(says);
        }
        let Phase::Resetting = self.phase else {
            return self.not_awaited();
        };
        self.step_to(Moved {
            phase: Phase::Finished(End::Reset),
            ..self.moving()
        })
    }

    // A transfer or the reset failed. In a pause there is nothing that could.
    pub fn told_failure(self, firmware: &[u8], pages: &[u32], command: &[u8]) -> Step
        ensures { result ≡ called (length firmware.now) pages.now (length command.now) self failed }
    {
        if let Err(says) = self.guard(firmware.len(), pages.len(), command.len()) {
            return self.stay(says);
        }
        if self.phase.is_pause() {
            return self.not_awaited();
        }
        self.step_to(self.moving().refused(Error::Failed))
    }

    // A transfer that asked for bytes brought these. The next command's bytes are filled in.
    pub fn told_reply(self, got: &[u8], firmware: &[u8], pages: &[u32], command: &mut [u8]) -> Step
        ensures { out result command.new ≡ call_of firmware.now pages.now command.old self (reply got.now) }
    {
        if let Err(says) = self.guard(firmware.len(), pages.len(), command.len()) {
            return self.stay(says);
        }
        let moving = self.moving();
        match self.phase {
            Phase::First => self.step_to(moving.first_reply(got)).filled_in(command),
            Phase::Second => {
                let todo = download::next(pages, self.setup, self.progress);
                self.step_to(moving.second_reply(todo, got))
                    .filled_in(command)
            }
            Phase::Waiting(Wait::Poll { busy, target }) => {
                let todo = download::next(pages, self.setup, self.progress);
                self.step_to(moving.wait_reply(busy, target, todo, got))
                    .filled_in(command)
            }
            _ => self.not_awaited(),
        }
    }
}
