// A reply: to the two questions of the opening, and to a look in a wait.
ghost use Rattle.std.specs.Prelude.{◌≡◌};
ghost use Rattle.machine.specs.Machine.{or_refuse, first_reply, later_reply, reading, on_first, on_second, on_poll};

use crate::{Moved, Phase};
use get_status::{GetStatusMessage, Met, State};
use work::{Error, Todo, Wait};

impl Moved {
    // Where a step went, or the refusal that ends the session.
    fn or_refused(self, step: Result<Moved, Error>) -> Moved
        ensures { result ≡ or_refuse self.progress self.left step }
    {
        match step {
            Ok(moved) => moved,
            Err(error) => self.refused(error),
        }
    }

    // In the error state the status is cleared before it is asked again.
    #[tactic(auto, unfolding(crate::specs::Machine::on_first))]
    fn after_first(self, bytes: &[u8]) -> Result<Moved, Error>
        ensures { or_refuse self.progress self.left result ≡ reading self.progress self.left (first_reply bytes.now) (on_first self.progress self.left) }
    {
        let reply = GetStatusMessage::from_bytes(bytes)?;
        if reply.state == State::DfuError {
            return Ok(self.issued(self.progress, Phase::Clear));
        }
        Ok(self.issued(self.progress, Phase::Second))
    }

    // The first reply.
    pub fn first_reply(self, bytes: &[u8]) -> Moved
        ensures { result ≡ reading self.progress self.left (first_reply bytes.now) (on_first self.progress self.left) }
    {
        self.or_refused(self.after_first(bytes))
    }

    // The device is idle and the download begins.
    #[tactic(auto, unfolding(crate::specs::Machine::on_second))]
    fn after_second(self, todo: Result<Todo, Error>, bytes: &[u8]) -> Result<Moved, Error>
        ensures { or_refuse self.progress self.left result ≡ reading self.progress self.left (later_reply bytes.now) (on_second self.progress self.left todo) }
    {
        let got = GetStatusMessage::strict_from_bytes(bytes)?.state;
        if got != State::DfuIdle {
            return Err(Error::InvalidState {
                got,
                expected: State::DfuIdle,
            });
        }
        Ok(self.proceeded(todo))
    }

    // The second reply.
    pub fn second_reply(self, todo: Result<Todo, Error>, bytes: &[u8]) -> Moved
        ensures { result ≡ reading self.progress self.left (later_reply bytes.now) (on_second self.progress self.left todo) }
    {
        self.or_refused(self.after_second(todo, bytes))
    }

    // The target is reached and the download goes on, or the device is busy and is waited for again.
    #[tactic(auto, unfolding(crate::specs::Machine::on_poll))]
    fn after_look(
        self,
        busy: State,
        target: State,
        todo: Result<Todo, Error>,
        bytes: &[u8],
    ) -> Result<Moved, Error>
        ensures { or_refuse self.progress self.left result ≡ reading self.progress self.left (later_reply bytes.now) (on_poll self.progress self.left busy target todo) }
    {
        let reply = GetStatusMessage::strict_from_bytes(bytes)?;
        match reply.judge(busy, target)? {
            Met::Reached => Ok(self.proceeded(todo)),
            Met::Busy { poll_timeout } => Ok(Moved {
                phase: Phase::Waiting(Wait::Pause {
                    busy,
                    target,
                    ms: poll_timeout,
                }),
                ..self
            }),
        }
    }

    // A reply in a wait.
    pub fn wait_reply(
        self,
        busy: State,
        target: State,
        todo: Result<Todo, Error>,
        bytes: &[u8],
    ) -> Moved
        ensures { result ≡ reading self.progress self.left (later_reply bytes.now) (on_poll self.progress self.left busy target todo) }
    {
        self.or_refused(self.after_look(busy, target, todo, bytes))
    }
}
