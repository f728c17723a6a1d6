// A phase: what it asks of the host, whether it goes on, whether it is a pause.
ghost use Rattle.std.specs.Prelude.{◌≡◌};
ghost use Rattle.machine.specs.Machine.{asks_at, liveb, pausing};

use crate::{Ask, Phase};
use wire::Request;
use work::Wait;

impl Phase {
    // What it asks of the host.
    pub fn asked(self) -> Ask
        ensures { result ≡ asks_at self }
    {
        match self {
            Phase::First | Phase::Second | Phase::Waiting(Wait::Poll { .. }) => {
                Ask::Transfer(Request::GetStatus)
            }
            Phase::Clear => Ask::Transfer(Request::ClearStatus),
            Phase::Sent(command) => Ask::Transfer(Request::Command(command)),
            Phase::Waiting(Wait::Pause { ms, .. }) => Ask::Wait(ms),
            Phase::Resetting => Ask::Reset,
            Phase::Finished(end) => Ask::Finished(end),
            Phase::Refused(error) => Ask::Refused(error),
        }
    }

    // Whether a session in it goes on.
    pub fn is_live(self) -> bool
        ensures { result ≡ liveb self }
    {
        !matches!(self, Phase::Finished(_) | Phase::Refused(_))
    }

    // Whether it is the pause of a wait.
    pub fn is_pause(self) -> bool
        ensures { result ≡ pausing self }
    {
        matches!(self, Phase::Waiting(Wait::Pause { .. }))
    }
}
