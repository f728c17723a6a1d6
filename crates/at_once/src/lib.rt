// A device and a host that answer at once: what programs tell a session that runs by itself.
#![tactic(auto)]

ghost use Rattle.std.specs.Prelude.{◌≡◌};
ghost use Rattle.session.specs.Calls.{out, call_of};
ghost use Rattle.plan.specs.Answers.{showing, ideal};

use get_status::State;
use machine::Phase;
use session::{Session, Step};
use work::{Wait, whole};

// The device shows a state.
fn shown(session: Session, state: State, firmware: &[u8], pages: &[u32], command: &mut [u8]) -> Step
    ensures { out result command.new ≡ call_of firmware.now pages.now command.old session (showing state) }
{
    session.told_reply(&[0, 0, 0, 0, state.byte(), 0], firmware, pages, command)
}

// Tells a session what it awaits; an ended one repeats what it said.
#[tactic(auto, using(plan::proofs::Unfilled::only_replies_fill))]
pub fn told(session: Session, firmware: &[u8], pages: &[u32], command: &mut [u8]) -> Step
    ensures { out result command.new ≡ call_of firmware.now pages.now command.old session (ideal session.phase) }
{
    match session.phase {
        Phase::First | Phase::Second => shown(session, State::DfuIdle, firmware, pages, command),
        Phase::Waiting(Wait::Poll { target, .. }) => {
            shown(session, target, firmware, pages, command)
        }
        Phase::Clear => session.told_count(0, firmware, pages, command),
        Phase::Sent(sent) => session.told_count(u64::from(whole(sent)), firmware, pages, command),
        Phase::Resetting => session.told_reset(firmware, pages, command),
        Phase::Waiting(Wait::Pause { .. }) | Phase::Finished(_) | Phase::Refused(_) => {
            session.told_wait(firmware, pages, command)
        }
    }
}
