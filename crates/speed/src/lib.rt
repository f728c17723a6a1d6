// What a benchmark in another language calls, by the crate speed_c: a layout's reading, a file's check, and a whole session.
// Each answers by one number, a refusal by a code above all counts: the C interface takes no enum.
#![tactic(auto)]

ghost use Rattle.std.specs.Prelude.{◌≡◌, ◌+◌, ◌<◌, [], ◌∷◌};
ghost use Rattle.memory_layout.specs.Layout.{layout_of};
ghost use Rattle.suffix.specs.Suffix.{checked_of};
ghost use Rattle.speed.specs.Speed.{refusal_of, layout_number, verified_of, answered, answered_of, asked_of, ran_of, device_of, session_of};

use functional_descriptor::FunctionalDescriptor;
use ground::{Answer, Version};
use machine::Phase;
use memory_layout::MemoryLayout;
use protocol::DfuProtocol;
use session::Session;
use start::DfuSansIo;
use suffix::Suffix;

// What is added to a refusal's number: 2^63, which no number of pages reaches.
const REFUSED: u64 = 9223372036854775808;

// The most calls that a session is given.
const MOST_CALLS: u64 = 1000000;

// A refusal in one number.
fn refused<E: Answer>(error: E) -> u64
    requires { (E.tells error).number < 100 }
    ensures { result ≡ refusal_of (E.tells error) }
{
    REFUSED + error.said().number
}

// Reads a layout's text into a store: how many pages it has, or 2^63 plus the number of the refusal.
#[tactic(auto, using(crate::proofs::Few::few_layout))]
pub fn rt_layout(text: &[u8], store: &mut [u32]) -> u64
    ensures { answered result store.new ≡ answered_of (layout_of text.now store.old) }
{
    match MemoryLayout::try_from(text, store) {
        Ok(layout) => layout.pages as u64,
        Err(error) => refused(error),
    }
}

// Checks a file by its suffix: how many of its bytes are firmware, or 2^63 plus the number of the refusal.
#[tactic(auto, using(crate::proofs::Few::few_suffix))]
pub fn rt_verify(file: &[u8]) -> u64
    ensures { result ≡ verified_of (checked_of file.now) }
{
    match Suffix::check(file) {
        Ok(checked) => checked.firmware as u64,
        Err(error) => refused(error),
    }
}

// A device with a transfer size that stays on the bus.
fn device(size: u16) -> DfuSansIo
    ensures { result ≡ device_of size }
{
    DfuSansIo::new(FunctionalDescriptor {
        can_download: true,
        can_upload: false,
        manifestation_tolerant: true,
        will_detach: false,
        detach_timeout: 0,
        transfer_size: size,
        dfu_version: Version(1, 0x1a),
    })
}

// The transfers that a finished session has asked, what is gone of its budget; 0 for any other.
fn asked(session: Session) -> u64
    ensures { result ≡ asked_of session }
{
    match session.phase {
        Phase::Finished(_) => u64::MAX - session.left,
        _ => 0,
    }
}

// Runs a session to its end, which has to come within the most calls.
#[tactic(auto, using(crate::proofs::Turns::run_out, crate::proofs::Turns::goes_on, crate::proofs::Turns::ends))]
fn run(session: Session, firmware: &[u8], pages: &[u32]) -> u64
    ensures { result ≡ ran_of firmware.now pages.now 1000000 (0 ∷ 0 ∷ 0 ∷ 0 ∷ 0 ∷ []) session }
{
    let mut command = [0u8; 5];
    let mut session = session;
    for _ in 0..MOST_CALLS {
        let step = at_once::told(session, firmware, pages, &mut command);
        session = step.next;
        if step.says.is_end() {
            return asked(session);
        }
    }
    asked(session)
}

// A whole DfuSe session against a device that answers at once, its budget as large as can be: how many transfers it asked. 0 if start refuses or a refusal came.
pub fn rt_session(firmware: &[u8], pages: &[u32], address: u32, size: u16) -> u64
    ensures { result ≡ session_of firmware.now pages.now address size }
{
    let protocol = DfuProtocol::Dfuse { address };
    match device(size).download(protocol, firmware, pages, u64::MAX) {
        Ok(session) => run(session, firmware, pages),
        Err(_) => 0,
    }
}
