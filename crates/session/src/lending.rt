// What is lent to a call: whether it is as at start, the command bytes that are filled in, and the data of a request.
ghost use Rattle.std.specs.Prelude.{◌≡◌, ◌≤◌, true, length, OnOk, IfErr};
ghost use Rattle.std.specs.Bool.{OnTrue};
ghost use Rattle.machine.specs.Machine.{endb, liveb};
ghost use Rattle.session.specs.Calls.{as_at_start, guard_of, filled, out, data_of};

use crate::{Session, Step};
use machine::Ask;
use work::Error;

impl Step {
    // The command bytes of an erase or an address that the step issues.
    pub(crate) fn filled_in(self, command: &mut [u8]) -> Step
        requires { 5 ≤ length command.old }
        ensures { out result command.new ≡ filled self command.old }
    {
        if let Ask::Transfer(request) = self.says {
            wire::fill(request, command);
        }
        self
    }
}

impl Session {
    // Whether what is lent has the lengths that it had at start, and 5 command bytes; plain DFU doesn't count pages.
    #[tactic(auto, unfolding(crate::specs::Calls::as_at_start))]
    fn is_as_at_start(self, firmware: usize, pages: usize, command: usize) -> bool
        ensures same { result ≡ as_at_start self.setup firmware pages command }
        ensures room { OnTrue result (5 ≤ command) }
    {
        firmware == self.setup.length as usize
            && 5 <= command
            && (!self.setup.dfuse || pages == self.setup.pages)
    }

    // An ended session repeats its answer; a live one first looks at what is lent.
    #[tactic(auto, using(crate::proofs::Calls::over_asks), unfolding(crate::specs::Calls::guard_of))]
    pub(crate) fn guard(self, firmware: usize, pages: usize, command: usize) -> Result<(), Ask>
        ensures answer { result ≡ guard_of self firmware pages command }
        ensures live { OnOk result (liveb self.phase ≡ true) }
        ensures room { OnOk result (5 ≤ command) }
        ensures end { IfErr result (λ says. endb says ≡ true) }
    {
        if !self.phase.is_live() {
            return Err(self.asks());
        }
        if !self.is_as_at_start(firmware, pages, command) {
            return Err(Ask::Refused(Error::NotAsAtStart));
        }
        Ok(())
    }

    // The data of the request that is wanted now. A part shorter than the request says must not be sent.
    #[tactic(auto, unfolding(crate::specs::Calls::data_of))]
    pub fn data<'a>(self, firmware: &'a [u8], command: &'a [u8]) -> &'a [u8]
        ensures { result.now ≡ data_of self firmware.now command.now }
    {
        if firmware.len() != self.setup.length as usize || command.len() < 5 {
            return &firmware[..0];
        }
        if let Ask::Transfer(request) = self.asks() {
            return wire::data(request, firmware, command);
        }
        &firmware[..0]
    }
}
