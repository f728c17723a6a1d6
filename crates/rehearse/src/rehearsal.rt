// A download from its start to its end, and what is told about it.
ghost use Rattle.std.specs.Prelude.{◌≡◌};

use crate::run::Run;
use crate::stop::{Stop, refuse};
use crate::words::Words;
use crate::{list, report, warnings};
use functional_descriptor::FunctionalDescriptor;
use ground::Version;
use machine::Ask;
use protocol::DfuProtocol;
use session::Session;
use start::DfuSansIo;
use std::io;
use work::{End, Setup};

// What is rehearsed: the pages are those of the interface string.
#[derive(Clone, Copy)]
pub struct Rehearsal<'a> {
    pub words: Words,
    pub protocol: DfuProtocol,
    pub firmware: &'a [u8],
    pub pages: &'a [u32],
}

impl Rehearsal<'_> {
    // The device that the words describe.
    fn sans_io(self) -> DfuSansIo
        ensures { result.override_address ≡ self.entry.words.options.address }
    {
        let options = self.words.options;
        let io = DfuSansIo::new(FunctionalDescriptor {
            can_download: true,
            can_upload: false,
            manifestation_tolerant: options.tolerant,
            will_detach: options.detach,
            detach_timeout: 0,
            transfer_size: self.words.size,
            dfu_version: Version(1, 1),
        });
        match options.address {
            Some(address) => io.set_address(address),
            None => io,
        }
    }

    // Runs a session to its end, with a device that shows each awaited state at once.
    fn run(self, rt: &impl Print, session: Session) -> io::Result<Run> {
        let mut run = Run::new(session);
        let mut command = [0u8; 5];
        // Nothing says here that the session ends, so its calls are counted up to a number that none reaches.
        for _ in 0..u64::MAX {
            if run.says.is_end() {
                break;
            }
            if self.words.options.list {
                list::show(rt, run.says, run.next_page(self.pages))?;
            }
            run = run.after(at_once::told(run.session, self.firmware, self.pages, &mut command));
        }
        Ok(run)
    }

    // The budget that suffices; an update that sends nothing needs none.
    fn show_budget(self, rt: &impl Print, transfers: u64) -> io::Result<()> {
        if transfers == 0 {
            return println!(rt; "transfers: none");
        }
        println!(rt; "transfers: {transfers} if no reply is busy")?;
        let busy = u64::from(self.words.options.busy);
        let io = self.sans_io();
        let enough = budget::enough(io, self.protocol, self.firmware, self.pages, busy);
        report::budget(rt, enough, busy)
    }

    // What is worth a second look, however it ended.
    fn warn(self, rt: &impl Print, setup: Setup) -> io::Result<()> {
        warnings::address(rt, self.words.options.address, self.protocol)?;
        warnings::size(rt, setup)?;
        warnings::length(rt, setup)
    }

    // What was counted, the warnings, and as the last line how it ended.
    fn show_run(self, rt: &impl Print, run: Run) -> Result<(), Stop> {
        let setup = run.session.setup;
        report::blocks(rt, setup, run.blocks)?;
        report::pages(rt, setup, self.pages, run.erases)?;
        match run.says {
            Ask::Finished(end) => {
                self.show_budget(rt, run.transfers)?;
                self.warn(rt, setup)?;
                match end {
                    End::Stays => println!(rt; "finished: the device stays")?,
                    End::Reset => println!(rt; "finished: by a USB reset")?,
                }
                Ok(())
            }
            Ask::Refused(error) => {
                println!(rt; "transfers: {} before the refusal", run.transfers)?;
                self.warn(rt, setup)?;
                warnings::pages(rt, error, run.erases)?;
                refuse(rt, error)
            }
            Ask::Transfer(_) | Ask::Wait(_) | Ask::Reset => Ok(()),
        }
    }

    // Rehearses the download.
    pub fn show(self, rt: &impl Print) -> Result<(), Stop> {
        let address = self.words.options.address;
        report::target(rt, self.protocol, address, self.firmware.len())?;
        let io = self.sans_io();
        match io.download(self.protocol, self.firmware, self.pages, u64::MAX) {
            Ok(session) => {
                let run = self.run(rt, session)?;
                self.show_run(rt, run)
            }
            Err(error) => {
                warnings::address(rt, address, self.protocol)?;
                refuse(rt, error)
            }
        }
    }
}
