// What a download is started from: the words that `begin` and `session` have first, and what they mean.
use cases::words;
use cases::words::Amount;
use functional_descriptor::FunctionalDescriptor;
use ground::Version;
use protocol::DfuProtocol;
use start::DfuSansIo;

// Where a download goes, and where the next word starts.
#[derive(Clone, Copy, Debug, PartialEq, Eq)]
pub struct Target {
    pub protocol: DfuProtocol,
    pub instead: Option<u32>,
    pub end: usize,
}

// A number of four bytes with a space after it.
fn word_at(line: &[u8], at: usize) -> Option<(u32, usize)> {
    let Amount { value, end } = words::number(line, at, u64::from(u32::MAX))?;
    Some((u32::try_from(value).ok()?, end))
}

// `KIND ADDRESS`: plain DFU's address is read, and means nothing.
fn protocol_at(line: &[u8], at: usize) -> Option<(DfuProtocol, usize)> {
    if let Some(from) = words::past(line, at, b"plain ") {
        let (_, end) = word_at(line, from)?;
        return Some((DfuProtocol::Dfu, end));
    }
    let (address, end) = word_at(line, words::past(line, at, b"dfuse ")?)?;
    Some((DfuProtocol::Dfuse { address }, end))
}

// `KIND ADDRESS OVERRIDE`, the last a hyphen or an address
pub fn target_at(line: &[u8], at: usize) -> Option<Target> {
    let (protocol, from) = protocol_at(line, at)?;
    if let Some(end) = words::past(line, from, b"- ") {
        return Some(Target {
            protocol,
            instead: None,
            end,
        });
    }
    let (address, end) = word_at(line, from)?;
    Some(Target {
        protocol,
        instead: Some(address),
        end,
    })
}

// What sessions with a target are started from, for a device with a transfer size and two of the flags.
pub fn sans_io(target: Target, size: u16, tolerant: bool, detach: bool) -> DfuSansIo {
    let io = DfuSansIo::new(FunctionalDescriptor {
        can_download: false,
        can_upload: false,
        manifestation_tolerant: tolerant,
        will_detach: detach,
        detach_timeout: 0,
        transfer_size: size,
        dfu_version: Version(1, 1),
    });
    match target.instead {
        None => io,
        Some(address) => io.set_address(address),
    }
}
