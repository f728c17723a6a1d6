// What an update will ask of the device, before it is begun: how many transfers suffice.
#![tactic(auto)]

ghost use Rattle.std.specs.Prelude.{◌≡◌, true, ◌<◌, ◌≤◌, length};
ghost use Rattle.memory_layout.specs.Layout.{max_pages};
ghost use Rattle.papers.specs.Plan.{commands};
ghost use Rattle.budget.specs.Enough.{enough_for, fitted, enough_of};

use download::cover;
use protocol::DfuProtocol;
use start::{DfuSansIo, is_many, is_over};
use work::blocks;

// The download requests of an update: for DfuSe an erase for each covering page and the address before the blocks, and the empty block after them.
#[tactic(auto, using(crate::proofs::Fits::counted))]
fn requests(dfuse: bool, len: u32, size: u16, pages: &[u32]) -> u64
    requires { dfuse ≡ true → length pages.now ≤ max_pages }
    ensures { result ≡ commands dfuse len size pages.now }
{
    let sent = blocks(len, size);
    if dfuse {
        return cover(pages, len) as u64 + sent + 2;
    }
    sent + 1
}

// What suffices for so many requests and so many busy replies to each, if it is a 64-bit count.
#[tactic(auto, using(crate::proofs::Fits::too_busy))]
fn budget_for(requests: u64, busy: u64) -> Option<u64>
    requires { 0 < requests }
    ensures { result ≡ fitted (enough_for requests busy) }
{
    let each = busy.checked_add(2)?;
    requests.checked_mul(each)?.checked_add(3)
}

// A budget that always suffices where the device answers as it ought to and each wait meets at most `busy` busy replies: for a firmware of so many bytes.
// None where start refuses the lengths (1, 22, 29), or where the number is no 64-bit count.
#[tactic(auto, using(crate::proofs::Fits::commands_pos, crate::proofs::Fits::few), unfolding(crate::specs::Enough::enough_of))]
pub fn enough_for(
    io: DfuSansIo,
    protocol: DfuProtocol,
    length: u64,
    pages: &[u32],
    busy: u64,
) -> Option<u64>
    ensures { result ≡ enough_of io protocol length pages.now busy }
{
    let length = u32::try_from(length).ok()?;
    let dfuse = protocol.is_dfuse();
    let size = io.descriptor.transfer_size;
    if is_over(dfuse, pages.len()) || is_many(dfuse, length, size) {
        return None;
    }
    budget_for(requests(dfuse, length, size, pages), busy)
}

// The same from start's own arguments: of the firmware only the length is looked at.
pub fn enough(
    io: DfuSansIo,
    protocol: DfuProtocol,
    firmware: &[u8],
    pages: &[u32],
    busy: u64,
) -> Option<u64>
    ensures { result ≡ enough_of io protocol (length firmware.now) pages.now busy }
{
    enough_for(io, protocol, firmware.len() as u64, pages, busy)
}
