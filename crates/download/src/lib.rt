// What a download wants next, and how a command that was taken moves it: download.rs.
#![tactic(auto)]

ghost use Rattle.std.specs.Prelude.{◌≡◌, length};
ghost use Rattle.download.specs.Download.{covering, erase_next, write_next, end_for, next_of, took_of};

use wire::Command;
use work::{End, Error, Progress, Setup, Stage, Todo};

// How many pages cover a target of so many bytes, from its first page on; all that there are if they don't.
// A recursion on the slice's tail: a form that document 01 names (docs/DECISIONS.md).
#[tactic(auto, using(crate::proofs::Covering::none_left, crate::proofs::Covering::no_page, crate::proofs::Covering::step, crate::proofs::Covering::bounded))]
pub fn cover(pages: &[u32], left: u32) -> usize
    ensures { result ≡ length (covering left pages.now) }
{
    match pages {
        [page, rest @ ..] if 0 < left => 1 + cover(rest, left.saturating_sub(*page)),
        _ => 0,
    }
}

// The erase of the next page while the target is not covered, then the address.
#[tactic(auto, unfolding(crate::specs::Download::erase_next))]
fn erase(pages: &[u32], setup: Setup, progress: Progress) -> Result<Todo, Error>
    ensures { result ≡ erase_next pages.now setup progress }
{
    let end = u64::from(setup.address) + u64::from(setup.length);
    if end <= u64::from(progress.erased) {
        return Ok(Todo::Send {
            command: Command::SetAddress(setup.address),
            then: progress.staged(Stage::Writing),
        });
    }
    let page = pages.get(progress.page).ok_or(Error::NoSpaceLeft)?;
    let erased = progress
        .erased
        .checked_add(*page)
        .ok_or(Error::EraseLimitReached)?;
    Ok(Todo::Send {
        command: Command::Erase(progress.erased),
        then: Progress {
            stage: Stage::Erasing,
            erased,
            page: progress.page + 1,
            ..progress
        },
    })
}

// The block of the next bytes, or the empty block when none are left. The ledger waits for the block's count.
#[tactic(auto, unfolding(crate::specs::Download::write_next))]
fn write(setup: Setup, progress: Progress) -> Todo
    ensures { result ≡ write_next setup progress }
{
    let place = progress.accepted;
    let number = setup.number_at(place);
    if setup.length <= place {
        return Todo::Send {
            command: Command::Empty { number },
            then: progress.staged(Stage::Ending),
        };
    }
    let len = setup.block_length(place);
    Todo::Send {
        command: Command::Block { number, place, len },
        then: progress.staged(Stage::Writing),
    }
}

// How the download ends: by a USB reset if the device neither stays nor detaches by itself.
fn end_for(setup: Setup) -> End
    ensures { result ≡ end_for setup }
{
    if setup.tolerant || setup.detach {
        End::Stays
    } else {
        End::Reset
    }
}

// What is wanted next. Pages, setup and progress stay apart: they are what `next` of every work takes (`Work` in the specs of `work`).
#[tactic(auto, unfolding(crate::specs::Download::next_of))]
pub fn next(pages: &[u32], setup: Setup, progress: Progress) -> Result<Todo, Error>
    ensures { result ≡ next_of pages.now setup progress }
{
    match progress.stage {
        Stage::Erasing => erase(pages, setup, progress),
        Stage::Writing => Ok(write(setup, progress)),
        Stage::Ending => Ok(Todo::End(end_for(setup))),
    }
}

// The progress once a command was taken: only a block with its bytes moves anything.
#[tactic(auto, unfolding(crate::specs::Download::took_of))]
pub fn took(setup: Setup, progress: Progress, command: Command) -> Progress
    ensures { result ≡ took_of setup progress command }
{
    match command {
        Command::Block { len, .. } => progress.enter(setup, len),
        Command::Erase(_) | Command::SetAddress(_) | Command::Empty { .. } => progress,
    }
}
