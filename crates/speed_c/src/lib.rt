// The C boundary of the benchmark: three functions of `speed`, under the names that a caller in another language links.
#![tactic(auto)]

ghost use Rattle.std.specs.Prelude.{◌≡◌};
ghost use Rattle.memory_layout.specs.Layout.{layout_of};
ghost use Rattle.suffix.specs.Suffix.{checked_of};
ghost use Rattle.speed.specs.Speed.{verified_of, answered, answered_of, session_of};

// Reads a layout's text into a store: how many pages it has, or 2^63 plus the number of the refusal.
#[unsafe(no_mangle)]
pub extern "C" fn rt_layout(text: &[u8], store: &mut [u32]) -> u64
    ensures { answered result store.new ≡ answered_of (layout_of text.now store.old) }
{
    speed::rt_layout(text, store)
}

// Checks a file by its suffix: how many of its bytes are firmware, or 2^63 plus the number of the refusal.
#[unsafe(no_mangle)]
pub extern "C" fn rt_verify(file: &[u8]) -> u64
    ensures { result ≡ verified_of (checked_of file.now) }
{
    speed::rt_verify(file)
}

// A whole DfuSe session against a device that answers at once: how many transfers it asked. 0 if start refuses or a refusal came.
#[unsafe(no_mangle)]
pub extern "C" fn rt_session(firmware: &[u8], pages: &[u32], address: u32, size: u16) -> u64
    ensures { result ≡ session_of firmware.now pages.now address size }
{
    speed::rt_session(firmware, pages, address, size)
}
