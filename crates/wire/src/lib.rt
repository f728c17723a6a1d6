// A request on the wire: type, request, value and bytes, and the bytes of a DfuSe command.
#![tactic(auto)]

ghost use Rattle.std.specs.Prelude.{◌≡◌, ◌+◌, ◌≤◌, [], ◌∷◌, ◌++◌, nat_le, length, take, drop};
ghost use Rattle.ground.specs.Pick.{pick};
ghost use Rattle.ground.specs.Bytes.{bytes_low};
ghost use Rattle.wire.specs.Wire.{filled_in, request_data, wire_of};

// A download request, by what it means.
#[derive(Clone, Copy, Debug, PartialEq, Eq)]
pub enum Command {
    // Erase the page at a position.
    Erase(u32),
    // Set the address pointer.
    SetAddress(u32),
    // A block of the firmware: its number, its place and its length.
    Block { number: u16, place: u32, len: u32 },
    // The empty block that ends the download.
    Empty { number: u16 },
}

// A control transfer, by what it means.
#[derive(Clone, Copy, Debug, PartialEq, Eq)]
pub enum Request {
    GetStatus,
    ClearStatus,
    Command(Command),
}

// A control transfer: so many bytes are taken from the device, or carried to it.
#[derive(Clone, Copy, Debug, PartialEq, Eq)]
pub struct Control {
    pub request_type: u8,
    pub request: u8,
    pub value: u16,
    pub takes: u32,
    pub carries: u32,
}

// To the device, and from it: GETSTATUS alone takes data.
const REQUEST_TYPE: u8 = 0x21;

const REQUEST_TYPE_IN: u8 = 0xA1;

const DFU_DNLOAD: u8 = 1;

const DFU_GETSTATUS: u8 = 3;

const DFU_CLRSTATUS: u8 = 4;

// The first byte of a DfuSe command.
const ERASE: u8 = 0x41;

const SET_ADDRESS: u8 = 0x21;

// A download request with so many bytes of data.
fn dnload(value: u16, carries: u32) -> Control
    ensures { result ≡ record { request_type = 0x21; request = 1; value = value; takes = 0; carries = carries } }
{
    Control {
        request_type: REQUEST_TYPE,
        request: DFU_DNLOAD,
        value,
        takes: 0,
        carries,
    }
}

impl Request {
    // The request as it goes over the wire.
    pub fn control(self) -> Control
        ensures { result ≡ wire_of self }
    {
        match self {
            Request::GetStatus => Control {
                request_type: REQUEST_TYPE_IN,
                request: DFU_GETSTATUS,
                value: 0,
                takes: 6,
                carries: 0,
            },
            Request::ClearStatus => Control {
                request_type: REQUEST_TYPE,
                request: DFU_CLRSTATUS,
                value: 0,
                takes: 0,
                carries: 0,
            },
            Request::Command(Command::Erase(_) | Command::SetAddress(_)) => dnload(0, 5),
            Request::Command(Command::Block { number, len, .. }) => dnload(number, len),
            Request::Command(Command::Empty { number }) => dnload(number, 0),
        }
    }
}

// A DfuSe command's byte and a position, at the front of the command bytes.
fn put(command: &mut [u8], op: u8, position: u32)
    requires { 5 ≤ length command.old }
    ensures { command.new ≡ op ∷ (bytes_low 4 position ++ drop 5 command.old) }
{
    command[0] = op;
    command[1..5].copy_from_slice(&position.to_le_bytes());
}

// The command bytes that a request carries; any other leaves them as they are, and fewer than five are left alone.
pub fn fill(request: Request, command: &mut [u8])
    ensures { command.new ≡ filled_in request command.old }
{
    if command.len() < 5 {
        return;
    }
    match request {
        Request::Command(Command::Erase(position)) => put(command, ERASE, position),
        Request::Command(Command::SetAddress(position)) => put(command, SET_ADDRESS, position),
        _ => {}
    }
}

// So many bytes from a place on, or none if they run past the end.
fn part<'a>(s: &'a [u8], place: u32, len: u32) -> &'a [u8]
    ensures { result.now ≡ pick (nat_le (place + len) (length s.now)) (take len (drop place s.now)) [] }
{
    let from = place as usize;
    s.get(from..from + len as usize).unwrap_or(&s[..0])
}

// The data that a request carries: a part of the firmware, or the first five command bytes.
pub fn data<'a>(request: Request, firmware: &'a [u8], command: &'a [u8]) -> &'a [u8]
    ensures { result.now ≡ request_data request firmware.now command.now }
{
    match request {
        Request::GetStatus | Request::ClearStatus => &firmware[..0],
        Request::Command(Command::Erase(_) | Command::SetAddress(_)) => {
            &command[..command.len().min(5)]
        }
        Request::Command(Command::Block { place, len, .. }) => part(firmware, place, len),
        Request::Command(Command::Empty { .. }) => &firmware[firmware.len()..],
    }
}
