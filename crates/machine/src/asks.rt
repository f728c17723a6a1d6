// What is asked: whether it is an end, and document 01's numbers and values for it.
ghost use Rattle.std.specs.Prelude.{◌≡◌};
ghost use Rattle.machine.specs.Machine.{endb, said_ask};

use crate::Ask;
use ground::{Answer, Report};
use work::End;

impl Ask {
    // Whether nothing more is asked: the session finished or was refused.
    pub fn is_end(self) -> bool
        ensures { result ≡ endb self }
    {
        matches!(self, Ask::Finished(_) | Ask::Refused(_))
    }
}

impl Answer for Ask {
    ghost tells = { said_ask };

    fn said(self) -> Report {
        match self {
            Ask::Transfer(request) => {
                let on_wire = request.control();
                Report::of(
                    0,
                    [
                        1,
                        u64::from(on_wire.request_type),
                        u64::from(on_wire.request),
                        u64::from(on_wire.value),
                        u64::from(on_wire.takes),
                        u64::from(on_wire.carries),
                    ],
                )
            }
            Ask::Wait(ms) => Report::of(0, [2, u64::from(ms)]),
            Ask::Reset => Report::of(0, [3]),
            Ask::Finished(End::Stays) => Report::of(0, [4]),
            Ask::Finished(End::Reset) => Report::of(0, [5]),
            Ask::Refused(error) => error.said(),
        }
    }
}
