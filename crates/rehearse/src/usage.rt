// What --help prints.
use std::io;

const TEXT: &str = "\
Rehearses a firmware update over DFU without a device.

    rehearse [OPTIONS] STRING SIZE FILE

STRING         the DfuSe interface string, which tells the address and the pages
SIZE           the transfer size, 0 to 65535
FILE           the firmware, at most 4194304 bytes
--plain        plain DFU: STRING is not read
--tolerant     the device still answers after the update
--detach       the device detaches by itself
--address N    the address to write to, decimal or 0x and hexadecimal
--busy K       busy replies for each wait that the budget allows for (2)
--list         shows each transfer
--help         shows this

For example:

    rehearse '@Internal Flash  /0x08000000/04*016Kg,01*064Kg,07*128Kg' 2048 firmware.bin

In the picture of the memory # is a page that is erased, and . one that is not.
";

pub fn show(rt: &impl Print) -> io::Result<()> {
    rt.print(TEXT)
}
