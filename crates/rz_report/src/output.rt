//! The writing of the output.

ghost use Rattle.std.specs.Prelude.{◌≡◌, ◌≤◌, ◌<◌, ◌+◌, ◌-◌, length};
ghost use Rattle.rz_report.specs.Output.{Ends, HasWritten};

use rz_ports::Sink;
use rz_request::Status;

/// Writes all of a text, in as many pieces as it takes. Where a write fails or takes nothing, no
/// more is written, and the answer is false.
pub fn write_all<O: Sink>(output: &mut O, text: &[u8]) -> bool
    ensures { HasWritten (O.taken output.old) (O.taken output.new) (O.faults output.old) (O.faults output.new) text.now result }
{
    let mut at = 0;
    'pieces: while at < text.len() {
        match output.write(&text[at..]) {
            Ok(n) if n > 0 => at += n,
            _ => return false,
        }
    }
    true
}

/// Writes a text, and gives the status with which that ends.
pub fn finish<O: Sink>(output: &mut O, status: u8, text: &[u8]) -> u8
    ensures { Ends (record { before = O.taken output.old; after = O.taken output.new; old = O.faults output.old; new = O.faults output.new }) status text.now result }
{
    if write_all(output, text) {
        status
    } else {
        Status::SINK
    }
}
