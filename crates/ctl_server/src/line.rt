//! The line that tells of the port.

ghost use Rattle.std.specs.Prelude.{◌≡◌};
ghost use Rattle.ctl_server.specs.Line.{serving_line};

use arrayvec::ArrayString;
use itoa::Buffer;

/// Room for the line.
const LINE_LEN: usize = 64;

/// What a server writes once its doors are open (own).
pub(crate) fn serving_line(port: u16) -> ArrayString<LINE_LEN>
    ensures { result.bytes ≡ serving_line port }
{
    let mut line = ArrayString::new();
    let mut buffer = Buffer::new();
    line.push_str("slurmctld: serving on port ");
    line.push_str(buffer.format(port));
    line.push_str("\n");
    line
}
