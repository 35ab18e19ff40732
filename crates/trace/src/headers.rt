//! The header of a trace: its first line.
ghost use Rattle.trace.specs.Headers.{ReadsHeader};

use digits::read_decimal;

/// The number of frames that the first line of a trace gives, from 1 to 4,096.
pub fn read_header(line: &[u8]) -> Option<u16>
    ensures { ReadsHeader line.now result }
{
    let rest = line.strip_prefix(b"frames=")?;
    let number = rest.strip_suffix(b"\n")?;
    read_decimal(number, 4096)
}
