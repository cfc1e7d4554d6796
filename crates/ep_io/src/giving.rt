// Writing all of a piece.
ghost use Rattle.std.specs.Prelude.{◌≡◌, ◌≤◌, OnOk, OnErr};
ghost use Rattle.std.specs.Io.KnownBytes.{Appends};
ghost use Rattle.ep_base.specs.Counts.{one_more};
ghost use Rattle.ep_io.specs.Sink.{AppendsPrefix};

use crate::{SinkFailed, Tally};
use std::io::Write;

/// Writes until nothing is left. A fault is counted at a write's error, or at a write that takes nothing, and nowhere else.
pub fn give_all<W: Write>(writer: &mut W, bytes: &[u8], tally: &mut Tally) -> Result<(), SinkFailed>
    ensures ok { OnOk result (Appends (W.contents writer.old) (W.contents writer.new) bytes.now) }
    ensures prefix { OnErr result (AppendsPrefix (W.contents writer.old) (W.contents writer.new) bytes.now) }
    ensures failed { OnErr result (tally.new.faults ≡ one_more tally.old.faults) }
    ensures no_fault { OnOk result (tally.new.faults ≡ tally.old.faults) }
    ensures faults { tally.old.faults ≤ tally.new.faults }
    ensures taken { tally.new.taken ≡ tally.old.taken }
{
    let mut rest = bytes;
    while !rest.is_empty() {
        let written = writer.write(rest).unwrap_or(0);
        if written == 0 {
            tally.count_fault();
            return Err(SinkFailed {});
        }
        rest = &rest[written..];
    }
    Ok(())
}
