// A sink that never fails, and keeps no byte.
ghost use Rattle.std.specs.Prelude.{◌≡◌};

use crate::{Sink, SinkFailed};

/// Counts the bytes and the puts; each count stays at the greatest u64. No put fails.
#[derive(Drop)]
pub struct ClearSink {
    bytes: u64,
    puts: u64,
}

impl ClearSink {
    ghost use Rattle.std.specs.Prelude.{◌≡◌, None};
    ghost use Rattle.ep_io.specs.Clear.{clear_sink, byte_count};

    pub fn new() -> ClearSink
        ensures sink { clear_sink result ≡ record { written = None; faults = 0; puts = 0 } }
        ensures bytes { byte_count result ≡ 0 }
    {
        ClearSink { bytes: 0, puts: 0 }
    }

    /// How many bytes were put.
    pub fn bytes(&self) -> u64
        ensures { result ≡ byte_count self.now }
    {
        self.bytes
    }
}

impl Sink for ClearSink {
    ghost use Rattle.std.specs.Prelude.{◌≡◌, ◌+◌, ◌≤◌, length, min, IsOk};
    ghost use Rattle.ep_base.specs.Counts.{last_count, one_more};
    ghost use Rattle.ep_io.specs.Clear.{clear_sink, byte_count};

    ghost sink = { clear_sink };

    fn put(&mut self, bytes: &[u8]) -> Result<(), SinkFailed>
        ensures ok { IsOk result }
        ensures puts { (clear_sink self.new).puts ≡ one_more (clear_sink self.old).puts }
        ensures bytes { byte_count self.new ≡ min (byte_count self.old + length bytes.now) last_count }
    {
        self.puts = self.puts.saturating_add(1);
        self.bytes = self.bytes.saturating_add(bytes.len() as u64);
        Ok(())
    }
}
