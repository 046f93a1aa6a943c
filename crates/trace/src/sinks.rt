//! Sinks, which take the bytes of a trace.

ghost use Rattle.std.specs.Prelude.{◌≡◌, ◌≤◌, length, IfOk, OnOk, OnErr, false};
ghost use Rattle.std.specs.Io.KnownBytes.{WriteAppends};
ghost use Rattle.trace.specs.Sinks.{Seen, TakesAll, BreaksOff, failures_after, is_failure};

use std::io::Write;

/// The error of a sink that takes no more bytes.
#[derive(Clone, Copy)]
pub struct SinkFault;

/// A destination for bytes.
///
/// A put fails if it returns an `Err`, or `Ok(0)` for a slice that isn't empty.
/// `seen` is the one ghost member. It records whether the last put failed, so that a contract can say that nothing is
/// put after a failure.
pub trait Sink {
    // The bytes that the sink took, the number of failed puts, and whether the last put failed.
    ghost seen: { Self → Seen };

    /// Takes the first n bytes of the slice if it returns `Ok(n)`, and none if it returns an `Err`.
    fn put(&mut self, bytes: &[u8]) -> Result<usize, SinkFault>
        ensures bound { IfOk result (λ n. n ≤ length bytes.now) }
        ensures taken { WriteAppends (seen self.old).taken (seen self.new).taken result bytes.now }
        ensures counted { (seen self.new).failures ≡ failures_after (seen self.old).failures result bytes.now }
        ensures last { (seen self.new).last_failed ≡ is_failure result bytes.now };
}

/// A writer as a sink; each put is one write. The bytes that it took are known only if the writer tells them, as
/// writers to memory do.
#[derive(Drop)]
pub struct WriteSink<W: Write + Drop> {
    writer: W,
    failures: u64,
    last_failed: bool,
}

impl<W: Write + Drop> WriteSink<W> {
    /// Creates a sink that puts into the writer.
    pub fn new(writer: W) -> Self
        ensures { result ≡ record { writer = writer; failures = 0; last_failed = false } }
    {
        WriteSink {
            writer,
            failures: 0,
            last_failed: false,
        }
    }

    /// Returns the writer.
    pub fn into_writer(self) -> W
        ensures { result ≡ self.writer }
    {
        let WriteSink {
            writer,
            failures: _,
            last_failed: _,
        } = self;
        writer
    }
}

impl<W: Write + Drop> Sink for WriteSink<W> {
    ghost seen = { λ s. record { taken = W.contents s.writer; failures = s.failures; last_failed = s.last_failed } };

    fn put(&mut self, bytes: &[u8]) -> Result<usize, SinkFault> {
        match self.writer.write(bytes) {
            Ok(n) => {
                self.last_failed = n == 0 && !bytes.is_empty();
                if self.last_failed {
                    self.failures = self.failures.wrapping_add(1);
                }
                Ok(n)
            }
            Err(_) => {
                self.last_failed = true;
                self.failures = self.failures.wrapping_add(1);
                Err(SinkFault)
            }
        }
    }
}

/// Puts all bytes. If it returns an `Err`, a prefix of them was taken, one put failed, and it was the last.
pub fn put_all<S: Sink>(out: &mut S, bytes: &[u8]) -> Result<(), SinkFault>
    ensures ok { OnOk result (TakesAll (S.seen out.old) (S.seen out.new) bytes.now) }
    ensures err { OnErr result (BreaksOff (S.seen out.old) (S.seen out.new) bytes.now) }
{
    let mut done: usize = 0;
    while done < bytes.len() {
        let taken = out.put(&bytes[done..])?;
        if taken == 0 {
            return Err(SinkFault);
        }
        done += taken;
    }
    Ok(())
}
