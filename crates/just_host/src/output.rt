//! Where texts go.
ghost use Rattle.std.specs.Prelude.{List, ◌≡◌, ◌+◌, ◌<◌, ◌^◌, ◌++◌, [], ℕ, OnOk, OnErr};
ghost use Rattle.just_host.specs.Out.{IsWritten, IsPartOf};

use std::alloc::Global;
use std::io::Write;
use std::marker::Model;

/// A place that texts go to.
pub trait Out {
    /// What went out so far.
    ghost written: { Self → List ℕ };

    /// How often a write failed.
    ghost failed: { Self → ℕ };

    /// Sends a beginning of the bytes, at least one of them where there is one, and gives their
    /// number. `None` where the write failed: nothing went out then.
    fn write(&mut self, bytes: &[u8]) -> Option<usize>
        requires { failed self.old + 1 < 2 ^ 64 }
        ensures { IsWritten (record { written = written self.old; failed = failed self.old }) bytes.now result (record { written = written self.new; failed = failed self.new }) };

    /// How often a write failed.
    fn failures(&self) -> u64
        ensures { result ≡ failed self.now };
}

/// A write failed.
#[derive(Clone, Copy, Debug, PartialEq, Eq)]
pub struct WriteFailed;

/// Sends the whole text, or a beginning of it where a write fails.
pub fn write_all<O: Out>(out: &mut O, text: &[u8]) -> Result<(), WriteFailed>
    requires { O.failed out.old + 1 < 2 ^ 64 }
    ensures whole { OnOk result (O.written out.new ≡ O.written out.old ++ text.now) }
    ensures quiet { OnOk result (O.failed out.new ≡ O.failed out.old) }
    ensures part { OnErr result (IsPartOf (O.written out.old) text.now (O.written out.new)) }
    ensures told { OnErr result (O.failed out.new ≡ O.failed out.old + 1) }
{
    let mut rest = text;
    while !rest.is_empty() {
        let Some(count) = out.write(rest) else {
            return Err(WriteFailed);
        };
        rest = &rest[count..];
    }
    Ok(())
}

/// An output in memory. A write fails only where memory is refused.
#[derive(Drop)]
pub struct Collected {
    bytes: Vec<u8>,
    failures: u64,
}

impl Model for Collected {
    ghost use Rattle.just_host.specs.Out.{Sent};

    ghost Value = { Sent };

    ghost view = { λ o. record { written = o.bytes.items; failed = o.failures } };
}

impl Collected {
    /// An empty output, which takes no memory.
    pub fn new(alloc: Global) -> Collected
        ensures { result ≡ record { written = []; failed = 0 } }
    {
        Collected {
            bytes: Vec::new(alloc),
            failures: 0,
        }
    }

    /// What went out so far.
    pub fn bytes(&self) -> &[u8]
        ensures { result.now ≡ self.now.written }
    {
        self.bytes.as_slice()
    }
}

impl Out for Collected {
    ghost written = { λ o. o.written };

    ghost failed = { λ o. o.failed };

    fn write(&mut self, bytes: &[u8]) -> Option<usize> {
        match self.bytes.extend_from_slice(bytes) {
            Ok(()) => Some(bytes.len()),
            Err(_) => {
                self.failures += 1;
                None
            }
        }
    }

    fn failures(&self) -> u64 {
        self.failures
    }
}

/// Standard output or any other writer, with a copy of what went out, which grows before each
/// write. A write fails where memory is refused, where the writer fails, and where it takes none
/// of some bytes.
#[derive(Drop)]
pub struct Device<W: Write + Drop> {
    device: W,
    copy: Vec<u8>,
    failures: u64,
}

impl<W: Write + Drop> Model for Device<W> {
    ghost use Rattle.just_host.specs.Out.{Sent};

    ghost Value = { Sent };

    ghost view = { λ o. record { written = o.copy.items; failed = o.failures } };
}

impl<W: Write + Drop> Device<W> {
    /// An output over the writer, which takes no memory.
    pub fn new(alloc: Global, device: W) -> Device<W>
        ensures { result ≡ record { written = []; failed = 0 } }
    {
        Device {
            device,
            copy: Vec::new(alloc),
            failures: 0,
        }
    }

    /// What went out so far.
    pub fn bytes(&self) -> &[u8]
        ensures { result.now ≡ self.now.written }
    {
        self.copy.as_slice()
    }
}

impl<W: Write + Drop> Out for Device<W> {
    ghost written = { λ o. o.written };

    ghost failed = { λ o. o.failed };

    fn write(&mut self, bytes: &[u8]) -> Option<usize> {
        if bytes.is_empty() {
            return Some(0);
        }
        let count = match self.copy.reserve(bytes.len()) {
            Ok(()) => self.device.write(bytes).unwrap_or(0),
            Err(_) => 0,
        };
        if count == 0 {
            self.failures += 1;
            return None;
        }
        let sent = &bytes[..count];
        self.copy.extend_from_slice(sent).unwrap();
        Some(count)
    }

    fn failures(&self) -> u64 {
        self.failures
    }
}
