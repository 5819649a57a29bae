//! A writer for a run that writes no text.

ghost use Rattle.std.specs.Prelude.{◌≡◌, ◌<◌, ◌≤◌, length, None, false, true, Ok, IfOk, OnOk, OnErr};
ghost use Rattle.std.specs.Io.KnownBytes.{WriteAppends, Keeps};

use mp4_ends::{Failed, Sink};

/// A writer that takes all, keeps nothing and never fails.
#[derive(Clone, Copy)]
pub(crate) struct NullSink;

impl Sink for NullSink {
    ghost contents = { λ _. None };

    ghost has_failed = { λ _. false };

    fn write(&mut self, from: &[u8]) -> Result<usize, Failed>
        requires { 0 < length from.now }
        ensures bound { IfOk result (λ n. (0 < n) × (n ≤ length from.now)) }
        ensures bytes { WriteAppends None None result from.now }
        ensures failed_ok { OnOk result ((false ≡ false) × (false ≡ false)) }
        ensures failed_err { OnErr result (false ≡ true) }
        ensures all { result ≡ Ok (length from.now) }
    {
        Ok(from.len())
    }

    fn flush(&mut self) -> Result<(), Failed>
        ensures bytes { Keeps None None }
        ensures failed_ok { OnOk result ((false ≡ false) × (false ≡ false)) }
        ensures failed_err { OnErr result (false ≡ true) }
        ensures ok { result ≡ Ok tt }
    {
        Ok(())
    }

    fn failed(&self) -> bool {
        false
    }
}
