//! Calls of the two ends, which no clause counts: reads take all that there is room for, writes are few and large, and
//! before each read all is written that the bytes before it determine. That no byte of media is handled by itself shows
//! only in time.

ghost use Rattle.std.specs.Prelude.{◌≡◌, ◌<◌};

use super::ends::{COMMANDS, Command};
use super::rows::with_empty_samples;
use super::{joined, words_of};
use fmp4_program::run;
use mp4_stream::ends::{FromSlice, ToVec};
use mp4_stream::vectors::{V1, V1_MOOF, V1_SIZES};
use mp4_stream::{Failed, Sink, Source};
use std::alloc::{AllocError, Global};
use std::cell::Cell;
use std::process::Abort;
use std::test::Fail;

/// An end whose reads or writes are counted.
#[derive(Drop)]
struct Counted<E> {
    inner: E,
    calls: usize,
}

impl<E> Counted<E> {
    fn new(inner: E) -> Self {
        Counted { inner, calls: 0 }
    }
}

impl<R: Source> Source for Counted<R> {
    ghost remaining = { λ s. R.remaining s.inner };

    ghost has_failed = { λ s. R.has_failed s.inner };

    ghost has_ended = { λ s. R.has_ended s.inner };

    ghost last_read = { λ s. R.last_read s.inner };

    fn read(&mut self, into: &mut [u8]) -> Result<usize, Failed> {
        self.calls = self.calls.saturating_add(1);
        self.inner.read(into)
    }

    fn failed(&self) -> bool {
        self.inner.failed()
    }

    fn ended(&self) -> bool {
        self.inner.ended()
    }
}

impl<W: Sink> Sink for Counted<W> {
    ghost contents = { λ s. W.contents s.inner };

    ghost has_failed = { λ s. W.has_failed s.inner };

    fn write(&mut self, from: &[u8]) -> Result<usize, Failed> {
        self.calls = self.calls.saturating_add(1);
        self.inner.write(from)
    }

    fn flush(&mut self) -> Result<(), Failed> {
        self.inner.flush()
    }

    fn failed(&self) -> bool {
        self.inner.failed()
    }
}

/// Two million bytes of media in three samples.
fn with_large_samples(alloc: Global) -> Result<Vec<u8>, AllocError> {
    let front = &V1.as_slice()[..V1_SIZES];
    let sizes = b"\0\x0f\x42\x40\0\x0a\xae\x60\0\x04\x93\xe0";
    let mut all = joined(alloc, &[front, sizes, b"\0\x1e\x84\x88mdat"])?;
    all.resize(2_000_468, 7)?;
    Ok(all)
}

/// These bytes, and those so many times.
fn repeated(alloc: Global, front: &[u8], bytes: &[u8], times: u32) -> Result<Vec<u8>, AllocError> {
    let mut all = joined(alloc, &[front])?;
    for _ in 0..times {
        all.extend_from_slice(bytes)?;
    }
    Ok(all)
}

/// The program reads a stream by as many bytes as it has room for. Of what it gathers 16,384 bytes may wait, and slices
/// of 4,096 and more are sent by themselves where they don't fit: so two writes take more than these 16,384, and one
/// goes with the end of each read.
fn check_calls(
    rt: &impl Abort,
    alloc: Global,
    command: Command,
    stream: &[u8],
    copy: usize,
) -> Result<(), Fail>
    requires { 0 < copy }
{
    let mut words = words_of(alloc, command.words())?;
    words.push(format!(in alloc; "--copy={copy}")?)?;
    let mut r = Counted::new(FromSlice::new(stream, copy, false));
    let mut w = Counted::new(ToVec::new(alloc, 1 << 23, 1 << 23, true)?);
    let mut fault_w = ToVec::new(alloc, 100, 100, true)?;
    let status = run(alloc, words, &mut r, &mut w, &mut fault_w);
    assert_eq!(rt;
        (status, r.calls),
        (0, stream.len().div_ceil(copy).saturating_add(1))
    );
    let most = (w.inner.bytes().len() / 8192).saturating_add(r.calls);
    assert!(rt;
        w.calls <= most,
        "{} writes, {} reads of {copy}",
        w.calls,
        r.calls
    );
    Ok(())
}

#[test]
fn reads_and_writes(rt: HostRuntime) -> Result<(), Fail> {
    let (alloc, v1) = (rt.alloc(), V1.as_slice());
    for stream in [
        with_large_samples(alloc)?,
        with_empty_samples(alloc, 20_000)?,
        repeated(alloc, v1, &v1[V1_MOOF..], 5_000)?,
        repeated(alloc, v1, b"\0\0\0\x08free", 20_000)?,
    ] {
        for command in COMMANDS {
            for copy in [4096, 65_536, 1 << 20] {
                check_calls(&rt, alloc, command, &stream, copy)?;
            }
        }
    }
    Ok(())
}

/// A reader that checks at each read whether the writer has what is due.
#[derive(Drop)]
struct Looking<'a, R> {
    inner: R,
    command: Command,
    given: usize,
    taken: &'a Cell<usize>,
    late: Option<usize>,
}

/// A writer that reports how many bytes it took.
#[derive(Drop)]
struct Counting<'a, W> {
    inner: W,
    taken: &'a Cell<usize>,
}

impl<'a, R: Source> Source for Looking<'a, R> {
    ghost remaining = { λ s. R.remaining s.inner };

    ghost has_failed = { λ s. R.has_failed s.inner };

    ghost has_ended = { λ s. R.has_ended s.inner };

    ghost last_read = { λ s. R.last_read s.inner };

    fn read(&mut self, into: &mut [u8]) -> Result<usize, Failed> {
        if self.late.is_none() && self.taken.get() != self.command.due(self.given) {
            self.late = Some(self.given);
        }
        let answer = self.inner.read(into);
        if let Ok(n) = answer {
            self.given = self.given.saturating_add(n);
        }
        answer
    }

    fn failed(&self) -> bool {
        self.inner.failed()
    }

    fn ended(&self) -> bool {
        self.inner.ended()
    }
}

impl<'a, W: Sink> Sink for Counting<'a, W> {
    ghost contents = { λ s. W.contents s.inner };

    ghost has_failed = { λ s. W.has_failed s.inner };

    fn write(&mut self, from: &[u8]) -> Result<usize, Failed> {
        let answer = self.inner.write(from);
        if let Ok(n) = answer {
            self.taken.set(self.taken.get().saturating_add(n));
        }
        answer
    }

    fn flush(&mut self) -> Result<(), Failed> {
        self.inner.flush()
    }

    fn failed(&self) -> bool {
        self.inner.failed()
    }
}

/// At each read of the first vector, that too which finds its end, just what the bytes before determine was written.
#[test]
fn writes_before_each_read(rt: HostRuntime) -> Result<(), Fail> {
    let alloc = rt.alloc();
    for command in COMMANDS {
        for step in [1, 5, 7, 483] {
            let taken = Cell::new(0);
            let mut r = Looking {
                inner: FromSlice::new(V1.as_slice(), step, false),
                command,
                given: 0,
                taken: &taken,
                late: None,
            };
            let mut w = Counting {
                inner: ToVec::new(alloc, 8192, 3, true)?,
                taken: &taken,
            };
            let mut fault_w = ToVec::new(alloc, 100, 100, true)?;
            let words = words_of(alloc, command.words())?;
            let status = run(alloc, words, &mut r, &mut w, &mut fault_w);
            assert_eq!(&rt;
                (status, r.given, r.late),
                (0, 483, None),
                "reads of {step}"
            );
        }
    }
    Ok(())
}
