//! What no clause says: what an adapter makes of std's errors.

use mp4_box::{Failed, FromRead, IntoWrite, Sink, Source, write_all};
use std::cell::Cell;
use std::io;

/// A reader and a writer of std that are always interrupted.
#[derive(Drop)]
struct Interrupted;

impl io::Read for Interrupted {
    fn read(&mut self, _: &mut [u8]) -> io::Result<usize> {
        Err(io::Error::from(io::ErrorKind::Interrupted))
    }
}

impl io::Write for Interrupted {
    fn write(&mut self, _: &[u8]) -> io::Result<usize> {
        Err(io::Error::from(io::ErrorKind::Interrupted))
    }

    fn flush(&mut self) -> io::Result<()> {
        Err(io::Error::from(io::ErrorKind::Interrupted))
    }
}

#[test]
fn an_interrupted_read_is_a_failure(rt: HostRuntime) {
    let mut r = FromRead::new(Interrupted);
    let mut into = [0; 4];
    let new = (r.failed(), r.ended());
    let first = r.read(&mut into);
    let then = (r.failed(), r.ended());
    let second = r.read(&mut into);
    assert_eq!(rt; (new, then), ((false, false), (true, false)));
    assert_eq!(rt; (first, second), (Err(Failed), Err(Failed)));
}

#[test]
fn a_reader_gives_its_bytes_and_ends(rt: HostRuntime) {
    let mut r = FromRead::new(b"abc".as_slice());
    let mut into = [0; 4];
    let first = (r.read(&mut into), r.failed(), r.ended());
    let second = (r.read(&mut into), r.failed(), r.ended());
    assert_eq!(rt;
        (first, second),
        ((Ok(3), false, false), (Ok(0), false, true))
    );
    assert_eq!(rt; into, *b"abc\0");
}

#[test]
fn an_interrupted_write_is_a_failure(rt: HostRuntime) {
    let mut w = IntoWrite::new(Interrupted);
    let write = (w.write(b"abc"), w.failed());
    let mut w = IntoWrite::new(Interrupted);
    let flush = (w.flush(), w.failed());
    assert_eq!(rt; (write, flush), ((Err(Failed), true), (Err(Failed), true)));
}

#[test]
fn a_writer_takes_bytes_until_it_takes_none(rt: HostRuntime) {
    let mut taken = [0; 4];
    let mut w = IntoWrite::new(taken.as_mut_slice());
    let first = (write_all(&mut w, b"abc"), w.flush(), w.failed());
    let second = (w.write(b"de"), w.failed());
    let third = (w.write(b"e"), w.failed());
    assert_eq!(rt; first, (Ok(()), Ok(()), false));
    assert_eq!(rt; (second, third), ((Ok(1), false), (Err(Failed), true)));
}

/// What an end of std's does at a call.
#[derive(Clone, Copy, PartialEq, Eq)]
enum Deed {
    Interrupted,
    Nothing,
    OneByte,
}

/// A reader and a writer of std that do these deeds one after the other, and then take or give a byte at each call.
/// They count their calls, flushes among them; a byte that is given is the number of the call.
#[derive(Drop)]
struct Counting<'c> {
    deeds: &'c [Deed],
    calls: &'c Cell<u8>,
}

impl<'c> Counting<'c> {
    fn next_deed(&mut self) -> Deed {
        self.calls.set(self.calls.get().saturating_add(1));
        let Some((first, others)) = self.deeds.split_first() else {
            return Deed::OneByte;
        };
        self.deeds = others;
        *first
    }
}

impl<'c> io::Read for Counting<'c> {
    fn read(&mut self, into: &mut [u8]) -> io::Result<usize> {
        match self.next_deed() {
            Deed::Interrupted => Err(io::Error::from(io::ErrorKind::Interrupted)),
            Deed::OneByte if !into.is_empty() => {
                into[0] = self.calls.get();
                Ok(1)
            }
            _ => Ok(0),
        }
    }
}

impl<'c> io::Write for Counting<'c> {
    fn write(&mut self, from: &[u8]) -> io::Result<usize> {
        match self.next_deed() {
            Deed::Interrupted => Err(io::Error::from(io::ErrorKind::Interrupted)),
            Deed::OneByte if !from.is_empty() => Ok(1),
            _ => Ok(0),
        }
    }

    fn flush(&mut self) -> io::Result<()> {
        match self.next_deed() {
            Deed::OneByte => Ok(()),
            _ => Err(io::Error::from(io::ErrorKind::Interrupted)),
        }
    }
}

/// The results of three reads.
#[derive(Clone, Copy, Debug, PartialEq, Eq)]
struct Reads {
    answers: [Result<usize, Failed>; 3],
    last_byte: u8,
    calls: u8,
}

/// Reads three times from a reader that does these deeds.
fn three_reads(deeds: &[Deed]) -> Reads {
    let calls = Cell::new(0);
    let mut r = FromRead::new(Counting {
        deeds,
        calls: &calls,
    });
    let mut into = [0; 4];
    let answers = [r.read(&mut into), r.read(&mut into), r.read(&mut into)];
    Reads {
        answers,
        last_byte: into[0],
        calls: calls.get(),
    }
}

fn came_to(answers: [Result<usize, Failed>; 3], last_byte: u8, calls: u8) -> Reads {
    Reads {
        answers,
        last_byte,
        calls,
    }
}

#[test]
fn each_read_asks_the_reader_once(rt: HostRuntime) {
    assert_eq!(rt; three_reads(&[]), came_to([Ok(1), Ok(1), Ok(1)], 3, 3));
}

#[test]
fn a_reader_that_failed_or_ended_is_not_asked_again(rt: HostRuntime) {
    let failed = three_reads(&[Deed::Interrupted]);
    let ended = three_reads(&[Deed::Nothing]);
    let later = three_reads(&[Deed::OneByte, Deed::Interrupted]);
    assert_eq!(rt;
        failed,
        came_to([Err(Failed), Err(Failed), Err(Failed)], 0, 1)
    );
    assert_eq!(rt; ended, came_to([Ok(0), Ok(0), Ok(0)], 0, 1));
    assert_eq!(rt; later, came_to([Ok(1), Err(Failed), Err(Failed)], 1, 2));
}

/// The results of a write, a flush and a write.
#[derive(Clone, Copy, Debug, PartialEq, Eq)]
struct Writes {
    first: Result<usize, Failed>,
    flush: Result<(), Failed>,
    second: Result<usize, Failed>,
    calls: u8,
}

/// Writes, flushes and writes to a writer that does these deeds.
fn two_writes(deeds: &[Deed]) -> Writes {
    let calls = Cell::new(0);
    let mut w = IntoWrite::new(Counting {
        deeds,
        calls: &calls,
    });
    Writes {
        first: w.write(b"ab"),
        flush: w.flush(),
        second: w.write(b"ab"),
        calls: calls.get(),
    }
}

#[test]
fn each_write_and_flush_asks_the_writer_once(rt: HostRuntime) {
    let all = Writes {
        first: Ok(1),
        flush: Ok(()),
        second: Ok(1),
        calls: 3,
    };
    assert_eq!(rt; two_writes(&[]), all);
}

#[test]
fn a_writer_that_failed_is_not_asked_again(rt: HostRuntime) {
    let never = Writes {
        first: Err(Failed),
        flush: Err(Failed),
        second: Err(Failed),
        calls: 1,
    };
    let once = Writes {
        first: Ok(1),
        calls: 2,
        ..never
    };
    assert_eq!(rt; two_writes(&[Deed::Interrupted]), never);
    assert_eq!(rt; two_writes(&[Deed::Nothing]), never);
    assert_eq!(rt; two_writes(&[Deed::OneByte, Deed::Interrupted]), once);
}
