//! The jobs: what is done to which stream.

ghost use Rattle.std.specs.Prelude.{◌≡◌, ◌<◌, ◌≤◌};
ghost use Rattle.mp4_fragment_machine.specs.Places.{claim_of};
ghost use Rattle.mp4_fragment_machine.specs.States.{place_in};

use crate::digest::Digest;
use crate::fragments::{COMPOSITION, DURATION, FIRST_FLAGS, FLAGS, Layout, SIZE};
use crate::stream::Stream;
use mp4_stream::{Cut, Feeder, Ledger, Stop, Totals, check, samples, split};
use std::alloc::Global;

/// How many bytes are read at once, which is what the program fmp4 reads.
const COPY: u32 = 65_536;

/// How many bytes a Feeder is given at once: what a datagram of seven packets of MPEG transport streams has room for.
const DATAGRAM: usize = 1_316;

/// The ledger's limit, in bytes.
const LIMIT: u64 = 1 << 30;

/// What is done to a stream.
#[derive(Clone, Copy)]
pub enum Job {
    /// A live stream of speech is cut into fragments of one sample.
    CutLive,
    /// Long runs with all fields are cut into fragments of ten samples.
    CutRows,
    /// A muxed stream of short fragments is checked.
    CheckMuxed,
    /// The samples of a stream of sound are listed.
    ListSound,
    /// A muxed stream is pushed into a Feeder by datagrams, and cut by two samples.
    FeedMuxed,
    /// Fragments of thousands of runs, in an order of their own, are checked.
    CheckShuffled,
}

impl Job {
    /// The job of this name.
    pub fn named(name: &str) -> Option<Job> {
        match name {
            "cut_live" => Some(Job::CutLive),
            "cut_rows" => Some(Job::CutRows),
            "check_muxed" => Some(Job::CheckMuxed),
            "list_sound" => Some(Job::ListSound),
            "feed_muxed" => Some(Job::FeedMuxed),
            "check_shuffled" => Some(Job::CheckShuffled),
            _ => None,
        }
    }

    /// How many samples a fragment has at most that is written.
    fn most(self) -> u32 {
        match self {
            Job::CutRows => 10,
            Job::FeedMuxed => 2,
            _ => 1,
        }
    }

    /// What the fragments of its stream are like.
    fn layout(self) -> Layout {
        match self {
            Job::CutLive => of_one_track(10, FIRST_FLAGS | SIZE, 40, 64),
            Job::CutRows => of_one_track(1_000, DURATION | SIZE | FLAGS | COMPOSITION, 40, 2),
            Job::ListSound => of_one_track(94, SIZE, 20, 8),
            Job::CheckMuxed | Job::FeedMuxed => Layout {
                tracks: 2,
                trafs: 2,
                ..of_one_track(6, FIRST_FLAGS | DURATION | SIZE, 100, 64)
            },
            Job::CheckShuffled => Layout {
                tracks: 101,
                trafs: 5_050,
                untimed: true,
                shuffled: true,
                period: 4,
                ..of_one_track(1, SIZE, 24, 1)
            },
        }
    }
}

/// Fragments of one run, with sizes of so many bytes and of a range from there on.
fn of_one_track(samples: u32, fields: u32, least: u32, sizes: u32) -> Layout {
    Layout {
        tracks: 1,
        trafs: 1,
        samples,
        fields,
        least,
        sizes,
        untimed: false,
        shuffled: false,
        period: 16,
    }
}

/// What came of a stream: the totals or why it stopped, and the bytes that were written.
pub struct Outcome {
    pub answer: Result<Totals, Stop>,
    pub written: Digest,
}

/// A Feeder, and the ledger that serves it.
struct Pushed {
    feeder: Feeder,
    ledger: Ledger,
    ghost claim: { claim_of (place_in feeder.machine) ≤ ledger.live },
}

impl Pushed {
    /// Pushes bytes in, by datagrams.
    fn push(&mut self, bytes: &[u8], w: &mut Digest) -> Result<(), Stop> {
        for datagram in bytes.chunks(DATAGRAM) {
            self.feeder.feed(&mut self.ledger, datagram, w)?;
        }
        Ok(())
    }

    /// Pushes a stream in.
    fn push_stream(&mut self, stream: &mut Stream, w: &mut Digest) -> Result<(), Stop> {
        self.push(stream.bytes(), w)?;
        for _ in 0..u32::MAX {
            if !stream.advance() {
                return Ok(());
            }
            self.push(stream.bytes(), w)?;
        }
        Ok(())
    }

    /// Ends the stream.
    fn finish(self) -> Result<Totals, Stop> {
        let Pushed { feeder, ledger } = self;
        let mut ledger = ledger;
        feeder.finish(&mut ledger)
    }
}

/// Pushes a stream into a Feeder.
fn feed(alloc: Global, stream: &mut Stream, cut: Cut, w: &mut Digest) -> Result<Totals, Stop> {
    let mut pushed = Pushed {
        feeder: Feeder::new(cut),
        ledger: Ledger::new(alloc, LIMIT),
    };
    // After a stop `finish` answers the same.
    let _ = pushed.push_stream(stream, w);
    pushed.finish()
}

/// Reads a stream and does to it what is asked for.
fn read(
    alloc: Global,
    job: Job,
    stream: &mut Stream,
    cut: &Cut,
    w: &mut Digest,
) -> Result<Totals, Stop> {
    let mut ledger = Ledger::new(alloc, LIMIT);
    let mut totals = Totals::new();
    match job {
        Job::ListSound => samples(stream, w, &mut ledger, COPY, &mut totals)?,
        Job::CheckMuxed | Job::CheckShuffled => check(stream, &mut ledger, COPY, &mut totals)?,
        _ => split(stream, w, &mut ledger, cut, COPY, &mut totals)?,
    }
    Ok(totals)
}

/// Does a job to its stream of a seed, of so many periods; none where there is no memory for the stream.
pub fn run_job(alloc: Global, job: Job, seed: u32, periods: u32) -> Option<Outcome> {
    let cut = Cut::new(job.most(), None, false)?;
    let mut stream = Stream::new(alloc, &job.layout(), seed, periods).ok()?;
    let mut written = Digest::new();
    let answer = match job {
        Job::FeedMuxed => feed(alloc, &mut stream, cut, &mut written),
        _ => read(alloc, job, &mut stream, &cut, &mut written),
    };
    Some(Outcome { answer, written })
}
