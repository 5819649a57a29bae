//! Streams that are pushed in as inputs. The expected output of the first vector by two samples a fragment is a table,
//! by how many of its bytes came.

ghost use Rattle.std.specs.Prelude.{◌≡◌, ◌+◌, ◌<◌, ◌≤◌};
ghost use Rattle.mp4_stream.specs.Feeders.{held_by};

use super::ends::due_of_split;
use super::joined;
use super::split_stops::{before_a_large_moof, with_a_large_moof};
use super::splits::{by_two, tracks_by_two};
use mp4_stream::ends::ToVec;
use mp4_stream::vectors::{V1, V1_MOOF, V1_MOOV, V2};
use mp4_stream::{Cut, Fault, Feeder, FourCc, Ledger, Rule, Stop, Totals, split_pieces};
use std::alloc::Global;
use std::process::Abort;
use std::test::Fail;

/// A Feeder, the ledger that serves it, and what it writes to.
pub(super) struct Pushed {
    feeder: Feeder,
    ledger: Ledger,
    pub(super) w: ToVec,
    ghost claim: { held_by feeder ≤ ledger.live },
}

/// A Feeder that cuts by two samples a fragment.
fn by_two_samples(rt: &impl Abort) -> Feeder
    ensures { held_by result ≡ 0 }
{
    Feeder::new(two_samples(rt))
}

fn two_samples(rt: &impl Abort) -> Cut {
    Cut::new(2, None, false).expect(rt, "two samples are allowed")
}

impl Pushed {
    /// With ample memory, and a writer with so much room.
    pub(super) fn new(rt: &impl Abort, alloc: Global, room: usize) -> Result<Pushed, Fail> {
        Pushed::within(rt, alloc, room, 1 << 20)
    }

    /// And under a limit.
    fn within(rt: &impl Abort, alloc: Global, room: usize, limit: u64) -> Result<Pushed, Fail> {
        let w = ToVec::new(alloc, room, 1000, true)?;
        Ok(Pushed {
            feeder: by_two_samples(rt),
            ledger: Ledger::new(alloc, limit),
            w,
        })
    }

    /// Pushes these bytes in as one input.
    pub(super) fn push(&mut self, input: &[u8]) -> Result<(), Stop> {
        self.feeder.feed(&mut self.ledger, input, &mut self.w)
    }

    /// And each of them by itself.
    pub(super) fn push_each(&mut self, bytes: &[u8]) -> Result<(), Stop> {
        for i in 0..bytes.len() {
            self.push(&bytes[i..i + 1])?;
        }
        Ok(())
    }

    /// And by so many at once.
    fn push_by(&mut self, step: usize, bytes: &[u8]) -> Result<(), Stop>
        requires { 0 < step }
    {
        for input in bytes.chunks(step) {
            self.push(input)?;
        }
        Ok(())
    }

    /// The exact output of these first bytes of a stream: the text, how much is held, and how the stream
    /// ends here.
    fn check(self, rt: &impl Abort, k: usize, all: &[u8]) -> Result<(), Fail> {
        let (written, held, fault) = due(k);
        assert_eq!(rt;
            self.w.bytes(),
            &all[..written.min(all.len())],
            "after {k} bytes"
        );
        assert_eq!(rt;
            (self.feeder.held(), self.ledger.live()),
            (held, held),
            "after {k} bytes"
        );
        let (answer, live) = self.finish();
        let seen = match answer {
            Ok(_) => Ok(()),
            Err(stop) => Err(stop),
        };
        let wanted = match fault {
            None => Ok(()),
            Some(fault) => Err(Stop::Stream(fault)),
        };
        assert_eq!(rt; (seen, live), (wanted, 0), "after {k} bytes");
        Ok(())
    }

    /// The stream ended: the answer, and how much is claimed then.
    pub(super) fn finish(self) -> (Result<Totals, Stop>, u64) {
        let Pushed {
            feeder,
            ledger,
            w: _,
        } = self;
        let mut ledger = ledger;
        let answer = feeder.finish(&mut ledger);
        (answer, ledger.live())
    }

    /// How much is claimed after a stream that is given up.
    fn give_up(self) -> u64 {
        let Pushed {
            feeder,
            ledger,
            w: _,
        } = self;
        let mut ledger = ledger;
        feeder.give_up(&mut ledger);
        ledger.live()
    }
}

/// A box that breaks a rule.
fn at(rule: Rule, kind: Option<&[u8; 4]>, offset: u64) -> Option<Fault> {
    let kind = match kind {
        None => None,
        Some(kind) => Some(FourCc(*kind)),
    };
    Some(Fault { rule, kind, offset })
}

/// Of the first bytes of the first vector: how many bytes must have been written, how many are held, and the fault of a
/// stream that ends here.
fn due(k: usize) -> (usize, u64, Option<Fault>) {
    let written = due_of_split(k);
    let held = match k {
        0..28 => 0,
        28..364 => 344,
        364..372 => 64,
        372..460 => 160,
        460..483 => 224,
        _ => 64,
    };
    let fault = match k {
        0 | 20 | 364 => None,
        1..8 => at(Rule::Truncated, None, 0),
        8..20 => at(Rule::Truncated, Some(b"ftyp"), 0),
        21..28 => at(Rule::Truncated, None, 20),
        28..364 => at(Rule::Truncated, Some(b"moov"), 20),
        365..372 => at(Rule::Truncated, None, 364),
        372..460 => at(Rule::Truncated, Some(b"moof"), 364),
        460 => at(Rule::MdatMissing, Some(b"moof"), 364),
        461..468 => at(Rule::Truncated, None, 460),
        468..483 => at(Rule::Truncated, Some(b"mdat"), 460),
        _ => None,
    };
    (written, held, fault)
}

#[test]
fn pieces_of_any_length(rt: HostRuntime) -> Result<(), Fail> {
    let (alloc, v1) = (rt.alloc(), V1.as_slice());
    let all = by_two(alloc)?;
    for k in 0..=v1.len() {
        let mut whole = Pushed::new(&rt, alloc, 1000)?;
        assert_eq!(&rt; whole.push(&v1[..k]), Ok(()));
        whole.check(&rt, k, &all)?;
        let mut single = Pushed::new(&rt, alloc, 1000)?;
        assert_eq!(&rt; single.push_each(&v1[..k]), Ok(()));
        single.check(&rt, k, &all)?;
        let mut both = Pushed::new(&rt, alloc, 1000)?;
        assert_eq!(&rt; both.push(&v1[..k]), Ok(()));
        assert_eq!(&rt; both.push(&v1[k..]), Ok(()));
        both.check(&rt, v1.len(), &all)?;
    }
    Ok(())
}

#[test]
fn totals_of_a_stream(rt: HostRuntime) -> Result<(), Fail> {
    let (alloc, v1) = (rt.alloc(), V1.as_slice());
    let mut pushed = Pushed::new(&rt, alloc, 1000)?;
    assert_eq!(&rt; pushed.push_each(v1), Ok(()));
    let so_far = pushed.feeder.totals();
    let (answer, live) = pushed.finish();
    let totals = answer.expect(&rt, "a stream without a fault");
    let counted = (totals.fragments, totals.samples, totals.media_bytes);
    assert_eq!(&rt; (counted, totals.peak, live), ((2, 3, 15), 408, 0));
    assert_eq!(&rt; so_far, totals);
    // Each of the three samples 5 to 8 times.
    assert!(&rt; 15 <= totals.rows_read && totals.rows_read <= 24);
    Ok(())
}

#[test]
fn pieces_of_a_list(rt: HostRuntime) -> Result<(), Fail> {
    let (alloc, v1) = (rt.alloc(), V1.as_slice());
    let all = by_two(alloc)?;
    let (mut w, mut ledger) = (
        ToVec::new(alloc, 1000, 1000, true)?,
        Ledger::new(alloc, 408),
    );
    let pieces = [&v1[..5], b"".as_slice(), &v1[5..470], &v1[470..]];
    let answer = split_pieces(&pieces, &mut w, &mut ledger, two_samples(&rt));
    let samples = answer.expect(&rt, "a stream without a fault").samples;
    assert_eq!(&rt; (w.bytes(), samples, ledger.live()), (all.as_slice(), 3, 0));
    Ok(())
}

#[test]
fn stops_stay(rt: HostRuntime) -> Result<(), Fail> {
    let (alloc, v1) = (rt.alloc(), V1.as_slice());
    let without = joined(alloc, &[&v1[..V1_MOOV], &v1[V1_MOOF..]])?;
    let fault = at(Rule::NoMoov, Some(b"moof"), 20).expect(&rt, "a fault");
    let stop = Stop::Stream(fault);
    let mut pushed = Pushed::new(&rt, alloc, 1000)?;
    assert_eq!(&rt; pushed.push(&without), Err(stop));
    assert_eq!(&rt;
        (pushed.w.bytes(), pushed.feeder.held()),
        (&v1[..V1_MOOV], 0)
    );
    assert_eq!(&rt; pushed.push(v1), Err(stop));
    assert_eq!(&rt; pushed.push(&[]), Err(stop));
    assert_eq!(&rt; pushed.w.bytes(), &v1[..V1_MOOV]);
    assert_eq!(&rt; pushed.finish(), (Err(stop), 0));
    Ok(())
}

#[test]
fn writers_that_fail(rt: HostRuntime) -> Result<(), Fail> {
    let (alloc, v1) = (rt.alloc(), V1.as_slice());
    let all = by_two(alloc)?;
    for room in 0..all.len() {
        let wanted = (&all[..room], 0);
        let mut whole = Pushed::new(&rt, alloc, room)?;
        assert_eq!(&rt; whole.push(v1), Err(Stop::Write));
        assert_eq!(&rt; (whole.w.bytes(), whole.feeder.held()), wanted);
        assert_eq!(&rt; whole.finish(), (Err(Stop::Write), 0));
        let mut single = Pushed::new(&rt, alloc, room)?;
        assert_eq!(&rt; single.push_each(v1), Err(Stop::Write));
        assert_eq!(&rt; (single.w.bytes(), single.feeder.held()), wanted);
        assert_eq!(&rt; single.finish(), (Err(Stop::Write), 0));
    }
    Ok(())
}

#[test]
fn a_writer_that_is_mended(rt: HostRuntime) -> Result<(), Fail> {
    let (alloc, v1) = (rt.alloc(), V1.as_slice());
    let mended = ToVec::new(alloc, 1000, 1000, true)?;
    let mut pushed = Pushed::new(&rt, alloc, 100)?;
    assert_eq!(&rt; pushed.push(v1), Err(Stop::Write));
    assert_eq!(&rt; (pushed.w.bytes(), pushed.feeder.held()), (&v1[..100], 0));
    pushed.w = mended;
    assert_eq!(&rt; pushed.push(v1), Err(Stop::Write));
    assert_eq!(&rt; pushed.w.bytes().len(), 0);
    assert_eq!(&rt; pushed.finish(), (Err(Stop::Write), 0));
    Ok(())
}

/// A stream is pushed in under a limit, by single bytes or whole: the answer, and how many bytes it must have written.
/// After a stop nothing is claimed, and it answers the same.
fn check_within(
    rt: &impl Abort,
    alloc: Global,
    limit: u64,
    stream: &[u8],
    single: bool,
    answer: Result<(), Stop>,
    written: usize,
) -> Result<(), Fail> {
    let all = by_two(alloc)?;
    let written = &all[..written.min(all.len())];
    let mut pushed = Pushed::within(rt, alloc, 1000, limit)?;
    let answered = if single {
        pushed.push_each(stream)
    } else {
        pushed.push(stream)
    };
    assert_eq!(rt;
        (answered, pushed.w.bytes()),
        (answer, written),
        "limit {limit}"
    );
    if answer.is_ok() {
        assert_eq!(rt; pushed.give_up(), 0);
        return Ok(());
    }
    assert_eq!(rt; pushed.feeder.held(), 0);
    assert_eq!(rt;
        (pushed.push(stream), pushed.w.bytes()),
        (answer, written),
        "limit {limit}"
    );
    assert_eq!(rt; pushed.finish(), (Err(Stop::OverLimit), 0));
    Ok(())
}

/// Each claim is refused in turn: that of the moov, of the table of its tracks, of a moof, and of the list of its runs.
#[test]
fn limits_of_a_feeder(rt: HostRuntime) -> Result<(), Fail> {
    let (alloc, v1) = (rt.alloc(), V1.as_slice());
    let large = with_a_large_moof(alloc)?;
    let over = Err(Stop::OverLimit);
    for single in [false, true] {
        for limit in [0, 343, 344, 407] {
            check_within(&rt, alloc, limit, v1, single, over, 20)?;
        }
        check_within(&rt, alloc, 408, v1, single, Ok(()), 627)?;
        for limit in [408, 559, 560, 623] {
            check_within(&rt, alloc, limit, &large, single, over, 364)?;
        }
        check_within(&rt, alloc, 624, &large, single, Ok(()), 627)?;
    }
    Ok(())
}

/// The claim for the runs of a second fragment is refused: the first is written and counted.
#[test]
fn fragments_before_a_refused_claim(rt: HostRuntime) -> Result<(), Fail> {
    let alloc = rt.alloc();
    let (stream, all) = (before_a_large_moof(alloc)?, by_two(alloc)?);
    for step in [1, 7, 65_536] {
        let mut pushed = Pushed::within(&rt, alloc, 1000, 623)?;
        assert_eq!(&rt; pushed.push_by(step, &stream), Err(Stop::OverLimit));
        let fragments = pushed.feeder.totals().fragments;
        assert_eq!(&rt; (pushed.w.bytes(), fragments), (all.as_slice(), 2));
        assert_eq!(&rt; pushed.finish(), (Err(Stop::OverLimit), 0));
    }
    Ok(())
}

#[test]
fn pieces_without_bytes(rt: HostRuntime) -> Result<(), Fail> {
    let (alloc, v1) = (rt.alloc(), V1.as_slice());
    let all = by_two(alloc)?;
    for k in [0, 5, 24, 100, 400, 460, 475, 483] {
        let mut pushed = Pushed::new(&rt, alloc, 1000)?;
        assert_eq!(&rt; pushed.push(&v1[..k]), Ok(()));
        let totals = pushed.feeder.totals();
        assert_eq!(&rt; pushed.push(&[]), Ok(()));
        assert_eq!(&rt; pushed.feeder.totals(), totals);
        pushed.check(&rt, k, &all)?;
    }
    Ok(())
}

#[test]
fn streams_given_up(rt: HostRuntime) -> Result<(), Fail> {
    let mut pushed = Pushed::new(&rt, rt.alloc(), 1000)?;
    assert_eq!(&rt; pushed.push(&V1.as_slice()[..400]), Ok(()));
    assert_eq!(&rt; (pushed.feeder.held(), pushed.give_up()), (160, 0));
    Ok(())
}

/// Two Feeders that one ledger serves, and what they write to.
struct Pair {
    first: Feeder,
    second: Feeder,
    ledger: Ledger,
    first_w: ToVec,
    second_w: ToVec,
    ghost claim: { held_by first + held_by second ≤ ledger.live },
}

impl Pair {
    /// Under a limit.
    fn new(rt: &impl Abort, alloc: Global, limit: u64) -> Result<Pair, Fail> {
        let first_w = ToVec::new(alloc, 2000, 1000, true)?;
        let second_w = ToVec::new(alloc, 2000, 1000, true)?;
        Ok(Pair {
            first: by_two_samples(rt),
            second: by_two_samples(rt),
            ledger: Ledger::new(alloc, limit),
            first_w,
            second_w,
        })
    }

    fn push_first(&mut self, input: &[u8]) -> Result<(), Stop> {
        self.first.feed(&mut self.ledger, input, &mut self.first_w)
    }

    fn push_second(&mut self, input: &[u8]) -> Result<(), Stop> {
        self.second
            .feed(&mut self.ledger, input, &mut self.second_w)
    }

    /// Gives both up: how much is claimed then.
    fn give_up(self) -> u64 {
        let Pair {
            first,
            second,
            ledger,
            first_w: _,
            second_w: _,
        } = self;
        let mut ledger = ledger;
        first.give_up(&mut ledger);
        second.give_up(&mut ledger);
        ledger.live()
    }
}

/// The first vector is pushed to one Feeder until its table is held, then to another as a whole, and then the rest to
/// the first: what the other answers, and how many bytes it must have written.
fn check_limit(
    rt: &impl Abort,
    alloc: Global,
    limit: u64,
    answer: Result<(), Stop>,
    written: usize,
) -> Result<(), Fail> {
    let (all, v1) = (by_two(alloc)?, V1.as_slice());
    let mut pair = Pair::new(rt, alloc, limit)?;
    assert_eq!(rt; pair.push_first(&v1[..V1_MOOF]), Ok(()));
    assert_eq!(rt; pair.push_second(v1), answer);
    assert_eq!(rt; pair.second_w.bytes(), &all[..written.min(all.len())]);
    assert_eq!(rt; pair.push_first(&v1[V1_MOOF..]), Ok(()));
    assert_eq!(rt; pair.first_w.bytes(), all.as_slice());
    assert_eq!(rt; pair.give_up(), 0);
    Ok(())
}

#[test]
fn one_ledger(rt: HostRuntime) -> Result<(), Fail> {
    check_limit(&rt, rt.alloc(), 471, Err(Stop::OverLimit), 20)?;
    check_limit(&rt, rt.alloc(), 472, Ok(()), 627)
}

#[test]
fn streams_in_turn(rt: HostRuntime) -> Result<(), Fail> {
    let (alloc, v1, v2) = (rt.alloc(), V1.as_slice(), V2.as_slice());
    let (one, two) = (by_two(alloc)?, tracks_by_two(alloc)?);
    let mut pair = Pair::new(&rt, alloc, 1 << 20)?;
    for i in 0..v2.len() {
        assert_eq!(&rt; pair.push_second(&v2[i..i + 1]), Ok(()));
        let next = &v1[i.min(v1.len())..(i + 1).min(v1.len())];
        assert_eq!(&rt; pair.push_first(next), Ok(()));
    }
    assert_eq!(&rt;
        (pair.first_w.bytes(), pair.second_w.bytes()),
        (one.as_slice(), two.as_slice())
    );
    // The most that each had itself: a moov and its table.
    assert_eq!(&rt;
        (pair.first.totals().peak, pair.second.totals().peak),
        (408, 692)
    );
    assert_eq!(&rt; pair.give_up(), 0);
    Ok(())
}
