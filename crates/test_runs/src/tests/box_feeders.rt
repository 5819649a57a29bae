//! Boxes of a stream that is pushed in as inputs. The listing of the first vector is that of `listings.rt`, by how
//! many of its bytes came.

ghost use Rattle.std.specs.Prelude.{◌≡◌, ◌≤◌};
ghost use Rattle.mp4_stream.specs.BoxFeeders.{held_by};

use super::{FTYP, MDAT, MOOF, MOOV, listing_of};
use mp4_stream::ends::ToVec;
use mp4_stream::vectors::{V1, V1_MOOV};
use mp4_stream::{BoxFeeder, Fault, FourCc, Ledger, Rule, Stop, Totals};
use std::alloc::Global;
use std::process::Abort;
use std::test::Fail;

/// A BoxFeeder, the ledger that serves it, and what it writes to.
struct Listed {
    feeder: BoxFeeder,
    ledger: Ledger,
    w: ToVec,
    ghost claim: { held_by feeder ≤ ledger.live },
}

impl Listed {
    /// With a limit, and a writer with so much room.
    fn new(alloc: Global, room: usize, limit: u64) -> Result<Listed, Fail> {
        let w = ToVec::new(alloc, room, 1000, true)?;
        Ok(Listed {
            feeder: BoxFeeder::new(),
            ledger: Ledger::new(alloc, limit),
            w,
        })
    }

    /// Pushes these bytes in as one input.
    fn push(&mut self, input: &[u8]) -> Result<(), Stop> {
        self.feeder.feed(&mut self.ledger, input, &mut self.w)
    }

    /// And each of them by itself.
    fn push_each(&mut self, bytes: &[u8]) -> Result<(), Stop> {
        for i in 0..bytes.len() {
            self.push(&bytes[i..i + 1])?;
        }
        Ok(())
    }

    /// The exact output of these first bytes of a stream: the listing, how much is held, and whether the stream may
    /// end here.
    fn check(self, rt: &impl Abort, k: usize, all: &[u8]) -> Result<(), Fail> {
        let (listed, held, ends) = due(k);
        assert_eq!(rt;
            self.w.bytes(),
            &all[..listed.min(all.len())],
            "after {k} bytes"
        );
        assert_eq!(rt;
            (self.feeder.held(), self.ledger.live()),
            (held, held),
            "after {k} bytes"
        );
        let (answer, live) = self.finish();
        assert_eq!(rt; (answer.is_ok(), live), (ends, 0), "after {k} bytes");
        Ok(())
    }

    /// The stream ended: the answer, and how much is claimed then.
    fn finish(self) -> (Result<Totals, Stop>, u64) {
        let Listed {
            feeder,
            ledger,
            w: _,
        } = self;
        let mut ledger = ledger;
        let answer = feeder.finish(&mut ledger);
        (answer, ledger.live())
    }
}

/// Of the first bytes of the first vector: how many bytes of its listing are written, how many bytes are held, and
/// whether a stream that ends here has no fault.
fn due(k: usize) -> (usize, u64, bool) {
    let ftyp = FTYP.len();
    let moov = MOOV.len();
    let moof = MOOF.len();
    let mdat = MDAT.len();
    let listed = match k {
        0..8 => 0,
        8..364 => ftyp,
        364..460 => ftyp.saturating_add(moov),
        460..468 => ftyp.saturating_add(moov).saturating_add(moof),
        _ => ftyp
            .saturating_add(moov)
            .saturating_add(moof)
            .saturating_add(mdat),
    };
    let held = match k {
        28..364 => 344,
        372..460 => 96,
        _ => 0,
    };
    (listed, held, matches!(k, 0 | 20 | 364 | 460 | 483))
}

#[test]
fn listings_by_inputs(rt: HostRuntime) -> Result<(), Fail> {
    let (alloc, v1) = (rt.alloc(), V1.as_slice());
    let all = listing_of(alloc, &[FTYP, MOOV, MOOF, MDAT])?;
    for k in 0..=v1.len() {
        let mut whole = Listed::new(alloc, 1000, 344)?;
        assert_eq!(&rt; whole.push(&v1[..k]), Ok(()));
        whole.check(&rt, k, &all)?;
        let mut single = Listed::new(alloc, 1000, 344)?;
        assert_eq!(&rt; single.push_each(&v1[..k]), Ok(()));
        single.check(&rt, k, &all)?;
    }
    let mut both = Listed::new(alloc, 1000, 344)?;
    assert_eq!(&rt;
        (both.push(&v1[..100]), both.push(&v1[100..])),
        (Ok(()), Ok(()))
    );
    let (answer, live) = both.finish();
    let totals = answer.expect(&rt, "a stream without a fault");
    assert_eq!(&rt; (totals.peak, totals.samples, live), (344, 0, 0));
    Ok(())
}

#[test]
fn listings_that_stop(rt: HostRuntime) -> Result<(), Fail> {
    let (alloc, v1) = (rt.alloc(), V1.as_slice());
    let all = listing_of(alloc, &[FTYP, MOOV, MOOF, MDAT])?;
    let mut low = Listed::new(alloc, 1000, 343)?;
    assert_eq!(&rt; low.push(v1), Err(Stop::OverLimit));
    assert_eq!(&rt; (low.w.bytes(), low.feeder.held()), (FTYP.as_bytes(), 0));
    assert_eq!(&rt; low.push(v1), Err(Stop::OverLimit));
    assert_eq!(&rt; low.feeder.stop(), Some(Stop::OverLimit));
    assert_eq!(&rt; low.finish(), (Err(Stop::OverLimit), 0));
    let mut full = Listed::new(alloc, 40, 344)?;
    assert_eq!(&rt; full.push_each(v1), Err(Stop::Write));
    assert_eq!(&rt; full.w.bytes(), &all[..40.min(all.len())]);
    assert_eq!(&rt; full.finish(), (Err(Stop::Write), 0));
    let fault = Stop::Stream(Fault {
        rule: Rule::BadSize,
        kind: Some(FourCc(*b"free")),
        offset: 20,
    });
    let mut bad = Listed::new(alloc, 1000, 344)?;
    assert_eq!(&rt; bad.push(&v1[..V1_MOOV]), Ok(()));
    assert_eq!(&rt; bad.push(b"\0\0\0\x07free"), Err(fault));
    assert_eq!(&rt; bad.push(v1), Err(fault));
    assert_eq!(&rt; bad.w.bytes(), FTYP.as_bytes());
    assert_eq!(&rt; bad.finish(), (Err(fault), 0));
    Ok(())
}
