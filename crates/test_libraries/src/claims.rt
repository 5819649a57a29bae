//! What no clause says: that a claim succeeds where memory is ample, and is refused where there is none. And how what
//! holds claims is written: it needs no proof by hand.
ghost use Rattle.std.specs.Prelude.{◌≡◌, ◌+◌, ◌*◌, ◌≤◌, IfOk, OnErr};
ghost use Rattle.mp4_ledger.specs.Memory.{given_back};

use mp4_ledger::{Buf, Ledger, Refused, Rows64};
use std::marker::Model;
use std::process::Abort;
use std::test::Fail;

/// Holds a buffer and a table, or one of them, or neither.
struct Holder {
    buf: Option<Buf>,
    rows: Option<Rows64>,
}

impl Model for Holder {
    ghost use Rattle.std.specs.Prelude.{ℕ, ◌+◌};
    ghost use Rattle.mp4_ledger.specs.Memory.{bytes_out, rows_out};

    ghost Value = { ℕ };

    ghost view = { λ h. bytes_out h.buf + rows_out h.rows };
}

impl Holder {
    /// Claims a buffer of so many bytes and a table of so many rows, or nothing.
    fn claim(ledger: &mut Ledger, cap: u64, rows: u64) -> Result<Holder, Refused>
        ensures ok { IfOk result (λ h. (h ≡ cap + 64 * rows) ×
            (ledger.new.live ≡ ledger.old.live + h)) }
        ensures err { OnErr result (ledger.new.live ≡ ledger.old.live) }
    {
        let buf = match ledger.buf(cap) {
            Ok(buf) => buf,
            Err(refused) => return Err(refused),
        };
        match ledger.rows(rows) {
            Ok(rows) => Ok(Holder {
                buf: Some(buf),
                rows: Some(rows),
            }),
            Err(refused) => {
                ledger.back(buf);
                Err(refused)
            }
        }
    }

    /// Gives all back, and holds nothing from then on.
    fn empty(&mut self, ledger: &mut Ledger)
        requires { self.old ≤ ledger.old.live }
        ensures out { self.new ≡ 0 }
        ensures live { ledger.new ≡ given_back ledger.old self.old }
    {
        if let Some(buf) = self.buf.take() {
            ledger.back(buf);
        }
        if let Some(rows) = self.rows.take() {
            ledger.back_rows(rows);
        }
    }

    /// Gives all back, and ends.
    fn finish(self, ledger: &mut Ledger)
        requires { self ≤ ledger.old.live }
        ensures { ledger.new ≡ given_back ledger.old self }
    {
        let Holder { buf, rows } = self;
        if let Some(buf) = buf {
            ledger.back(buf);
        }
        if let Some(rows) = rows {
            ledger.back_rows(rows);
        }
    }
}

#[test]
fn a_holder_gives_back(rt: HostRuntime) {
    let mut ledger = Ledger::new(rt.alloc(), 228);
    // The table is refused, and the buffer given back.
    match Holder::claim(&mut ledger, 101, 2) {
        Ok(holder) => holder.finish(&mut ledger),
        Err(refused) => assert_eq!(rt; refused, Refused::OverLimit),
    }
    assert_eq!(rt; (ledger.live(), ledger.peak()), (0, 101));
    let Ok(mut holder) = Holder::claim(&mut ledger, 100, 2) else {
        panic!(rt; "within the limit");
    };
    assert_eq!(rt; (ledger.live(), ledger.peak()), (228, 228));
    holder.empty(&mut ledger);
    assert_eq!(rt; ledger.live(), 0);
    holder.finish(&mut ledger);
    assert_eq!(rt; (ledger.live(), ledger.peak()), (0, 228));
}

#[test]
fn claims_of_a_limit_of_100(rt: HostRuntime) {
    let mut ledger = Ledger::new(rt.alloc(), 100);
    let Ok(first) = ledger.buf(60) else {
        panic!(rt; "60 of 100");
    };
    match ledger.buf(41) {
        Ok(more) => {
            ledger.back(more);
            panic!(rt; "101 of 100");
        }
        Err(refused) => assert_eq!(rt; refused, Refused::OverLimit),
    }
    let one = ledger.live();
    let Ok(second) = ledger.buf(40) else {
        ledger.back(first);
        panic!(rt; "100 of 100");
    };
    let two = ledger.live();
    ledger.back(first);
    let left = (ledger.live(), ledger.peak(), ledger.limit());
    let earlier = ledger.mark();
    let marked = ledger.peak();
    ledger.back(second);
    assert_eq!(rt; (one, two, left, marked), (60, 100, (40, 100, 100), 40));
    let after = (ledger.live(), ledger.peak());
    ledger.lift(earlier);
    assert_eq!(rt; (after, ledger.peak()), ((0, 40), 100));
}

/// A buffer of so many bytes, or a table of so many rows.
#[derive(Clone, Copy, Debug)]
enum Claim {
    Bytes(u64),
    Rows(u64),
}

/// Why a claim is refused. What isn't refused is given back.
fn refused(ledger: &mut Ledger, claim: Claim) -> Option<Refused> {
    match claim {
        Claim::Bytes(cap) => match ledger.buf(cap) {
            Ok(buf) => {
                ledger.back(buf);
                None
            }
            Err(refused) => Some(refused),
        },
        Claim::Rows(n) => match ledger.rows(n) {
            Ok(rows) => {
                ledger.back_rows(rows);
                None
            }
            Err(refused) => Some(refused),
        },
    }
}

/// Why each of these claims is refused under a limit.
fn check_claims(
    rt: &impl Abort,
    ledger: &mut Ledger,
    rows: &[(Claim, Option<Refused>)],
) -> Result<(), Fail> {
    for (claim, expected) in rows {
        assert_eq!(rt; refused(ledger, *claim), *expected, "{claim:?}");
    }
    Ok(())
}

#[test]
fn claims_at_the_ends(rt: HostRuntime) -> Result<(), Fail> {
    check_claims(
        &rt,
        &mut Ledger::new(rt.alloc(), 0),
        &[
            (Claim::Bytes(0), None),
            (Claim::Rows(0), None),
            (Claim::Bytes(1), Some(Refused::OverLimit)),
            (Claim::Rows(1), Some(Refused::OverLimit)),
        ],
    )?;
    // No machine has so much: within the limit it is the allocator that refuses. 2^58 rows take 2^64 bytes, which
    // passes every limit. Nothing is claimed.
    let mut all = Ledger::new(rt.alloc(), u64::MAX);
    check_claims(
        &rt,
        &mut all,
        &[
            (Claim::Bytes(1 << 62), Some(Refused::Memory)),
            (Claim::Rows(1 << 56), Some(Refused::Memory)),
            (Claim::Bytes(u64::MAX), Some(Refused::Memory)),
            (Claim::Rows(1 << 57), Some(Refused::Memory)),
            (Claim::Rows(1 << 58), Some(Refused::OverLimit)),
            (Claim::Rows(u64::MAX), Some(Refused::OverLimit)),
        ],
    )?;
    assert_eq!(rt; (all.live(), all.peak()), (0, 0));
    check_claims(
        &rt,
        &mut Ledger::new(rt.alloc(), u64::MAX - 1),
        &[
            (Claim::Bytes(u64::MAX), Some(Refused::OverLimit)),
            (Claim::Rows(1 << 58), Some(Refused::OverLimit)),
        ],
    )
}

#[test]
fn bytes(rt: HostRuntime) {
    let mut ledger = Ledger::new(rt.alloc(), 1000);
    let Ok(mut buf) = ledger.buf(10) else {
        panic!(rt; "10 of 1000");
    };
    let new = (buf.len(), buf.is_empty());
    buf.push_slice(&[1, 2, 3]);
    buf.shorten(2);
    let room = buf.room_mut(4);
    room[3] = 9;
    let mut all = [0; 4];
    all.copy_from_slice(buf.bytes());
    buf.shorten(7);
    let kept = (buf.len(), buf.cap(), buf.is_empty());
    buf.clear();
    let cleared = (buf.len(), buf.cap());
    ledger.back(buf);
    assert_eq!(rt; (new, kept, cleared), ((0, true), (4, 10, false), (0, 10)));
    assert_eq!(rt; all, [1, 2, 0, 9]);
    assert_eq!(rt; (ledger.live(), ledger.peak()), (0, 10));
}

#[test]
fn rows(rt: HostRuntime) {
    let mut ledger = Ledger::new(rt.alloc(), 1000);
    let Ok(mut rows) = ledger.rows(2) else {
        panic!(rt; "128 of 1000");
    };
    let new = (ledger.live(), rows.is_empty());
    rows.push([1, 2, 3, 4, 5, 6, 7, 8]);
    rows.push([0; 8]);
    rows.set(1, [7; 8]);
    let all = rows.all_mut();
    all[1][2] = 5;
    let full = (rows.len(), rows.cap());
    let both = [rows.get(0), rows.get(1)];
    ledger.back_rows(rows);
    assert_eq!(rt; (new, full), ((128, true), (2, 2)));
    assert_eq!(rt; both, [[1, 2, 3, 4, 5, 6, 7, 8], [7, 7, 5, 7, 7, 7, 7, 7]]);
    assert_eq!(rt; (ledger.live(), ledger.peak()), (0, 128));
}
