//! Requests of C.

ghost use Rattle.std.specs.Prelude.{◌≡◌, ◌≤◌, IfErr, IfNone, IfOk, IfSome};
ghost use Rattle.fmp4_c.specs.Calls.{IsInRange, IsListedBy, IsListing, IsNoListing, IsOutOfRange, IsSplitBy, checked_by, header_layout, listing_number, share_of, share_of_listing};

use crate::answer::Answer;
use crate::request::CutRequest;
use crate::task::Task;
use mp4_stream::{Command, Operation};

/// The sizes of structs in the header: 88 bytes for a record, 32 for a stream, and 80 for a report.
const LAYOUT: u32 = 0x5820_0050;

/// A feed takes a 128th of what is free: a byte of a sample becomes at most 117 of output.
const SHARE: usize = 128;

/// And with an index a 512th: a byte may be a run of its own, with an index of its own. So may one of a listing of
/// samples, since a byte may be a sample, whose line has up to 256.
const SHARE_WITH_INDEX: usize = 512;

/// And of what is listed by records a 32nd: a record of 88 bytes is of a traf, which has 24 at the least.
const SHARE_OF_RECORDS: usize = 32;

/// What a stream is opened for.
#[derive(Clone, Copy)]
pub struct Asked {
    /// What is done with it.
    pub task: Task,
    /// The most bytes that it may take, with the room.
    pub limit: u64,
    /// How many bytes of output may wait.
    pub room: usize,
    /// Which share of what is free in the room is taken of the input at once, as 128 for a 128th; 0: the input as a
    /// whole.
    pub share: usize,
}

impl Asked {
    /// That it is cut, by a call that knows the flags up to `known`.
    ///
    /// # Errors
    ///
    /// Which of the numbers is out of range.
    pub(crate) fn split(
        layout: u32,
        request: &CutRequest,
        known: u32,
        limit: u64,
        room: usize,
    ) -> Result<Asked, Answer>
        ensures ok { IfOk result (IsSplitBy request.now limit room) }
        ensures err { IfErr result (IsOutOfRange layout known request.now room) }
        ensures in_range { IfOk result (λ q. IsInRange layout known request.now room) }
    {
        if layout != LAYOUT {
            return Err(Answer::BadLayout);
        }
        if room == 0 {
            return Err(Answer::BadRoom);
        }
        match request.cut(known) {
            Ok(cut) => Ok(Asked {
                task: Task::Fragments(Operation::Split(cut)),
                limit,
                room,
                share: share_by(request.flags),
            }),
            Err(out) => Err(out),
        }
    }

    /// That it is listed: 1 for a line a sample, 2 for a line a track fragment, 3 for records of these, 4 for a line a
    /// box.
    ///
    /// # Errors
    ///
    /// Which of the numbers is out of range.
    pub(crate) fn list(layout: u32, listing: u32, limit: u64, room: usize) -> Result<Asked, Answer>
        ensures ok { IfOk result (IsListedBy listing limit room) }
        ensures err { IfErr result (IsNoListing layout listing room) }
        ensures in_range { IfOk result (λ q. IsListing layout listing room) }
    {
        if layout != LAYOUT {
            return Err(Answer::BadLayout);
        }
        if room < 1 {
            return Err(Answer::BadRoom);
        }
        match listing_by(listing) {
            Some(task) => Ok(Asked {
                task,
                limit,
                room,
                share: share_of_listing(task),
            }),
            None => Err(Answer::BadListing),
        }
    }

    /// That it is checked.
    ///
    /// # Errors
    ///
    /// `BadLayout` where the structs have other sizes than those of the header.
    pub(crate) fn check(layout: u32, limit: u64) -> Result<Asked, Answer>
        ensures ok { IfOk result (λ q. (layout ≡ header_layout) × (q ≡ checked_by limit)) }
        ensures err { IfErr result (λ a. (layout ≡ header_layout → ⊥) × (a ≡ Answer.BadLayout)) }
    {
        if layout != LAYOUT {
            return Err(Answer::BadLayout);
        }
        Ok(Asked {
            task: Task::Fragments(Operation::List(Command::Check)),
            limit,
            room: 0,
            share: 0,
        })
    }
}

/// The listing with this number.
fn listing_by(listing: u32) -> Option<Task>
    ensures some { IfSome result (λ task. (listing_number task ≡ listing) × (1 ≤ listing) × (listing ≤ 4)) }
    ensures none { IfNone result ((1 ≤ listing) × (listing ≤ 4) → ⊥) }
{
    let command = match listing {
        1 => Command::Samples,
        2 => Command::Fragments,
        3 => Command::Records,
        4 => return Some(Task::Boxes),
        _ => return None,
    };
    Some(Task::Fragments(Operation::List(command)))
}

/// Which share of what is free in the room is taken of the input of a listing.
fn share_of_listing(task: Task) -> usize
    ensures { result ≡ share_of_listing task }
{
    match task {
        Task::Fragments(Operation::List(Command::Check)) => 0,
        Task::Fragments(Operation::List(Command::Samples)) => SHARE_WITH_INDEX,
        Task::Fragments(Operation::List(Command::Records)) => SHARE_OF_RECORDS,
        _ => SHARE,
    }
}

/// Which share of what is free in the room is taken of the input.
fn share_by(flags: u32) -> usize
    ensures { result ≡ share_of flags }
{
    if flags % 2 == 1 {
        return SHARE_WITH_INDEX;
    }
    SHARE
}
