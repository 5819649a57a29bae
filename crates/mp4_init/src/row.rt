//! A track and its node as a row of eight numbers.

ghost use Rattle.std.specs.Prelude.{◌≡◌, slice_index};
ghost use Rattle.mp4_init.specs.Implementation.Rows.{lower, node_of_row, track_of_row, upper};
ghost use Rattle.mp4_init.specs.Implementation.SearchTrees.{with_link};

use crate::search_tree::{NOWHERE, Node};
use crate::table::Track;

/// Two numbers of 32 bits in one of 64.
fn pair(upper_half: u32, lower_half: u32) -> u64
    ensures upper { upper result ≡ upper_half }
    ensures lower { lower result ≡ lower_half }
{
    u64::from(upper_half) * (1 << 32) + u64::from(lower_half)
}

fn upper_of(word: u64) -> u32
    ensures { result ≡ upper word }
{
    (word / (1 << 32)) as u32
}

fn lower_of(word: u64) -> u32
    ensures { result ≡ lower word }
{
    (word % (1 << 32)) as u32
}

/// The row of a track whose node leads nowhere.
#[tactic(auto, unfolding(crate::specs::Implementation::Rows::track_of_row))]
pub(crate) fn row_for(track: Track) -> [u64; 8]
    ensures { track_of_row result ≡ track }
{
    [
        pair(track.id, track.timescale),
        pair(track.entries, track.desc),
        pair(track.duration, track.size),
        pair(track.flags, track.handler),
        track.next,
        NOWHERE as u64,
        NOWHERE as u64,
        0,
    ]
}

/// The track of a row.
#[tactic(auto, unfolding(crate::specs::Implementation::Rows::track_of_row))]
pub(crate) fn track_for(row: [u64; 8]) -> Track
    ensures { result ≡ track_of_row row }
{
    Track {
        id: upper_of(row[0]),
        timescale: lower_of(row[0]),
        entries: upper_of(row[1]),
        desc: lower_of(row[1]),
        duration: upper_of(row[2]),
        size: lower_of(row[2]),
        flags: upper_of(row[3]),
        handler: lower_of(row[3]),
        next: row[4],
    }
}

/// The node of a row.
#[tactic(auto, unfolding(crate::specs::Implementation::Rows::node_of_row))]
pub(crate) fn node_for(row: [u64; 8]) -> Node
    ensures { result ≡ node_of_row row }
{
    Node {
        id: upper_of(row[0]),
        even: row[5] as usize,
        odd: row[6] as usize,
    }
}

/// The row of the same track, whose node leads to another place.
pub(crate) fn linked_row(row: [u64; 8], is_odd: bool, to: usize) -> [u64; 8]
    ensures track { track_of_row result ≡ track_of_row row }
    ensures node { node_of_row result ≡ with_link is_odd to (node_of_row row) }
{
    let to = to as u64;
    let (even, odd) = if is_odd { (row[5], to) } else { (to, row[6]) };
    [row[0], row[1], row[2], row[3], row[4], even, odd, row[7]]
}

/// The row of the same track, where its last fragment ended at `next`.
pub(crate) fn ended_row(row: [u64; 8], next: u64) -> [u64; 8]
    ensures track { track_of_row result ≡ record (track_of_row row) { next = next } }
    ensures node { node_of_row result ≡ node_of_row row }
{
    [row[0], row[1], row[2], row[3], next, row[5], row[6], row[7]]
}
