//! The tracks of a stream, and their lines.

ghost use Rattle.std.specs.Prelude.{◌≡◌, ◌+◌, ◌++◌, ◌≤◌, length};
ghost use Rattle.mp4_grammar.specs.TrackLines.{comma, listed_track, track_front, word, word_byte};

use crate::sample::push_number;
use mp4_box::FourCc;
use mp4_init::Track;
use mp4_lines::Text;
use mp4_machine::{BLOCK_BYTES, Line};

/// A track of a stream.
#[derive(Clone, Copy, Debug, PartialEq, Eq)]
pub struct ListedTrack {
    /// Its track_ID (ISO/IEC 14496-12, 8.3.2).
    pub id: u32,
    /// How many ticks a second has (8.4.2).
    pub timescale: u32,
    /// How many sample entries it has (8.5.2).
    pub entries: u32,
    /// Its handler_type (8.4.3), four zeros where it isn't there: `vide` of video, `soun` of sound.
    pub handler: FourCc,
}

impl ListedTrack {
    /// A track of a moov.
    pub fn of(track: &Track) -> ListedTrack
        ensures { result ≡ listed_track track.now }
    {
        ListedTrack {
            id: track.id,
            timescale: track.timescale,
            entries: track.entries,
            handler: FourCc(track.handler.to_be_bytes()),
        }
    }
}

/// A byte of a type as it is printed in a line of words.
fn word_byte(byte: u8) -> u8
    ensures { result ≡ word_byte byte }
{
    if byte > b' ' && byte < 127 && byte != b',' {
        byte
    } else {
        b'?'
    }
}

/// Appends a type.
fn push_word(block: &mut Text<BLOCK_BYTES>, kind: FourCc)
    requires { length block.old + 4 ≤ BLOCK_BYTES }
    ensures text { block.new ≡ block.old ++ word kind }
    ensures len { length block.new ≡ length block.old + 4 }
{
    let [a, b, c, d] = kind.0;
    block.push_array(&[word_byte(a), word_byte(b), word_byte(c), word_byte(d)]);
}

// The types of its sample entries follow.
impl Line for ListedTrack {
    ghost text = { λ t. track_front t };

    #[tactic(auto, unfolding(crate::specs::TrackLines::track_front))]
    fn push(&self, block: &mut Text<BLOCK_BYTES>) {
        push_number(block, b"track=", u64::from(self.id));
        push_number(block, b" timescale=", u64::from(self.timescale));
        push_number(block, b" entries=", u64::from(self.entries));
        block.push_array(b" handler=");
        push_word(block, self.handler);
        block.push_array(b" types=");
    }
}

/// A sample entry in the line of its track.
#[derive(Clone, Copy, Debug, PartialEq, Eq)]
pub struct ListedEntry {
    /// Its type.
    pub kind: FourCc,
    /// Whether it is the first of its track.
    pub is_first: bool,
}

impl Line for ListedEntry {
    ghost text = { λ e. comma e.is_first ++ word e.kind };

    fn push(&self, block: &mut Text<BLOCK_BYTES>) {
        if !self.is_first {
            block.push_array(b",");
        }
        push_word(block, self.kind);
    }
}
