//! Lists the boxes, the samples and the fragments of two real streams, which ffmpeg's muxer wrote: data/audio.mp4, a
//! fragment each second, and data/every_frame.mp4, a fragment each frame; and the fragments of data/av.mp4, which has
//! two tracks. Then it is the program, which lists the boxes of the stream on standard input: the stored run of `fmp4`
//! is on a stream with a fault, and this one has none. What it must write is in the file stdout, and is what another
//! reader found. The counts of the streams are those of another reader too.
#![tactic(auto)]

use fmp4_program::start;
use mp4_stream::fragments::fragments;
use mp4_stream::{FromRead, IntoWrite, Ledger, Sink, Totals, boxes, check, samples};
use std::fs::File;
use std::process::ExitCode;

/// A stream, and its result.
struct Stream {
    name: &'static str,
    fragments: u64,
    samples: u128,
    media_bytes: u64,
}

const STREAMS: [Stream; 2] = [
    Stream {
        name: "audio.mp4",
        fragments: 7,
        samples: 283,
        media_bytes: 24034,
    },
    Stream {
        name: "every_frame.mp4",
        fragments: 50,
        samples: 50,
        media_bytes: 15618,
    },
];

/// A stream of two tracks, data/av.mp4, of which the fragments alone are listed.
const TWO_TRACKS: Stream = Stream {
    name: "av.mp4",
    fragments: 4,
    samples: 274,
    media_bytes: 57147,
};

/// Whether a stream that was read counts so.
fn is_counted(stream: &Stream, totals: &Totals) -> bool {
    totals.fragments == stream.fragments
        && totals.samples == stream.samples
        && totals.media_bytes == stream.media_bytes
}

/// Lists the fragments of a stream. Returns whether it could be read, and counts as it must.
fn lists_fragments<W: Sink>(rt: &HostRuntime, stream: &Stream, w: &mut W) -> bool {
    let mut ledger = Ledger::new(rt.alloc(), 1 << 20);
    let mut totals = Totals::new();
    let Ok(file) = File::open(rt, stream.name) else {
        return false;
    };
    let mut r = FromRead::new(file);
    fragments(&mut r, w, &mut ledger, 4096, &mut totals).is_ok() && is_counted(stream, &totals)
}

/// Lists the real streams. Returns 0, or which listing isn't as it must be.
fn list_streams(rt: &HostRuntime) -> u8 {
    let mut w = IntoWrite::new(rt.stdout());
    for stream in &STREAMS {
        let mut ledger = Ledger::new(rt.alloc(), 1 << 20);
        let mut totals = Totals::new();
        let (Ok(first), Ok(second), Ok(third)) = (
            File::open(rt, stream.name),
            File::open(rt, stream.name),
            File::open(rt, stream.name),
        ) else {
            return 1;
        };
        let mut r = FromRead::new(first);
        if boxes(&mut r, &mut w, &mut ledger, 4096, &mut totals).is_err() {
            return 1;
        }
        let mut r = FromRead::new(second);
        if samples(&mut r, &mut w, &mut ledger, 4096, &mut totals).is_err()
            || !is_counted(stream, &totals)
        {
            return 2;
        }
        if !lists_fragments(rt, stream, &mut w) {
            return 4;
        }
        let mut r = FromRead::new(third);
        if check(&mut r, &mut ledger, 4096, &mut totals).is_err() || !is_counted(stream, &totals) {
            return 3;
        }
    }
    if !lists_fragments(rt, &TWO_TRACKS, &mut w) {
        return 5;
    }
    0
}

fn main(rt: HostRuntime) -> ExitCode {
    match list_streams(&rt) {
        0 => start(rt),
        status => ExitCode::from(status),
    }
}
