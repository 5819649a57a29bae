//! Runs of samples, and the payload in which they lie.

ghost use Rattle.std.specs.Prelude.{◌≡◌, ◌^◌, ◌<ℤ◌, pos};
ghost use Rattle.mp4_run_order.specs.Orders.{place_key, track_key};
ghost use Rattle.mp4_run_order.specs.Places.{lies_in};
ghost use Rattle.mp4_run_order.specs.Runs.{end_of, needed_from};

/// How many numbers of 64 bits there are.
const WORDS: u128 = 1 << 64;

/// A run of samples, which a trun is (ISO/IEC 14496-12, 8.8.8): what its place and its turn depend on.
#[derive(Clone, Copy, Debug, PartialEq, Eq)]
pub struct ListedRun {
    /// Of two runs of a moof the one with the lower number is listed earlier. The offset of a trun can be its number.
    pub number: u64,
    /// The track_ID of its traf.
    pub track: u32,
    /// sample_count: how many samples it has.
    pub count: u32,
    /// The stream offset of its first byte, negative where data_offset leads before the first byte of the stream.
    pub place: i64,
    /// The sizes of its samples, added up, in bytes.
    pub bytes: u64,
}

/// Where the payload of an mdat begins and ends, as stream offsets. It has no end where the mdat goes to the end of
/// the stream.
#[derive(Clone, Copy, Debug, PartialEq, Eq)]
pub struct Payload {
    pub start: u64,
    pub end: Option<u64>,
}

impl ListedRun {
    /// The stream offset after its last byte.
    pub fn end(self) -> i128
        ensures { result ≡ end_of self }
    {
        i128::from(self.place) + i128::from(self.bytes)
    }

    /// The number that orders runs as they are taken: by place, and then as they are listed.
    pub fn place_key(self) -> u128
        ensures { result ≡ place_key self }
    {
        let from_lowest = i128::from(self.place) - i128::from(i64::MIN);
        from_lowest as u128 * WORDS + u128::from(self.number)
    }

    /// The number that orders runs by track, and those of a track as they are listed.
    pub fn track_key(self) -> u128
        ensures { result ≡ track_key self }
    {
        u128::from(self.track) * WORDS + u128::from(self.number)
    }
}

impl Payload {
    /// Whether a run lies in it: from its first byte on, and up to its end, where it has one.
    pub fn holds(self, run: ListedRun) -> bool
        ensures { result ≡ lies_in self run }
    {
        if i128::from(run.place) < i128::from(self.start) {
            return false;
        }
        match self.end {
            None => true,
            Some(end) => run.end() <= i128::from(end),
        }
    }

    /// How many bytes it must have at the least to hold a run: up to the end of the run; none where that has no
    /// samples.
    pub fn needed_by(self, run: ListedRun) -> u64
        requires { end_of run <ℤ pos (2 ^ 63) }
        ensures { result ≡ needed_from self.start run }
    {
        let (start, end) = (i128::from(self.start), run.end());
        if run.count == 0 || end <= start {
            return 0;
        }
        (end - start) as u64
    }
}
