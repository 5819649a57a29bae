//! The fragments of a stream: ISO/IEC 14496-12, 8.8.

use crate::boxes::{Boxes, TICKS};
use crate::random::Random;
use std::alloc::{AllocError, Global};

/// What the fragments of a stream are like.
#[derive(Clone, Copy)]
pub struct Layout {
    /// How many tracks there are, with the track_IDs 1, 2, ..
    pub tracks: u32,
    /// How many trafs a fragment has, of each track in turn.
    pub trafs: u32,
    /// How many samples each traf has, in one run.
    pub samples: u32,
    /// The flags of a trun beside that of its data offset: which fields its samples have.
    pub fields: u32,
    /// The least size of a sample, in bytes.
    pub least: u32,
    /// How many sizes there are from the least one on.
    pub sizes: u32,
    /// Whether the first traf of each track has no time of its own: it begins where the track's last one ended.
    pub untimed: bool,
    /// Whether the media of the runs lie in another order than the runs. These have one size then, the tracks are as
    /// many as some prime number that leaves 2 when it is divided by 3, and the trafs are a multiple.
    pub shuffled: bool,
    /// How many fragments are made at once.
    pub period: u32,
}

// The flags of a trun (8.8.8).
pub const FIRST_FLAGS: u32 = 0x4;

pub const DURATION: u32 = 0x100;

pub const SIZE: u32 = 0x200;

pub const FLAGS: u32 = 0x400;

pub const COMPOSITION: u32 = 0x800;

/// The flags of a sample that depends on none.
const SYNC: u32 = 0x0200_0000;

/// The flags of a sample that depends on others.
const NOT_SYNC: u32 = 0x0101_0000;

/// Where a number lies that is another one in each fragment, and in which fragment of a period it is.
#[derive(Clone, Copy)]
pub struct Mark {
    pub at: usize,
    pub fragment: u32,
}

/// Fragments one after the other, and where their numbers and times lie.
#[derive(Drop)]
pub struct Fragments {
    pub boxes: Boxes,
    /// The sequence numbers.
    pub numbers: Vec<Mark>,
    /// The times at which the trafs begin.
    pub times: Vec<Mark>,
}

impl Layout {
    /// Whether a traf has a time of its own.
    fn is_timed(&self, traf: u32) -> bool {
        !self.untimed || self.tracks <= traf
    }

    /// How many bytes a traf has: its header and tfhd, a tfdt if it has a time of its own, and the trun.
    fn traf(&self, traf: u32) -> u32 {
        let tfdt = if self.is_timed(traf) { TFDT } else { 0 };
        self.trun().wrapping_add(8 + TFHD).wrapping_add(tfdt)
    }

    /// How many bytes a trun has.
    fn trun(&self) -> u32 {
        let first = if self.fields & FIRST_FLAGS == 0 { 0 } else { 4 };
        let fields = (self.fields & (DURATION | SIZE | FLAGS | COMPOSITION)).count_ones();
        fields
            .wrapping_mul(self.samples)
            .wrapping_mul(4)
            .wrapping_add(20 + first)
    }

    /// How many bytes a moof has.
    fn moof(&self) -> u32 {
        let untimed = if self.untimed {
            self.tracks.min(self.trafs)
        } else {
            0
        };
        let timed = (self.trafs - untimed).wrapping_mul(TFDT);
        let rest = self.trafs.wrapping_mul(self.trun().wrapping_add(8 + TFHD));
        timed.wrapping_add(rest).wrapping_add(8 + MFHD)
    }

    /// How many ticks a fragment lasts at most.
    pub fn ticks(&self) -> u64 {
        let runs = if self.tracks == 0 {
            1
        } else {
            u64::from(self.trafs / self.tracks) + 1
        };
        u64::from(self.samples)
            .wrapping_mul(runs)
            .wrapping_mul(u64::from(TICKS))
    }
}

/// How many bytes an mfhd, a tfhd and a tfdt have.
const MFHD: u32 = 16;

const TFHD: u32 = 16;

const TFDT: u32 = 20;

/// The place of a run's media among those of a fragment, if they are shuffled: the runs of a track lie one after the
/// other, and the tracks by the cubes of numbers one after the other, which go through all that are less than such a
/// prime.
fn place(run: u32, shift: u32, layout: &Layout) -> u32 {
    if layout.tracks == 0 {
        return 0;
    }
    let tracks = u64::from(layout.tracks);
    let number = (u64::from(run) + u64::from(shift)) % tracks;
    let cube = (number.wrapping_mul(number) % tracks).wrapping_mul(number) % tracks;
    (cube as u32)
        .wrapping_mul(layout.trafs / layout.tracks)
        .wrapping_add(run / layout.tracks)
}

/// The ticks of the sample at an index of its run, if samples have durations of their own.
fn duration(index: u32) -> u32 {
    1_000 + index % 24
}

impl Fragments {
    pub fn new(alloc: Global) -> Fragments {
        Fragments {
            boxes: Boxes::new(alloc),
            numbers: Vec::new(alloc),
            times: Vec::new(alloc),
        }
    }

    /// Puts the fragments of a period, one after the other.
    pub fn put_all(
        &mut self,
        alloc: Global,
        layout: &Layout,
        random: &mut Random,
    ) -> Result<(), AllocError> {
        let mut sizes = Vec::new(alloc);
        for fragment in 0..layout.period {
            self.put_fragment(layout, fragment, &mut sizes, random)?;
        }
        Ok(())
    }

    /// Puts a moof and its mdat. The sizes of its samples are put into a vector that is used again.
    fn put_fragment(
        &mut self,
        layout: &Layout,
        fragment: u32,
        sizes: &mut Vec<u32>,
        random: &mut Random,
    ) -> Result<(), AllocError> {
        let shift = random.below(layout.trafs);
        let moof = layout.moof();
        self.boxes.header(moof, b"moof")?;
        self.boxes.header(MFHD, b"mfhd")?;
        self.boxes.number(0)?;
        let mark = self.mark(fragment);
        self.numbers.extend_from_slice(&[mark])?;
        self.boxes.number(0)?;
        let mut media: u32 = 0;
        for traf in 0..layout.trafs {
            let total = choose(layout, sizes, random)?;
            let place = if layout.shuffled {
                total.wrapping_mul(place(traf, shift, layout))
            } else {
                media
            };
            let offset = moof.wrapping_add(8).wrapping_add(place);
            self.put_traf(layout, fragment, traf, offset, sizes.as_slice())?;
            media = media.wrapping_add(total);
        }
        self.put_mdat(media, random)
    }

    /// The place after all bytes.
    fn mark(&self, fragment: u32) -> Mark {
        Mark {
            at: self.boxes.bytes.len(),
            fragment,
        }
    }

    /// Puts a traf with one run, whose media begin at an offset from the moof.
    fn put_traf(
        &mut self,
        layout: &Layout,
        fragment: u32,
        traf: u32,
        offset: u32,
        sizes: &[u32],
    ) -> Result<(), AllocError> {
        let track = traf.checked_rem(layout.tracks).unwrap_or(0).wrapping_add(1);
        self.boxes.header(layout.traf(traf), b"traf")?;
        self.boxes.numbered(b"tfhd", &[0x0002_0000, track])?;
        if layout.is_timed(traf) {
            self.boxes.header(TFDT, b"tfdt")?;
            self.boxes.number(1 << 24)?;
            let mark = self.mark(fragment);
            self.times.extend_from_slice(&[mark])?;
            self.boxes.numbers(&[0, 0])?;
        }
        self.boxes.header(layout.trun(), b"trun")?;
        self.boxes
            .numbers(&[layout.fields | 1, layout.samples, offset])?;
        if layout.fields & FIRST_FLAGS != 0 {
            self.boxes.number(SYNC)?;
        }
        for (index, size) in (0..layout.samples).zip(sizes) {
            self.put_row(layout.fields, index, *size)?;
        }
        Ok(())
    }

    /// Puts the fields of a sample.
    fn put_row(&mut self, fields: u32, index: u32, size: u32) -> Result<(), AllocError> {
        if fields & DURATION != 0 {
            self.boxes.number(duration(index))?;
        }
        if fields & SIZE != 0 {
            self.boxes.number(size)?;
        }
        if fields & FLAGS != 0 {
            self.boxes.number(if index == 0 { SYNC } else { NOT_SYNC })?;
        }
        if fields & COMPOSITION != 0 {
            self.boxes.number(index % 3 * 512)?;
        }
        Ok(())
    }

    /// Puts an mdat of so many bytes.
    fn put_mdat(&mut self, media: u32, random: &mut Random) -> Result<(), AllocError> {
        self.boxes.header(media.wrapping_add(8), b"mdat")?;
        for _ in 0..media / 4 {
            self.boxes.number(random.below(u32::MAX))?;
        }
        for _ in 0..media % 4 {
            self.boxes.bytes.extend_from_slice(&[0])?;
        }
        Ok(())
    }
}

/// Chooses the sizes of the samples of a run: their sum.
fn choose(layout: &Layout, sizes: &mut Vec<u32>, random: &mut Random) -> Result<u32, AllocError> {
    sizes.clear();
    let mut total: u32 = 0;
    for _ in 0..layout.samples {
        let size = layout.least.wrapping_add(random.below(layout.sizes));
        sizes.extend_from_slice(&[size])?;
        total = total.wrapping_add(size);
    }
    Ok(total)
}
