//! The boxes of a stream, as they are put one after the other.

ghost use Rattle.std.specs.Prelude.{◌≤◌, length};

use std::alloc::{AllocError, Global};

/// The bytes of boxes.
#[derive(Drop)]
pub struct Boxes {
    pub bytes: Vec<u8>,
}

impl Boxes {
    pub fn new(alloc: Global) -> Boxes {
        Boxes {
            bytes: Vec::new(alloc),
        }
    }

    /// Puts a number in four bytes.
    pub fn number(&mut self, number: u32) -> Result<(), AllocError> {
        self.bytes.extend_from_slice(&number.to_be_bytes())
    }

    /// Puts numbers in four bytes each.
    pub fn numbers(&mut self, numbers: &[u32]) -> Result<(), AllocError> {
        for number in numbers {
            self.number(*number)?;
        }
        Ok(())
    }

    /// Puts the header of a box of so many bytes.
    pub fn header(&mut self, size: u32, kind: &[u8]) -> Result<(), AllocError> {
        self.number(size)?;
        self.bytes.extend_from_slice(kind)
    }

    /// Puts a box of these numbers.
    pub fn numbered(&mut self, kind: &[u8], numbers: &[u32]) -> Result<(), AllocError>
        requires { length numbers.now ≤ 16 }
    {
        self.header((numbers.len() as u32).wrapping_mul(4).wrapping_add(8), kind)?;
        self.numbers(numbers)
    }

    /// Puts a box of so many zeros.
    fn zeroed(&mut self, kind: &[u8], words: u32) -> Result<(), AllocError> {
        self.header(words.wrapping_mul(4).wrapping_add(8), kind)?;
        for _ in 0..words {
            self.number(0)?;
        }
        Ok(())
    }

    /// Puts a track of sound with 48,000 ticks a second: ISO/IEC 14496-12, 8.3 to 8.7.
    fn track(&mut self, track: u32) -> Result<(), AllocError> {
        self.header(TRAK, b"trak")?;
        self.header(TKHD, b"tkhd")?;
        self.numbers(&[0, 0, 0, track])?;
        for _ in 0..17 {
            self.number(0)?;
        }
        self.header(MDIA, b"mdia")?;
        self.numbered(b"mdhd", &[0, 0, 0, 48_000, 0, 0])?;
        self.numbered(b"hdlr", &[0, 0, SOUN, 0, 0, 0, 0])?;
        self.header(MINF, b"minf")?;
        self.header(STBL, b"stbl")?;
        self.header(STSD, b"stsd")?;
        self.numbers(&[0, 1])?;
        self.numbered(b"mp4a", &[0, 1, 0, 0, 0x0002_0010, 0, 48_000 << 16])?;
        self.zeroed(b"stts", 2)?;
        self.zeroed(b"stsc", 2)?;
        self.zeroed(b"stsz", 3)?;
        self.zeroed(b"stco", 2)
    }

    /// Puts an ftyp and the moov of so many tracks, with a trex for each: ISO/IEC 14496-12, 8.8.
    pub fn front(&mut self, tracks: u32) -> Result<(), AllocError> {
        self.numbered(b"ftyp", &[ISO6, 0, ISO6, CMFC])?;
        let mvex = tracks.wrapping_mul(TREX).wrapping_add(8);
        let traks = tracks.wrapping_mul(TRAK);
        self.header(traks.wrapping_add(mvex).wrapping_add(8 + MVHD), b"moov")?;
        self.zeroed(b"mvhd", 25)?;
        for track in 0..tracks {
            self.track(track.wrapping_add(1))?;
        }
        self.header(mvex, b"mvex")?;
        for track in 0..tracks {
            self.numbered(
                b"trex",
                &[0, track.wrapping_add(1), 1, TICKS, 0, 0x0200_0000],
            )?;
        }
        Ok(())
    }
}

/// A sample lasts so many ticks where nothing else is said.
pub const TICKS: u32 = 1_024;

/// The brand iso6.
const ISO6: u32 = 0x6973_6f36;

/// The brand cmfc.
const CMFC: u32 = 0x636d_6663;

/// The handler soun.
const SOUN: u32 = 0x736f_756e;

// How many bytes the boxes of a moov have.
const MVHD: u32 = 108;

const TREX: u32 = 32;

const TKHD: u32 = 92;

const STSD: u32 = 16 + 36;

const STBL: u32 = 8 + STSD + 16 + 16 + 20 + 16;

const MINF: u32 = 8 + STBL;

const MDIA: u32 = 8 + 32 + 36 + MINF;

const TRAK: u32 = 8 + TKHD + MDIA;
