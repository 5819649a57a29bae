//! The types of boxes that are read or written, each with its section of ISO/IEC 14496-12.

use crate::headers::FourCc;

/// A box with a user type (ISO/IEC 14496-12, 4.2).
pub const UUID: FourCc = FourCc(*b"uuid");

/// Media data (8.1.1).
pub const MDAT: FourCc = FourCc(*b"mdat");

/// Free space (8.1.2).
pub const FREE: FourCc = FourCc(*b"free");

/// Free space too (8.1.2).
pub const SKIP: FourCc = FourCc(*b"skip");

/// Movie (8.2.1).
pub const MOOV: FourCc = FourCc(*b"moov");

/// Track (8.3.1).
pub const TRAK: FourCc = FourCc(*b"trak");

/// Track header (8.3.2).
pub const TKHD: FourCc = FourCc(*b"tkhd");

/// Media of a track (8.4.1).
pub const MDIA: FourCc = FourCc(*b"mdia");

/// Media header (8.4.2).
pub const MDHD: FourCc = FourCc(*b"mdhd");

/// Media information (8.4.4).
pub const MINF: FourCc = FourCc(*b"minf");

/// Sample table (8.5.1).
pub const STBL: FourCc = FourCc(*b"stbl");

/// Sample descriptions (8.5.2).
pub const STSD: FourCc = FourCc(*b"stsd");

/// Decode times (8.6.1.2).
pub const STTS: FourCc = FourCc(*b"stts");

/// Edits (8.6.5).
pub const EDTS: FourCc = FourCc(*b"edts");

/// Data information (8.7.1).
pub const DINF: FourCc = FourCc(*b"dinf");

/// Sample sizes (8.7.3.2).
pub const STSZ: FourCc = FourCc(*b"stsz");

/// Compact sample sizes (8.7.3.3).
pub const STZ2: FourCc = FourCc(*b"stz2");

/// Samples of chunks (8.7.4).
pub const STSC: FourCc = FourCc(*b"stsc");

/// Chunk offsets (8.7.5).
pub const STCO: FourCc = FourCc(*b"stco");

/// Chunk offsets of 64 bits (8.7.5).
pub const CO64: FourCc = FourCc(*b"co64");

/// Movie extends (8.8.1).
pub const MVEX: FourCc = FourCc(*b"mvex");

/// Track extends (8.8.3).
pub const TREX: FourCc = FourCc(*b"trex");

/// Movie fragment (8.8.4).
pub const MOOF: FourCc = FourCc(*b"moof");

/// Movie fragment header (8.8.5).
pub const MFHD: FourCc = FourCc(*b"mfhd");

/// Track fragment (8.8.6).
pub const TRAF: FourCc = FourCc(*b"traf");

/// Track fragment header (8.8.7).
pub const TFHD: FourCc = FourCc(*b"tfhd");

/// Track run (8.8.8).
pub const TRUN: FourCc = FourCc(*b"trun");

/// Decode time of a track fragment (8.8.12).
pub const TFDT: FourCc = FourCc(*b"tfdt");

/// Segment index (8.16.3).
pub const SIDX: FourCc = FourCc(*b"sidx");
