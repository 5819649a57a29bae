//! Three small fragmented streams, for tests: one track, two tracks, and two tracks whose runs lie in turn in
//! the mdat. A line begins with each box.

/// An audio track of three samples, of 5, 7 and 3 bytes, in one fragment.
pub const V1: &[u8; 483] = b"\
    \0\0\0\x14ftypiso6\0\0\0\0iso6\
    \0\0\x01\x58moov\
    \0\0\0\x6cmvhd\0\0\0\0\0\0\0\0\0\0\0\0\0\0\x03\xe8\0\0\0\0\0\x01\0\0\x01\0\0\0\0\0\0\0\0\0\0\
    \0\0\x01\0\0\0\0\0\0\0\0\0\0\0\0\0\0\0\x01\0\0\0\0\0\0\0\0\0\0\0\0\0\0\x40\0\0\0\0\0\0\0\0\0\
    \0\0\0\0\0\0\0\0\0\0\0\0\0\0\0\0\0\0\0\0\0\x02\
    \0\0\0\xbctrak\
    \0\0\0\x5ctkhd\0\0\0\x07\0\0\0\0\0\0\0\0\0\0\0\x01\0\0\0\0\0\0\0\0\0\0\0\0\0\0\0\0\0\0\0\0\0\
    \0\0\0\0\0\0\0\0\0\0\0\0\0\0\0\0\0\0\0\0\0\0\0\0\0\0\0\0\0\0\0\0\0\0\0\0\0\0\0\0\0\0\0\0\0\0\
    \0\
    \0\0\0\x58mdia\
    \0\0\0\x20mdhd\0\0\0\0\0\0\0\0\0\0\0\0\0\0\xbb\x80\0\0\0\0\x55\xc4\0\0\
    \0\0\0\x30minf\
    \0\0\0\x28stbl\
    \0\0\0\x20stsd\0\0\0\0\0\0\0\x01\0\0\0\x10mp4a\0\0\0\0\0\0\0\x01\
    \0\0\0\x28mvex\
    \0\0\0\x20trex\0\0\0\0\0\0\0\x01\0\0\0\x01\0\0\x04\0\0\0\0\0\x02\0\0\0\
    \0\0\0\x60moof\
    \0\0\0\x10mfhd\0\0\0\0\0\0\0\x01\
    \0\0\0\x48traf\
    \0\0\0\x10tfhd\0\x02\0\0\0\0\0\x01\
    \0\0\0\x10tfdt\0\0\0\0\0\0\0\0\
    \0\0\0\x20trun\0\0\x02\x01\0\0\0\x03\0\0\0\x68\0\0\0\x05\0\0\0\x07\0\0\0\x03\
    \0\0\0\x17mdat\x01\x02\x03\x04\x05\x06\x07\x08\x09\x0a\x0b\x0c\x0d\x0e\x0f";

/// Where the moov of [`V1`] begins.
pub const V1_MOOV: usize = 20;
/// Where the mvhd of that begins.
pub const V1_MVHD: usize = 28;
/// Where its trak begins.
pub const V1_TRAK: usize = 136;
/// Where the tkhd of that begins.
pub const V1_TKHD: usize = 144;
/// Where the mdia of that begins.
pub const V1_MDIA: usize = 236;
/// Where the mdhd of that begins.
pub const V1_MDHD: usize = 244;
/// Where the minf begins.
pub const V1_MINF: usize = 276;
/// Where the stsd begins.
pub const V1_STSD: usize = 292;
/// Where the mvex begins.
pub const V1_MVEX: usize = 324;
/// Where the trex begins.
pub const V1_TREX: usize = 332;
/// Where the moof begins, and the moov ends.
pub const V1_MOOF: usize = 364;
/// Where its mfhd begins.
pub const V1_MFHD: usize = 372;
/// Where its traf begins.
pub const V1_TRAF: usize = 388;
/// Where the tfhd of that begins.
pub const V1_TFHD: usize = 396;
/// Where the tfdt of that begins.
pub const V1_TFDT: usize = 412;
/// Where the trun of that begins.
pub const V1_TRUN: usize = 428;
/// Where the sizes of its three samples begin.
pub const V1_SIZES: usize = 448;
/// Where the mdat begins, and the moof ends.
pub const V1_MDAT: usize = 460;
/// Where its media begin.
pub const V1_MEDIA: usize = 468;
/// Where the second sample begins.
pub const V1_SECOND_SAMPLE: usize = 473;
/// Where the third sample begins.
pub const V1_THIRD_SAMPLE: usize = 480;

/// Two tracks in one fragment, one run after the other: samples of 5, 7 and 3 bytes, and two of 4.
pub const V2: &[u8; 779] = b"\
    \0\0\0\x14ftypiso6\0\0\0\0iso6\
    \0\0\x02\x34moov\
    \0\0\0\x6cmvhd\0\0\0\0\0\0\0\0\0\0\0\0\0\0\x03\xe8\0\0\0\0\0\x01\0\0\x01\0\0\0\0\0\0\0\0\0\0\
    \0\0\x01\0\0\0\0\0\0\0\0\0\0\0\0\0\0\0\x01\0\0\0\0\0\0\0\0\0\0\0\0\0\0\x40\0\0\0\0\0\0\0\0\0\
    \0\0\0\0\0\0\0\0\0\0\0\0\0\0\0\0\0\0\0\0\0\x02\
    \0\0\0\xbctrak\
    \0\0\0\x5ctkhd\0\0\0\x07\0\0\0\0\0\0\0\0\0\0\0\x01\0\0\0\0\0\0\0\0\0\0\0\0\0\0\0\0\0\0\0\0\0\
    \0\0\0\0\0\0\0\0\0\0\0\0\0\0\0\0\0\0\0\0\0\0\0\0\0\0\0\0\0\0\0\0\0\0\0\0\0\0\0\0\0\0\0\0\0\0\
    \0\
    \0\0\0\x58mdia\
    \0\0\0\x20mdhd\0\0\0\0\0\0\0\0\0\0\0\0\0\0\xbb\x80\0\0\0\0\x55\xc4\0\0\
    \0\0\0\x30minf\
    \0\0\0\x28stbl\
    \0\0\0\x20stsd\0\0\0\0\0\0\0\x01\0\0\0\x10mp4a\0\0\0\0\0\0\0\x01\
    \0\0\0\xbctrak\
    \0\0\0\x5ctkhd\0\0\0\x07\0\0\0\0\0\0\0\0\0\0\0\x02\0\0\0\0\0\0\0\0\0\0\0\0\0\0\0\0\0\0\0\0\0\
    \0\0\0\0\0\0\0\0\0\0\0\0\0\0\0\0\0\0\0\0\0\0\0\0\0\0\0\0\0\0\0\0\0\0\0\0\0\0\0\0\0\0\0\0\0\0\
    \0\
    \0\0\0\x58mdia\
    \0\0\0\x20mdhd\0\0\0\0\0\0\0\0\0\0\0\0\0\0\xbb\x80\0\0\0\0\x55\xc4\0\0\
    \0\0\0\x30minf\
    \0\0\0\x28stbl\
    \0\0\0\x20stsd\0\0\0\0\0\0\0\x01\0\0\0\x10mp4a\0\0\0\0\0\0\0\x01\
    \0\0\0\x48mvex\
    \0\0\0\x20trex\0\0\0\0\0\0\0\x01\0\0\0\x01\0\0\x04\0\0\0\0\0\x02\0\0\0\
    \0\0\0\x20trex\0\0\0\0\0\0\0\x02\0\0\0\x01\0\0\x04\0\0\0\0\0\x02\0\0\0\
    \0\0\0\xa4moof\
    \0\0\0\x10mfhd\0\0\0\0\0\0\0\x01\
    \0\0\0\x48traf\
    \0\0\0\x10tfhd\0\x02\0\0\0\0\0\x01\
    \0\0\0\x10tfdt\0\0\0\0\0\0\0\0\
    \0\0\0\x20trun\0\0\x02\x01\0\0\0\x03\0\0\0\xac\0\0\0\x05\0\0\0\x07\0\0\0\x03\
    \0\0\0\x44traf\
    \0\0\0\x10tfhd\0\x02\0\0\0\0\0\x02\
    \0\0\0\x10tfdt\0\0\0\0\0\0\0\0\
    \0\0\0\x1ctrun\0\0\x02\x01\0\0\0\x02\0\0\0\xbb\0\0\0\x04\0\0\0\x04\
    \0\0\0\x1fmdat\x01\x02\x03\x04\x05\x06\x07\x08\x09\x0a\x0b\x0c\x0d\x0e\x0f\x10\x11\x12\x13\
    \x14\x15\x16\x17";

/// Two tracks in one fragment, whose runs lie in turn: samples of 5, 4, 7 and 4 bytes.
pub const V3: &[u8; 812] = b"\
    \0\0\0\x14ftypiso6\0\0\0\0iso6\
    \0\0\x02\x34moov\
    \0\0\0\x6cmvhd\0\0\0\0\0\0\0\0\0\0\0\0\0\0\x03\xe8\0\0\0\0\0\x01\0\0\x01\0\0\0\0\0\0\0\0\0\0\
    \0\0\x01\0\0\0\0\0\0\0\0\0\0\0\0\0\0\0\x01\0\0\0\0\0\0\0\0\0\0\0\0\0\0\x40\0\0\0\0\0\0\0\0\0\
    \0\0\0\0\0\0\0\0\0\0\0\0\0\0\0\0\0\0\0\0\0\x02\
    \0\0\0\xbctrak\
    \0\0\0\x5ctkhd\0\0\0\x07\0\0\0\0\0\0\0\0\0\0\0\x01\0\0\0\0\0\0\0\0\0\0\0\0\0\0\0\0\0\0\0\0\0\
    \0\0\0\0\0\0\0\0\0\0\0\0\0\0\0\0\0\0\0\0\0\0\0\0\0\0\0\0\0\0\0\0\0\0\0\0\0\0\0\0\0\0\0\0\0\0\
    \0\
    \0\0\0\x58mdia\
    \0\0\0\x20mdhd\0\0\0\0\0\0\0\0\0\0\0\0\0\0\xbb\x80\0\0\0\0\x55\xc4\0\0\
    \0\0\0\x30minf\
    \0\0\0\x28stbl\
    \0\0\0\x20stsd\0\0\0\0\0\0\0\x01\0\0\0\x10mp4a\0\0\0\0\0\0\0\x01\
    \0\0\0\xbctrak\
    \0\0\0\x5ctkhd\0\0\0\x07\0\0\0\0\0\0\0\0\0\0\0\x02\0\0\0\0\0\0\0\0\0\0\0\0\0\0\0\0\0\0\0\0\0\
    \0\0\0\0\0\0\0\0\0\0\0\0\0\0\0\0\0\0\0\0\0\0\0\0\0\0\0\0\0\0\0\0\0\0\0\0\0\0\0\0\0\0\0\0\0\0\
    \0\
    \0\0\0\x58mdia\
    \0\0\0\x20mdhd\0\0\0\0\0\0\0\0\0\0\0\0\0\0\xbb\x80\0\0\0\0\x55\xc4\0\0\
    \0\0\0\x30minf\
    \0\0\0\x28stbl\
    \0\0\0\x20stsd\0\0\0\0\0\0\0\x01\0\0\0\x10mp4a\0\0\0\0\0\0\0\x01\
    \0\0\0\x48mvex\
    \0\0\0\x20trex\0\0\0\0\0\0\0\x01\0\0\0\x01\0\0\x04\0\0\0\0\0\x02\0\0\0\
    \0\0\0\x20trex\0\0\0\0\0\0\0\x02\0\0\0\x01\0\0\x04\0\0\0\0\0\x02\0\0\0\
    \0\0\0\xc8moof\
    \0\0\0\x10mfhd\0\0\0\0\0\0\0\x01\
    \0\0\0\x58traf\
    \0\0\0\x10tfhd\0\x02\0\0\0\0\0\x01\
    \0\0\0\x10tfdt\0\0\0\0\0\0\0\0\
    \0\0\0\x18trun\0\0\x02\x01\0\0\0\x01\0\0\0\xd0\0\0\0\x05\
    \0\0\0\x18trun\0\0\x02\x01\0\0\0\x01\0\0\0\xd9\0\0\0\x07\
    \0\0\0\x58traf\
    \0\0\0\x10tfhd\0\x02\0\0\0\0\0\x02\
    \0\0\0\x10tfdt\0\0\0\0\0\0\0\0\
    \0\0\0\x18trun\0\0\x02\x01\0\0\0\x01\0\0\0\xd5\0\0\0\x04\
    \0\0\0\x18trun\0\0\x02\x01\0\0\0\x01\0\0\0\xe0\0\0\0\x04\
    \0\0\0\x1cmdat\x01\x02\x03\x04\x05\x06\x07\x08\x09\x0a\x0b\x0c\x0d\x0e\x0f\x10\x11\x12\x13\
    \x14";
