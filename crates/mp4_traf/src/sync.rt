//! Which samples are sync samples (ISO/IEC 14496-12, 8.8.3).

ghost use Rattle.std.specs.Prelude.{◌≡◌};
ghost use Rattle.mp4_traf.specs.SyncSamples.{is_sync};

/// The bit of a sample's flags that a sync sample has clear: sample_is_non_sync_sample.
const NON_SYNC: u32 = 0x0001_0000;

/// Whether a sample with these flags is a sync sample.
#[inline(always)]
pub fn is_sync(flags: u32) -> bool
    ensures { result ≡ is_sync flags }
{
    flags & NON_SYNC == 0
}
