//! The groups of fields that a run has for its samples: where they lie in the moof, and sums over them.

ghost use Rattle.std.specs.Prelude.{◌≡◌, ◌+◌, ◌*◌, ◌<◌, ◌≤◌, ◌^◌, ◌↔◌, IfSome, IsSome, drop, length, take, true};
ghost use Rattle.std.specs.List.{flat_map};
ghost use Rattle.mp4_box.specs.Fields.{number_in};
ghost use Rattle.mp4_traf.specs.Rows.{HasWholeGroups, all_fields, durations, group_at, row_bytes, rows_of, sizes};
ghost use Rattle.mp4_traf.specs.Implementation.Added.{field_numbers, numbers_from};

use crate::run::Run;
use crate::trun::SampleFields;
use mp4_box::u32_at;

/// Sums over some samples of a run.
#[derive(Clone, Copy)]
pub struct Sums {
    /// Their bytes.
    pub bytes: u64,
    /// Their durations, in ticks.
    pub ticks: u64,
}

/// The bytes from the group of this index on.
#[tactic(auto, using(std::proofs::lemmas::List::drop_min), unfolding(crate::specs::Rows::group_at))]
pub(crate) fn groups_from<'a>(run: &Run, moof_bytes: &'a [u8], i: u32) -> &'a [u8]
    ensures { result.now ≡ drop (group_at run.now i) moof_bytes.now }
{
    let group = u128::from(run.samples_at) + u128::from(run.fields.len) * u128::from(i);
    let (_, groups) = moof_bytes.split_at(group.min(moof_bytes.len() as u128) as usize);
    groups
}

/// Whether a group has all four fields, which are in the standard's order then.
fn has_all(fields: &SampleFields) -> bool
    ensures { (result ≡ true) ↔ (fields.now ≡ all_fields) }
{
    fields.len == 16
        && fields.sample_duration == Some(0)
        && fields.sample_size == Some(4)
        && fields.sample_flags == Some(8)
        && fields.sample_composition_time_offset == Some(12)
}

/// The number in the four bytes at a place, 0 where they aren't all there.
#[inline(always)]
fn number_in(groups: &[u8], place: u64) -> u32
    requires { place + 4 < 2 ^ 64 }
    ensures { result ≡ number_in groups.now place }
{
    if (groups.len() as u64) < place + 4 {
        return 0;
    }
    u32_at(groups, place as usize)
}

/// The numbers at a place of each of `count` groups of `len` bytes, of which the first begins the bytes, added up. All
/// of them are there.
#[inline(always)]
fn whole_sum(groups: &[u8], at: u32, len: u32, count: u32) -> u64
    requires there { at + 4 + len * count ≤ length groups.now + len }
    ensures sum { result ≡ numbers_from groups.now len at count }
    ensures few { result ≤ 4294967295 * count }
{
    let step = u64::from(len);
    let mut place = u64::from(at);
    let mut total = 0;
    let mut left = count;
    while left > 0 {
        total += u64::from(u32_at(groups, place as usize));
        place += step;
        left -= 1;
    }
    total
}

/// The same, whatever is there.
#[inline(never)]
fn any_sum(groups: &[u8], at: u32, len: u32, count: u32) -> u64
    ensures sum { result ≡ numbers_from groups.now len at count }
    ensures few { result ≤ 4294967295 * count }
{
    let step = u64::from(len);
    let mut place = u64::from(at);
    let mut total = 0;
    let mut numbers_left = count;
    while numbers_left > 0 {
        total += u64::from(number_in(groups, place));
        place += step;
        numbers_left -= 1;
    }
    total
}

/// The numbers at two places of each of `count` groups of `len` bytes, of which the first begins the bytes, added up,
/// those at each place by themselves: the groups are gone over once. All of them are there.
#[inline(always)]
fn whole_both(groups: &[u8], size_at: u32, duration_at: u32, len: u32, count: u32) -> Sums
    requires sizes { size_at + 4 + len * count ≤ length groups.now + len }
    requires durations { duration_at + 4 + len * count ≤ length groups.now + len }
    ensures bytes { result.bytes ≡ numbers_from groups.now len size_at count }
    ensures ticks { result.ticks ≡ numbers_from groups.now len duration_at count }
    ensures few_bytes { result.bytes ≤ 4294967295 * count }
    ensures few_ticks { result.ticks ≤ 4294967295 * count }
{
    let step = u64::from(len);
    let mut size_place = u64::from(size_at);
    let mut duration_place = u64::from(duration_at);
    let mut bytes = 0;
    let mut ticks = 0;
    let mut groups_left = count;
    while groups_left > 0 {
        bytes += u64::from(u32_at(groups, size_place as usize));
        ticks += u64::from(u32_at(groups, duration_place as usize));
        size_place += step;
        duration_place += step;
        groups_left -= 1;
    }
    Sums { bytes, ticks }
}

/// The numbers at two places of each of `count` groups of `len` bytes, of which the first begins the bytes, added up,
/// those at each place by themselves: the groups are gone over once if all of them are there.
#[inline(always)]
fn both_sums(groups: &[u8], size_at: u32, duration_at: u32, len: u32, count: u32) -> Sums
    ensures bytes { result.bytes ≡ numbers_from groups.now len size_at count }
    ensures ticks { result.ticks ≡ numbers_from groups.now len duration_at count }
    ensures few_bytes { result.bytes ≤ 4294967295 * count }
    ensures few_ticks { result.ticks ≤ 4294967295 * count }
{
    let span = 4 + u64::from(len) * u64::from(count);
    let room = groups.len() as u64 + u64::from(len);
    if u64::from(size_at) + span <= room && u64::from(duration_at) + span <= room {
        whole_both(groups, size_at, duration_at, len, count)
    } else {
        Sums {
            bytes: any_sum(groups, size_at, len, count),
            ticks: any_sum(groups, duration_at, len, count),
        }
    }
}

/// The numbers of a field of `count` groups of `len` bytes, of which the first begins the bytes, added up: by a product
/// where they haven't the field.
#[inline(always)]
#[tactic(auto, using(crate::proofs::RowLemmas::numbers_one))]
fn field_sum(groups: &[u8], at: Option<u32>, default_value: u32, len: u32, count: u32) -> u64
    ensures sum { result ≡ field_numbers groups.now at default_value len count }
    ensures few { result ≤ 4294967295 * count }
{
    let Some(at) = at else {
        return u64::from(default_value) * u64::from(count);
    };
    // Runs of live streams often have one sample.
    if count == 1 {
        return u64::from(number_in(groups, u64::from(at)));
    }
    let end = u64::from(at) + 4 + u64::from(len) * u64::from(count);
    // In a trun without a fault all are there: no number needs a test of its own.
    if end <= groups.len() as u64 + u64::from(len) {
        whole_sum(groups, at, len, count)
    } else {
        any_sum(groups, at, len, count)
    }
}

/// How many of `most` groups of `len` bytes, of which the first begins the bytes, have numbers at a place that add up to
/// no more than a limit.
#[inline(always)]
fn numbers_within(groups: &[u8], at: u32, len: u32, most: u32, limit: u64) -> u32
    ensures few { result ≤ most }
    ensures within { numbers_from groups.now len at result ≤ limit }
    ensures full { result < most → limit < numbers_from groups.now len at (result + 1) }
{
    let step = u64::from(len);
    let mut place = u64::from(at);
    let mut total = 0;
    let mut count = 0;
    let mut numbers_left = most;
    while numbers_left > 0 {
        total += u64::from(number_in(groups, place));
        if total > limit {
            return count;
        }
        place += step;
        count += 1;
        numbers_left -= 1;
    }
    count
}

/// How many of so many samples of one duration last no longer than so many ticks.
fn default_within(duration: u32, most: u32, ticks: u64) -> u32
    ensures few { result ≤ most }
    ensures within { duration * result ≤ ticks }
    ensures full { result < most → ticks < duration * (result + 1) }
{
    if duration == 0 {
        return most;
    }
    (ticks / u64::from(duration)).min(u64::from(most)) as u32
}

/// The durations of `count` rows of a run, added up, of which the first group begins the bytes.
#[inline(always)]
pub(crate) fn durations_in(run: &Run, groups: &[u8], count: u32) -> u64
    ensures sum { result ≡ field_numbers groups.now run.now.fields.sample_duration run.now.duration
        run.now.fields.len count }
    ensures few { result ≤ 4294967295 * count }
{
    let fields = &run.fields;
    field_sum(
        groups,
        fields.sample_duration,
        run.duration,
        fields.len,
        count,
    )
}

impl Run {
    /// The sizes and the durations of `count` rows from row `first` on, added up; nothing else of them is read. They
    /// are gone over once at most: where both are the samples' own, both are added up on the way. `moof_bytes` are the
    /// bytes of its moof.
    #[inline(always)]
    #[tactic(auto, using(crate::proofs::BetweenLemmas::sizes_between, crate::proofs::BetweenLemmas::durations_between))]
    pub fn sums_between(&self, moof_bytes: &[u8], first: u32, count: u32) -> Sums
        requires rows { first + count ≤ self.now.count }
        ensures bytes { result.bytes ≡ sizes (take count (drop first (rows_of self.now moof_bytes.now))) }
        ensures ticks { result.ticks ≡ durations (take count (drop first (rows_of self.now moof_bytes.now))) }
    {
        let rest = groups_from(self, moof_bytes, first);
        let fields = &self.fields;
        match (fields.sample_size, fields.sample_duration) {
            (Some(size), Some(duration)) => both_sums(rest, size, duration, fields.len, count),
            _ => Sums {
                bytes: field_sum(rest, fields.sample_size, self.size, fields.len, count),
                ticks: durations_in(self, rest, count),
            },
        }
    }

    /// How many of `most` rows from row `first` on last no longer than so many ticks together. Only durations are read.
    /// `moof_bytes` are the bytes of its moof.
    pub fn count_within(&self, moof_bytes: &[u8], first: u32, most: u32, ticks: u64) -> u32
        requires rows { first + most ≤ self.now.count }
        ensures few { result ≤ most }
        ensures within { durations (take result (drop first (rows_of self.now moof_bytes.now))) ≤ ticks }
        ensures full { result < most →
            ticks < durations (take (result + 1) (drop first (rows_of self.now moof_bytes.now))) }
    {
        let Some(at) = self.fields.sample_duration else {
            return default_within(self.duration, most, ticks);
        };
        let own = groups_from(self, moof_bytes, first);
        numbers_within(own, at, self.fields.len, most, ticks)
    }

    /// The groups of `count` rows from row `first` on as they are in the moof, whose bytes are `moof_bytes`: 16 bytes
    /// each, the sample's duration, size, flags and composition time offset (ISO/IEC 14496-12, 8.8.8). None where the
    /// groups haven't all four fields, or aren't all there.
    pub fn whole_groups<'a>(&self, moof_bytes: &'a [u8], first: u32, count: u32) -> Option<&'a [u8]>
        ensures len { IfSome result (λ groups. length groups.now ≡ 16 * count) }
        ensures rows { IfSome result (λ groups.
            groups.now ≡ flat_map row_bytes (take count (drop first (rows_of self.now moof_bytes.now)))) }
        ensures some { IsSome result ↔ HasWholeGroups self.now moof_bytes.now first count }
    {
        let len = 16 * count as usize;
        if !has_all(&self.fields) || u64::from(first) + u64::from(count) > u64::from(self.count) {
            return None;
        }
        let groups = groups_from(self, moof_bytes, first);
        if groups.len() < len {
            return None;
        }
        let (whole, _) = groups.split_at(len);
        Some(whole)
    }
}
