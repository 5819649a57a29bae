//! The rows of a run, one for each sample.

ghost use Rattle.std.specs.Prelude.{◌≡◌, ◌+◌, ◌+ℤ◌, ◌<ℤ◌, ◌<◌, ◌^◌, drop, pos};
ghost use Rattle.std.specs.Iterator.{YieldsFirst, item_count};
ghost use Rattle.mp4_traf.specs.Cursors.{first_cursor, past};
ghost use Rattle.mp4_traf.specs.Rows.{IsCursor, field_at, offset_at, row_from, row_of, rows_of, default_flags_of};

use crate::fields::signed_at;
use crate::groups::groups_from;
use crate::run::Run;
use mp4_box::number_at;
use std::marker::Model;

/// What a run says of one sample.
#[derive(Clone, Copy, Debug, PartialEq, Eq)]
pub struct Row {
    /// Its duration in ticks.
    pub duration: u32,
    /// Its size in bytes.
    pub size: u32,
    /// Its flags (ISO/IEC 14496-12, 8.8.3).
    pub flags: u32,
    /// The difference of its composition time and its decode time, in ticks.
    pub offset: i64,
}

/// How many rows were read.
#[derive(Clone, Copy, Debug, PartialEq, Eq)]
pub struct Steps {
    pub rows: u128,
}

/// A place in a run: before a row, or after the last.
#[derive(Clone, Copy, Debug, PartialEq, Eq)]
pub struct Cursor {
    /// The index of the row, from 0 on.
    pub row: u32,
    /// The decode time there, in ticks.
    pub time: u64,
    /// The offset in the stream of the sample's first byte.
    pub place: i128,
}

impl Cursor {
    /// The cursor after a row at this cursor.
    pub fn past(self, row: &Row) -> Cursor
        requires row { self.row + 1 < 2 ^ 32 }
        requires time { self.time + row.now.duration < 2 ^ 64 }
        requires place { (self.place +ℤ pos row.now.size) <ℤ pos (2 ^ 63) }
        ensures { result ≡ past self row.now }
    {
        Cursor {
            row: self.row + 1,
            time: self.time + u64::from(row.duration),
            place: self.place + i128::from(row.size),
        }
    }
}

/// Goes over rows of a run.
#[derive(Drop)]
pub struct Rows<'a> {
    run: Run,
    moof_bytes: &'a [u8],
    /// The bytes from the group of the next row on.
    rest: &'a [u8],
    index: u32,
}

// A contract sees the rows that are left.
impl<'a> Model for Rows<'a> {
    ghost use Rattle.std.specs.Prelude.{◌≡◌, ◌≤◌, List, drop};
    ghost use Rattle.mp4_traf.specs.declared.rows.Row.{Row};
    ghost use Rattle.mp4_traf.specs.Rows.{group_at, rows_after};

    ghost Value = { List Row };

    ghost view = { λ r. rows_after r.run r.moof_bytes.now r.index };

    ghost invariant = { λ r. (r.index ≤ r.run.count) × (r.rest.now ≡ drop (group_at r.run r.index) r.moof_bytes.now) };
}

/// The field at a place of the group that begins the bytes, or a default if the field isn't there.
#[inline(always)]
fn field_at(group: &[u8], at: Option<u32>, default_value: u32) -> u32
    ensures { result ≡ field_at group.now 0 at default_value }
{
    match at {
        Some(at) => number_at(group, at),
        None => default_value,
    }
}

/// The composition time offset of the group that begins the bytes, 0 where it has none: unsigned at version 0.
#[inline(always)]
fn offset_at(group: &[u8], version: u8, at: Option<u32>) -> i64
    ensures { result ≡ offset_at group.now version 0 at }
{
    let Some(at) = at else {
        return 0;
    };
    if version == 0 {
        i64::from(number_at(group, at))
    } else {
        i64::from(signed_at(group, at))
    }
}

/// The bytes after a group of so many bytes.
#[inline(always)]
#[tactic(auto, using(std::proofs::lemmas::List::drop_min))]
fn after_group(rest: &[u8], len: u32) -> &[u8]
    ensures { result.now ≡ drop len rest.now }
{
    let (_, after) = rest.split_at((len as usize).min(rest.len()));
    after
}

impl Run {
    /// The flags of a sample that has none of its own.
    fn default_flags_of(&self, i: u32) -> u32
        ensures { result ≡ default_flags_of self.now i }
    {
        if i == 0 {
            self.default_first_flags
        } else {
            self.flags
        }
    }

    /// The row of this index, whose group begins the bytes.
    #[inline(always)]
    fn row_in(&self, group: &[u8], i: u32) -> Row
        ensures { result ≡ row_from self.now group.now i 0 }
    {
        let fields = &self.fields;
        Row {
            duration: field_at(group, fields.sample_duration, self.duration),
            size: field_at(group, fields.sample_size, self.size),
            flags: field_at(group, fields.sample_flags, self.default_flags_of(i)),
            offset: offset_at(group, self.version, fields.sample_composition_time_offset),
        }
    }

    /// The cursor of its first row.
    pub fn first_cursor(&self) -> Cursor
        ensures { result ≡ first_cursor self.now }
    {
        Cursor {
            row: 0,
            time: self.time,
            place: self.place,
        }
    }

    /// The rows of the run, in order. `moof_bytes` are the bytes of its moof.
    pub fn rows<'a>(&self, moof_bytes: &'a [u8]) -> Rows<'a>
        ensures { result ≡ rows_of self.now moof_bytes.now }
    {
        Rows {
            run: *self,
            moof_bytes,
            rest: groups_from(self, moof_bytes, 0),
            index: 0,
        }
    }

    /// The rows of the run from a cursor on. `moof_bytes` are the bytes of its moof.
    #[tactic(auto, using(crate::proofs::RowLemmas::rows_dropped))]
    pub fn rows_from<'a>(&self, moof_bytes: &'a [u8], cursor: Cursor) -> Rows<'a>
        requires cursor { IsCursor self.now moof_bytes.now cursor }
        ensures { result ≡ drop cursor.row (rows_of self.now moof_bytes.now) }
    {
        Rows {
            run: *self,
            moof_bytes,
            rest: groups_from(self, moof_bytes, cursor.row),
            index: cursor.row,
        }
    }

    /// The row of this index. `moof_bytes` are the bytes of its moof.
    #[inline(always)]
    #[tactic(auto, using(crate::proofs::RowLemmas::row_after))]
    pub fn row(&self, moof_bytes: &[u8], i: u32) -> Row
        requires { i < self.now.count }
        ensures { result ≡ row_of self.now moof_bytes.now i }
    {
        self.row_in(groups_from(self, moof_bytes, i), i)
    }
}

impl<'a> Iterator for Rows<'a> {
    type Item = Row;

    ghost next_gives = { YieldsFirst (λ rest. rest) };

    ghost remaining = { item_count (λ rest. rest) };

    #[inline(always)]
    fn next(&mut self) -> Option<Row> {
        if self.index == self.run.count {
            return None;
        }
        let row = self.run.row_in(self.rest, self.index);
        self.rest = after_group(self.rest, self.run.fields.len);
        self.index += 1;
        Some(row)
    }
}
