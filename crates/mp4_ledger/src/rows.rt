//! Rows of eight numbers in claimed memory: how they are claimed, used and given back.

ghost use Rattle.std.specs.Prelude.{◌≡◌, ◌+◌, ◌*◌, ◌<◌, ◌≤◌, ◌↔◌, [], ◌∷◌, ◌++◌, length, IsTrue, slice_set, slice_index_or, OnOk, OnErr, IfOk, IsErrOf};
ghost use Rattle.std.specs.Borrow.{sem};
ghost use Rattle.mp4_ledger.specs.Lending.{LendsRows};
ghost use Rattle.mp4_ledger.specs.Memory.{claimed, given_back};

use crate::ledger::{Ledger, Refused};
use std::marker::Model;

/// A table in claimed memory, 64 bytes a row. It must be given back to its ledger, and can't be dropped.
pub struct Rows64 {
    pub(crate) rows: Vec<[u64; 8]>,
    pub(crate) cap: usize,
}

// A contract sees the rows and the capacity.
impl Model for Rows64 {
    ghost use Rattle.std.specs.Prelude.{◌≡◌, ◌≤◌, length, vec_capacity};
    ghost use Rattle.mp4_ledger.specs.Memory.{Rows};

    ghost Value = { Rows };

    ghost view = { λ t. record { rows = t.rows.items; cap = t.cap } };

    ghost invariant = { λ t. (length t.rows.items ≤ t.cap) × (vec_capacity t.rows ≡ t.cap) };
}

impl Rows64 {
    /// How many rows it has.
    pub fn len(&self) -> usize
        ensures len { result ≡ length self.now.rows }
        ensures within { length self.now.rows ≤ self.now.cap }
    {
        self.rows.len()
    }

    /// Whether it has none.
    pub fn is_empty(&self) -> bool
        ensures { IsTrue result ↔ (self.now.rows ≡ []) }
    {
        self.rows.is_empty()
    }

    /// Its capacity, for which it was claimed.
    pub fn cap(&self) -> usize
        ensures { result ≡ self.now.cap }
    {
        self.cap
    }

    /// Appends a row, for which there must be room.
    pub fn push(&mut self, row: [u64; 8])
        requires { length self.old.rows < self.old.cap }
        ensures { self.new ≡ record self.old { rows = self.old.rows ++ row ∷ [] } }
    {
        self.rows.push_reserved(row);
    }

    /// The row at this index.
    pub fn get(&self, i: usize) -> [u64; 8]
        requires { i < length self.now.rows }
        ensures { result ≡ slice_index_or self.now.rows i result }
    {
        self.rows[i]
    }

    /// Puts another row at this index.
    pub fn set(&mut self, i: usize, row: [u64; 8])
        requires { i < length self.old.rows }
        ensures { self.new ≡ record self.old { rows = slice_set self.old.rows i row } }
    {
        self.rows[i] = row;
    }

    /// All rows, as a borrow.
    pub fn all_mut(&mut self) -> &mut [[u64; 8]]
        ensures* writes_back { sem 𝓛 (LendsRows self.entry result) }
        ensures value { result.now ≡ self.old.rows }
    {
        self.rows.as_mut_slice()
    }
}

impl Ledger {
    /// Claims an empty table with room for so many rows, of 64 bytes each.
    ///
    /// # Errors
    ///
    /// `OverLimit` exactly where the claim passes the limit; else `Memory` where the allocator has none.
    /// Nothing is claimed then.
    pub fn rows(&mut self, n: u64) -> Result<Rows64, Refused>
        ensures empty { IfOk result (λ t. t ≡ record { rows = []; cap = n }) }
        ensures ok { OnOk result (self.new ≡ claimed self.old (64 * n)) }
        ensures over_limit { IsErrOf result Refused.OverLimit ↔
            (self.old.limit < self.old.live + 64 * n) }
        ensures err { OnErr result (self.new ≡ self.old) }
        ensures within { self.new.live ≤ self.new.limit }
    {
        let room = self.limit - self.live;
        if n > room / 64 {
            return Err(Refused::OverLimit);
        }
        let Ok(rows) = Vec::with_capacity(self.alloc, n as usize) else {
            return Err(Refused::Memory);
        };
        self.count(64 * n);
        Ok(Rows64 {
            rows,
            cap: n as usize,
        })
    }

    /// Takes a table back.
    pub fn back_rows(&mut self, rows: Rows64)
        requires { 64 * rows.cap ≤ self.old.live }
        ensures { self.new ≡ given_back self.old (64 * rows.cap) }
    {
        let Rows64 { rows: _, cap } = rows;
        self.live -= 64 * cap as u64;
    }
}
