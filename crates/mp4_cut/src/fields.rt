//! The fields of a box that is being written.

ghost use Rattle.std.specs.Prelude.{◌≡◌, ℕ, List, [], ◌∷◌, ◌+◌, ◌≤◌, ◌<◌, ◌^◌, ◌++◌, length};
ghost use Rattle.byteorder.specs.Endian.{big_bytes};

use arrayvec::ArrayVec;
use byteorder::{BigEndian, ByteOrder};
use mp4_box::FourCc;
use std::marker::Model;

/// Fields, one after the other: room for those of a moof before its samples.
#[derive(Drop)]
pub(crate) struct Fields {
    bytes: ArrayVec<u8, 92>,
}

// A contract sees the bytes.
impl Model for Fields {
    ghost Value = { List ℕ };

    ghost view = { λ f. f.bytes.items };
}

impl Fields {
    /// No fields yet.
    pub(crate) fn new() -> Self
        ensures { result ≡ [] }
    {
        Fields {
            bytes: ArrayVec::new(),
        }
    }

    /// The bytes of all fields.
    pub(crate) fn as_slice(&self) -> &[u8]
        ensures { result.now ≡ self.now }
    {
        self.bytes.as_slice()
    }

    /// The bytes of all fields, where there is no room for more.
    #[inline(always)]
    pub(crate) fn whole(self) -> [u8; 92]
        requires { length self ≡ 92 }
        ensures { result ≡ self }
    {
        self.bytes.into_inner().unwrap()
    }

    /// Puts bytes after the fields.
    fn put(&mut self, bytes: &[u8])
        requires { length self.old + length bytes.now ≤ 92 }
        ensures { self.new ≡ self.old ++ bytes.now }
    {
        match self.bytes.try_extend_from_slice(bytes) {
            Ok(()) => {}
            Err(_) => unreachable!(),
        }
    }

    /// Puts a field of 16 bits.
    pub(crate) fn put_u16(&mut self, n: u16)
        requires { length self.old + 2 ≤ 92 }
        ensures bytes { self.new ≡ self.old ++ big_bytes 2 n }
        ensures len { length self.new ≡ length self.old + 2 }
    {
        let mut bytes = [0; 2];
        BigEndian::write_u16(&mut bytes, n);
        self.put(&bytes);
    }

    /// Puts a field of 32 bits.
    pub(crate) fn put_u32(&mut self, n: u32)
        requires { length self.old + 4 ≤ 92 }
        ensures bytes { self.new ≡ self.old ++ big_bytes 4 n }
        ensures len { length self.new ≡ length self.old + 4 }
    {
        let mut bytes = [0; 4];
        BigEndian::write_u32(&mut bytes, n);
        self.put(&bytes);
    }

    /// Puts a field of 64 bits.
    pub(crate) fn put_u64(&mut self, n: u64)
        requires { length self.old + 8 ≤ 92 }
        ensures bytes { self.new ≡ self.old ++ big_bytes 8 n }
        ensures len { length self.new ≡ length self.old + 8 }
    {
        let mut bytes = [0; 8];
        BigEndian::write_u64(&mut bytes, n);
        self.put(&bytes);
    }

    /// Puts the short header of a box with this size, and its type.
    pub(crate) fn put_header(&mut self, size: u32, kind: FourCc)
        requires { length self.old + 8 ≤ 92 }
        ensures bytes { self.new ≡ self.old ++ (big_bytes 4 size ++ kind.0) }
        ensures len { length self.new ≡ length self.old + 8 }
    {
        self.put_u32(size);
        self.put(&kind.0);
    }

    /// Puts the version and the flags of a full box.
    pub(crate) fn put_version_and_flags(&mut self, version: u8, flags: u32)
        requires room { length self.old + 4 ≤ 92 }
        requires flags { flags < 2 ^ 24 }
        ensures bytes { self.new ≡ self.old ++ (version ∷ big_bytes 3 flags) }
        ensures len { length self.new ≡ length self.old + 4 }
    {
        let mut bytes = [0; 4];
        bytes[0] = version;
        BigEndian::write_u24(&mut bytes[1..], flags);
        self.put(&bytes);
    }
}
