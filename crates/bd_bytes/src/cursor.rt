//! Numbers and slices from the front of some bytes.

ghost use Rattle.std.specs.Prelude.{◌≡◌, ◌<◌, ◌↔◌, length, take, IsErr, IfOk, OnOk, OnErr};
ghost use Rattle.byteorder.specs.Endian.{big_number, little_number};
ghost use Rattle.bd_bytes.specs.Cursor.{passed};

use byteorder::{BigEndian, ByteOrder, LittleEndian};
use std::marker::Model;
use thiserror::Error;

/// Too few bytes are left for a read.
#[derive(Clone, Copy, Debug, PartialEq, Eq, Error)]
#[error("too few bytes are left")]
pub struct Short;

/// Bytes that are read from the front. A read that is refused changes nothing.
#[derive(Drop)]
pub struct Cursor<'a> {
    place: usize,
    left: &'a [u8],
}

impl<'a> Model for Cursor<'a> {
    ghost use Rattle.std.specs.Prelude.{◌+◌, ◌<◌, ◌^◌, length};
    ghost use Rattle.bd_bytes.specs.Cursor.{At};

    ghost Value = { At };

    ghost view = { λ c. record { place = c.place; left = c.left.now } };

    ghost invariant = { λ c. c.place + length c.left.now < 2 ^ 64 };
}

impl<'a> Cursor<'a> {
    /// A cursor at the first of these bytes.
    pub fn new(bytes: &'a [u8]) -> Cursor<'a>
        ensures { result ≡ record { place = 0; left = bytes.now } }
    {
        Cursor {
            place: 0,
            left: bytes,
        }
    }

    /// How many bytes were passed.
    pub fn place(&self) -> usize
        ensures { result ≡ self.now.place }
    {
        self.place
    }

    /// How many bytes are left.
    pub fn left(&self) -> usize
        ensures { result ≡ length self.now.left }
    {
        self.left.len()
    }

    /// The next `n` bytes. `Short` where fewer are left.
    pub fn take(&mut self, n: usize) -> Result<&'a [u8], Short>
        ensures short { IsErr result ↔ (length self.old.left < n) }
        ensures front { IfOk result (λ front. front.now ≡ take n self.old.left) }
        ensures moved { OnOk result (self.new ≡ passed n self.old) }
        ensures stays { OnErr result (self.new ≡ self.old) }
    {
        if self.left.len() < n {
            return Err(Short);
        }
        let (front, left) = self.left.split_at(n);
        self.place += n;
        self.left = left;
        Ok(front)
    }

    /// The next two bytes as a number, the highest byte first. `Short` where fewer are left.
    pub fn be16(&mut self) -> Result<u16, Short>
        ensures short { IsErr result ↔ (length self.old.left < 2) }
        ensures value { IfOk result (λ number. number ≡ big_number 2 self.old.left) }
        ensures moved { OnOk result (self.new ≡ passed 2 self.old) }
        ensures stays { OnErr result (self.new ≡ self.old) }
    {
        let front = self.take(2)?;
        Ok(BigEndian::read_u16(front))
    }

    /// The next four bytes as a number, the highest byte first. `Short` where fewer are left.
    pub fn be32(&mut self) -> Result<u32, Short>
        ensures short { IsErr result ↔ (length self.old.left < 4) }
        ensures value { IfOk result (λ number. number ≡ big_number 4 self.old.left) }
        ensures moved { OnOk result (self.new ≡ passed 4 self.old) }
        ensures stays { OnErr result (self.new ≡ self.old) }
    {
        let front = self.take(4)?;
        Ok(BigEndian::read_u32(front))
    }

    /// The next four bytes as a number, the lowest byte first. `Short` where fewer are left.
    pub fn le32(&mut self) -> Result<u32, Short>
        ensures short { IsErr result ↔ (length self.old.left < 4) }
        ensures value { IfOk result (λ number. number ≡ little_number 4 self.old.left) }
        ensures moved { OnOk result (self.new ≡ passed 4 self.old) }
        ensures stays { OnErr result (self.new ≡ self.old) }
    {
        let front = self.take(4)?;
        Ok(LittleEndian::read_u32(front))
    }

    /// The next eight bytes as a number, the lowest byte first. `Short` where fewer are left.
    pub fn le64(&mut self) -> Result<u64, Short>
        ensures short { IsErr result ↔ (length self.old.left < 8) }
        ensures value { IfOk result (λ number. number ≡ little_number 8 self.old.left) }
        ensures moved { OnOk result (self.new ≡ passed 8 self.old) }
        ensures stays { OnErr result (self.new ≡ self.old) }
    {
        let front = self.take(8)?;
        Ok(LittleEndian::read_u64(front))
    }
}

#[cfg(test)]
mod tests {
    use super::*;

    const BYTES: [u8; 8] = [1, 2, 3, 4, 5, 6, 7, 8];

    /// Where the cursor stands: how many bytes were passed, and how many are left.
    fn place_and_left(cursor: &Cursor) -> (usize, usize) {
        (cursor.place(), cursor.left())
    }

    #[test]
    fn exactly_enough_bytes(rt: HostRuntime) {
        let mut cursor = Cursor::new(&BYTES[..3]);
        assert_eq!(rt; cursor.take(3), Ok(&BYTES[..3]));
        assert_eq!(rt; place_and_left(&cursor), (3, 0));
        let mut cursor = Cursor::new(&BYTES[..2]);
        assert_eq!(rt; cursor.be16(), Ok(0x0102));
        assert_eq!(rt; place_and_left(&cursor), (2, 0));
        let mut cursor = Cursor::new(&BYTES[..4]);
        assert_eq!(rt; cursor.be32(), Ok(0x0102_0304));
        assert_eq!(rt; place_and_left(&cursor), (4, 0));
        let mut cursor = Cursor::new(&BYTES[..4]);
        assert_eq!(rt; cursor.le32(), Ok(0x0403_0201));
        assert_eq!(rt; place_and_left(&cursor), (4, 0));
        let mut cursor = Cursor::new(&BYTES);
        assert_eq!(rt; cursor.le64(), Ok(0x0807_0605_0403_0201));
        assert_eq!(rt; place_and_left(&cursor), (8, 0));
    }

    /// A byte is passed first, so that a refused read has a place to keep.
    #[test]
    fn one_byte_too_few(rt: HostRuntime) {
        let mut cursor = Cursor::new(&BYTES[..3]);
        assert_eq!(rt; cursor.take(1), Ok(&BYTES[..1]));
        assert_eq!(rt; cursor.take(3), Err(Short));
        assert_eq!(rt; place_and_left(&cursor), (1, 2));
        assert_eq!(rt; cursor.be16(), Ok(0x0203));
        assert_eq!(rt; cursor.be16(), Err(Short));
        assert_eq!(rt; place_and_left(&cursor), (3, 0));
        let mut cursor = Cursor::new(&BYTES[..3]);
        assert_eq!(rt; cursor.be32(), Err(Short));
        assert_eq!(rt; cursor.le32(), Err(Short));
        assert_eq!(rt; place_and_left(&cursor), (0, 3));
        let mut cursor = Cursor::new(&BYTES[..7]);
        assert_eq!(rt; cursor.le64(), Err(Short));
        assert_eq!(rt; place_and_left(&cursor), (0, 7));
    }
}
