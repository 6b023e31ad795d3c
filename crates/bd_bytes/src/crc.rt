//! CRC-32 by a register that divides the message bit by bit.

ghost use Rattle.std.specs.Prelude.{◌≡◌, false, [], ◌∷◌};
ghost use Rattle.bd_bytes.specs.Crc.{bits, crc32_of};
ghost use Rattle.bd_bytes.specs.Register.{Divides};

/// The generator below its highest power, the coefficient of the next power in the lowest bit.
const GENERATOR: u32 = 0xedb8_8320;

/// The register after a step of the division, for a coefficient that it was mixed with.
fn after_bit(register: u32) -> u32
    ensures { Divides (false ∷ []) register result }
{
    if register & 1 == 1 {
        (register >> 1) ^ GENERATOR
    } else {
        register >> 1
    }
}

/// The register after the eight steps for a byte of the message.
fn after_byte(register: u32, byte: u8) -> u32
    ensures { Divides (bits 8 byte) register result }
{
    let mut mixed = register ^ u32::from(byte);
    for _ in 0..u8::BITS {
        mixed = after_bit(mixed);
    }
    mixed
}

/// The CRC-32 of the bytes, as IEEE 802.3, section 3.2.9, and the UEFI specification define it.
pub fn crc32(bytes: &[u8]) -> u32
    ensures { result ≡ crc32_of bytes.now }
{
    let mut register = u32::MAX;
    for byte in bytes {
        register = after_byte(register, *byte);
    }
    !register
}

#[cfg(test)]
mod tests {
    use super::*;

    /// Against `zlib.crc32` of Python.
    #[test]
    fn check_values(rt: HostRuntime) {
        let quick = b"The quick brown fox jumps over the lazy dog";
        for (bytes, want) in [
            (b"".as_slice(), 0),
            (b"\0".as_slice(), 0xd202_ef8d),
            (b"a".as_slice(), 0xe8b7_be43),
            (b"123456789".as_slice(), 0xcbf4_3926),
            (quick.as_slice(), 0x414f_a339),
            ([0x00; 32].as_slice(), 0x190a_55ad),
            ([0xff; 255].as_slice(), 0x73d9_2741),
        ] {
            assert_eq!(rt; crc32(bytes), want, "{} bytes", bytes.len());
        }
    }
}
