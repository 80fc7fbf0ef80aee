//! CRC-32, as gzip and zip files have it.

ghost use Rattle.std.specs.Prelude.{◌≡◌, ◌<◌, ℕ, slice_index, EachIndex};
ghost use Rattle.comtrade_inflate.specs.Crc.{crc_bit, crc_entry, crc_32};

/// The polynomial, its highest power lowest.
const POLYNOMIAL: u32 = 0xEDB8_8320;

/// One bit of the division.
fn crc_bit(crc: u32) -> u32
    ensures { result ≡ crc_bit crc }
{
    if crc % 2 == 1 {
        (crc / 2) ^ POLYNOMIAL
    } else {
        crc / 2
    }
}

/// A byte, divided bit by bit.
#[tactic(auto, unfolding(crate::specs::Crc::crc_entry))]
fn crc_entry(byte: u32) -> u32
    ensures { result ≡ crc_entry byte }
{
    let four = crc_bit(crc_bit(crc_bit(crc_bit(byte))));
    crc_bit(crc_bit(crc_bit(crc_bit(four))))
}

/// Sets each entry of the table.
fn fill(table: &mut [u32; 256])
    ensures { EachIndex table.new (λ k. slice_index table.new k ≡ crc_entry k) }
{
    for n in 0..256u32 {
        table[n as usize] = crc_entry(n);
    }
}

/// The CRC-32 of bytes.
pub fn crc_32(bytes: &[u8]) -> u32
    ensures { result ≡ crc_32 bytes.now }
{
    let mut table = [0u32; 256];
    fill(&mut table);
    let mut crc = u32::MAX;
    for byte in bytes {
        let place = (crc ^ u32::from(*byte)) % 256;
        crc = table[place as usize] ^ (crc / 256);
    }
    crc ^ u32::MAX
}
