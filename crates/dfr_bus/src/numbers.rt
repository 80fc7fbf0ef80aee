//! Numbers of two, four and eight bytes.

ghost use Rattle.std.specs.Prelude.{◌≡◌, ◌+◌, ◌≤◌, length};
ghost use Rattle.dfr_bus.specs.Bytes as spec;

/// Two bytes, the most significant first.
#[inline(always)]
pub(crate) fn big_2(bytes: &[u8], at: usize) -> u16
    requires { at + 2 ≤ length bytes.now }
    ensures { result ≡ spec.big_2 bytes.now at }
{
    u16::from(bytes[at]) * 256 + u16::from(bytes[at + 1])
}

/// Four bytes, the most significant first.
#[inline(always)]
pub(crate) fn big_4(bytes: &[u8], at: usize) -> u32
    requires { at + 4 ≤ length bytes.now }
    ensures { result ≡ spec.big_4 bytes.now at }
{
    u32::from(big_2(bytes, at)) * 65536 + u32::from(big_2(bytes, at + 2))
}

/// Two bytes, the least significant first.
#[inline(always)]
pub(crate) fn little_2(bytes: &[u8], at: usize) -> u16
    requires { at + 2 ≤ length bytes.now }
    ensures { result ≡ spec.little_2 bytes.now at }
{
    u16::from(bytes[at]) + u16::from(bytes[at + 1]) * 256
}

/// Four bytes, the least significant first.
#[inline(always)]
pub(crate) fn little_4(bytes: &[u8], at: usize) -> u32
    requires { at + 4 ≤ length bytes.now }
    ensures { result ≡ spec.little_4 bytes.now at }
{
    u32::from(little_2(bytes, at)) + u32::from(little_2(bytes, at + 2)) * 65536
}
