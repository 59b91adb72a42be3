//! Numbers at their places in a slice: `be` has the highest byte first, `le` the lowest.

ghost use Rattle.std.specs.Prelude.{◌≡◌, ◌+◌, ◌≤◌, length};
ghost use Rattle.std.specs.Int.{to_be_bytes, to_le_bytes, w16, w32, w64};
ghost use Rattle.byte_list.specs.Bytes.{put};
ghost use Rattle.byte_list.specs.Fields.{be16_at, be32_at, be64_at, le16_at, le32_at, le64_at};

/// The number in the two bytes from `at` on, the highest first.
#[inline(always)]
#[tactic(auto, unfolding(crate::specs::Fields::be16_at))]
pub fn be16_at(bytes: &[u8], at: usize) -> u16
    requires { at + 2 ≤ length bytes.now }
    ensures { result ≡ be16_at bytes.now at }
{
    let mut field = [0; 2];
    field.copy_from_slice(&bytes[at..at + 2]);
    u16::from_be_bytes(field)
}

/// The number in the four bytes from `at` on, the highest first.
#[inline(always)]
#[tactic(auto, unfolding(crate::specs::Fields::be32_at))]
pub fn be32_at(bytes: &[u8], at: usize) -> u32
    requires { at + 4 ≤ length bytes.now }
    ensures { result ≡ be32_at bytes.now at }
{
    let mut field = [0; 4];
    field.copy_from_slice(&bytes[at..at + 4]);
    u32::from_be_bytes(field)
}

/// The number in the eight bytes from `at` on, the highest first.
#[inline(always)]
#[tactic(auto, unfolding(crate::specs::Fields::be64_at))]
pub fn be64_at(bytes: &[u8], at: usize) -> u64
    requires { at + 8 ≤ length bytes.now }
    ensures { result ≡ be64_at bytes.now at }
{
    let mut field = [0; 8];
    field.copy_from_slice(&bytes[at..at + 8]);
    u64::from_be_bytes(field)
}

/// The number in the two bytes from `at` on, the lowest first.
#[inline(always)]
#[tactic(auto, unfolding(crate::specs::Fields::le16_at))]
pub fn le16_at(bytes: &[u8], at: usize) -> u16
    requires { at + 2 ≤ length bytes.now }
    ensures { result ≡ le16_at bytes.now at }
{
    let mut field = [0; 2];
    field.copy_from_slice(&bytes[at..at + 2]);
    u16::from_le_bytes(field)
}

/// The number in the four bytes from `at` on, the lowest first.
#[inline(always)]
#[tactic(auto, unfolding(crate::specs::Fields::le32_at))]
pub fn le32_at(bytes: &[u8], at: usize) -> u32
    requires { at + 4 ≤ length bytes.now }
    ensures { result ≡ le32_at bytes.now at }
{
    let mut field = [0; 4];
    field.copy_from_slice(&bytes[at..at + 4]);
    u32::from_le_bytes(field)
}

/// The number in the eight bytes from `at` on, the lowest first.
#[inline(always)]
#[tactic(auto, unfolding(crate::specs::Fields::le64_at))]
pub fn le64_at(bytes: &[u8], at: usize) -> u64
    requires { at + 8 ≤ length bytes.now }
    ensures { result ≡ le64_at bytes.now at }
{
    let mut field = [0; 8];
    field.copy_from_slice(&bytes[at..at + 8]);
    u64::from_le_bytes(field)
}

/// Writes `new` over the bytes from `at` on; all others stay.
#[inline(always)]
pub fn put(bytes: &mut [u8], at: usize, new: &[u8])
    requires { at + length new.now ≤ length bytes.old }
    ensures { bytes.new ≡ put at new.now bytes.old }
{
    bytes[at..at + new.len()].copy_from_slice(new);
}

/// Writes `number` over the two bytes from `at` on, the highest first; all others stay.
#[inline(always)]
pub fn put_be16(bytes: &mut [u8], at: usize, number: u16)
    requires { at + 2 ≤ length bytes.old }
    ensures { bytes.new ≡ put at (to_be_bytes w16 number) bytes.old }
{
    put(bytes, at, &number.to_be_bytes());
}

/// Writes `number` over the four bytes from `at` on, the highest first; all others stay.
#[inline(always)]
pub fn put_be32(bytes: &mut [u8], at: usize, number: u32)
    requires { at + 4 ≤ length bytes.old }
    ensures { bytes.new ≡ put at (to_be_bytes w32 number) bytes.old }
{
    put(bytes, at, &number.to_be_bytes());
}

/// Writes `number` over the eight bytes from `at` on, the highest first; all others stay.
#[inline(always)]
pub fn put_be64(bytes: &mut [u8], at: usize, number: u64)
    requires { at + 8 ≤ length bytes.old }
    ensures { bytes.new ≡ put at (to_be_bytes w64 number) bytes.old }
{
    put(bytes, at, &number.to_be_bytes());
}

/// Writes `number` over the two bytes from `at` on, the lowest first; all others stay.
#[inline(always)]
pub fn put_le16(bytes: &mut [u8], at: usize, number: u16)
    requires { at + 2 ≤ length bytes.old }
    ensures { bytes.new ≡ put at (to_le_bytes w16 number) bytes.old }
{
    put(bytes, at, &number.to_le_bytes());
}

/// Writes `number` over the four bytes from `at` on, the lowest first; all others stay.
#[inline(always)]
pub fn put_le32(bytes: &mut [u8], at: usize, number: u32)
    requires { at + 4 ≤ length bytes.old }
    ensures { bytes.new ≡ put at (to_le_bytes w32 number) bytes.old }
{
    put(bytes, at, &number.to_le_bytes());
}

/// Writes `number` over the eight bytes from `at` on, the lowest first; all others stay.
#[inline(always)]
pub fn put_le64(bytes: &mut [u8], at: usize, number: u64)
    requires { at + 8 ≤ length bytes.old }
    ensures { bytes.new ≡ put at (to_le_bytes w64 number) bytes.old }
{
    put(bytes, at, &number.to_le_bytes());
}
