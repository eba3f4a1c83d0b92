// Numbers in a slice of bytes, the lowest byte first: two and four bytes without a sign, and four in two's complement.
#![tactic(auto)]

ghost use Rattle.std.specs.Prelude.{◌≡◌, ◌+◌, ◌≤◌, length};
ghost use Rattle.std.proofs.lemmas.List.Edits.{sets};
ghost use Rattle.sheet_bytes.specs.Bytes.{low_bytes, number_at, signed, signed_at};

// The unsigned number in the two bytes from `at` on.
// A function for each width, here and below: `from_le_bytes` and `to_le_bytes` are each type's own, and a trait would repeat them at its impls.
pub fn u16_at(page: &[u8], at: usize) -> u16
    requires { at + 2 ≤ length page.now }
    ensures { result ≡ number_at 2 page.now at }
{
    u16::from_le_bytes([page[at], page[at + 1]])
}

// The unsigned number in the four bytes from `at` on.
// That four bytes stand there is a bound of the place.
pub fn u32_at(page: &[u8], at: usize) -> u32
    requires { at + 4 ≤ length page.now }
    ensures { result ≡ number_at 4 page.now at }
{
    u32::from_le_bytes([page[at], page[at + 1], page[at + 2], page[at + 3]])
}

// The signed number in the four bytes from `at` on.
pub fn i32_at(page: &[u8], at: usize) -> i32
    requires { at + 4 ≤ length page.now }
    ensures { result ≡ signed_at page.now at }
{
    u32_at(page, at).cast_signed()
}

// Writes an unsigned number in the two bytes from `at` on; the others stay.
pub fn put_u16(page: &mut [u8], at: usize, n: u16)
    requires { at + 2 ≤ length page.old }
    ensures { page.new ≡ sets page.old at (low_bytes 2 n) }
{
    page[at..at + 2].copy_from_slice(&n.to_le_bytes());
}

// Writes an unsigned number in the four bytes from `at` on; the others stay.
pub fn put_u32(page: &mut [u8], at: usize, n: u32)
    requires { at + 4 ≤ length page.old }
    ensures { page.new ≡ sets page.old at (low_bytes 4 n) }
{
    page[at..at + 4].copy_from_slice(&n.to_le_bytes());
}

// Writes a signed number in the four bytes from `at` on; the others stay.
pub fn put_i32(page: &mut [u8], at: usize, z: i32)
    requires { at + 4 ≤ length page.old }
    ensures { page.new ≡ sets page.old at (signed z) }
{
    put_u32(page, at, z.cast_unsigned());
}
