// Numbers as bytes, the lowest byte first: read of one, two, four and eight bytes, and stored of any number of them.
#![tactic(auto)]

ghost use Rattle.std.specs.Prelude.{◌≡◌, ◌+◌, ◌<◌, ◌≤◌, ◌^◌, length};
ghost use Rattle.paper.specs.Bits.{number_at, put_at};

// The number of the byte at `from`. Each size has a function of its own: one over any number of bytes is slower where a run reads each channel's value. `read8`, which reads none, is written as they are:
// one over any number would stand for it alone.
pub fn read1(bytes: &[u8], from: usize) -> u64
    requires { from + 1 ≤ length bytes.now }
    ensures { result ≡ number_at bytes.now from 1 }
{
    u64::from(bytes[from])
}

// The number of the two bytes from `from` on.
pub fn read2(bytes: &[u8], from: usize) -> u64
    requires { from + 2 ≤ length bytes.now }
    ensures { (result ≡ number_at bytes.now from 2) × (result < 2 ^ 16) }
{
    u64::from(u16::from_le_bytes([bytes[from], bytes[from + 1]]))
}

// The number of the four bytes from `from` on.
pub fn read4(bytes: &[u8], from: usize) -> u64
    requires { from + 4 ≤ length bytes.now }
    ensures { (result ≡ number_at bytes.now from 4) × (result < 2 ^ 32) }
{
    u64::from(u32::from_le_bytes([
        bytes[from],
        bytes[from + 1],
        bytes[from + 2],
        bytes[from + 3],
    ]))
}

// The number of the eight bytes from `from` on.
pub fn read8(bytes: &[u8], from: usize) -> u64
    requires { from + 8 ≤ length bytes.now }
    ensures { result ≡ number_at bytes.now from 8 }
{
    u64::from_le_bytes([
        bytes[from],
        bytes[from + 1],
        bytes[from + 2],
        bytes[from + 3],
        bytes[from + 4],
        bytes[from + 5],
        bytes[from + 6],
        bytes[from + 7],
    ])
}

// Stores the N lowest bytes of `v` from `from` on.
pub fn write<const N: usize>(out: &mut [u8], from: usize, v: u64)
    requires { from + N ≤ length out.old }
    ensures { out.new ≡ put_at out.old from N v }
{
    let mut rest = v;
    for i in 0..N {
        out[from + i] = (rest % 256) as u8;
        rest /= 256;
    }
}
