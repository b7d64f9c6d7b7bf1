// The byte that an address names: an element of a0 and AddrImm.
ghost use Rattle.std.specs.Prelude.{◌≡◌, ◌<◌, length, None};
ghost use Rattle.paper.specs.Address.{address_of};
ghost use Rattle.paper.specs.Limits.{address_bytes};
ghost use Rattle.distances.specs.Reach.{said_from};
ghost use Rattle.address.specs.Bytes.{in_file, told};

use words::bytes::read2;
use words::fields::part;
use words::limits::REGISTER_BYTES;

// The byte, if the register file has it.
fn in_file(byte: u64) -> Option<u64>
    ensures { result ≡ in_file byte }
{
    if byte < REGISTER_BYTES as u64 {
        Some(byte)
    } else {
        None
    }
}

// The byte that lies AddrImm, ten bits with a sign, from the byte `base` on. The sum is exact.
#[tactic(auto, unfolding(distances::specs::Reach::said_from))]
fn moved(base: u64, immediate: u64) -> Option<u64>
    requires { (base < 65536) × (immediate < 1024) }
    ensures { result ≡ said_from in_file None base immediate 512 }
{
    let sum = base + immediate;
    if immediate < 512 {
        return in_file(sum);
    }
    if sum < 1024 {
        return None;
    }
    in_file(sum - 1024)
}

// The byte of the register file that the thirteen bits of an operand name, as a0 stands; none where that is no byte of it.
pub fn address_of(addresses: &[u8], field: u64) -> Option<u64>
    requires { length addresses.now ≡ address_bytes }
    ensures { result ≡ told (address_of addresses.now field) }
{
    let element = part(field, 10, 3) as usize;
    let base = read2(addresses, 2 * element);
    moved(base, part(field, 0, 10))
}
