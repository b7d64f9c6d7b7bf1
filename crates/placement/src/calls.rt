// The calls on bytes: an order's answer, the fixed kernel, and a record loaded for it. A refusal leaves what is lent as it was.
ghost use Rattle.std.specs.Prelude.{◌≡◌, ◌+◌, ◌≤◌, length};
ghost use Rattle.paper.specs.Bits.{number_at};
ghost use Rattle.paper.specs.Placing.{record_bytes, placement_of, point_bytes, place_kernel, place_call, place_kernel_call, place_load_call};
ghost use Rattle.words.specs.Answer.{Wrote};
ghost use Rattle.placement.specs.Spots.{record_is, spot_is, point_at, loaded_from, six_bytes};

use crate::fixed::KERNEL;
use crate::patterns::{Record, Spot, answer_spot};
use crate::{Placement, Six, Two};
use numbers::write;
use short::calls::deliver;
use words::answer::{Answer, accepted};
use words::bytes::read4;
use words::limits::REGISTER_BYTES;
use words::refusal::Refusal;

// How many bytes a record has.
pub const RECORD_BYTES: usize = 24;

// The byte of the registers at which r6 begins.
const R6: usize = 192;

// The float at a byte of a record. (`from_le_bytes` would name its four bytes one by one.)
fn float_at(bytes: &[u8], from: usize) -> u32
    requires { from + 4 ≤ length bytes.now }
    ensures { result ≡ number_at bytes.now from 4 }
{
    read4(bytes, from) as u32
}

// The record that bytes hold. (As a From of bytes it, and `bytes_of`, would be the same six lines below another head.)
fn record_of(bytes: &[u8]) -> Record
    requires { length bytes.now ≡ record_bytes }
    ensures { record_is result ≡ placement_of bytes.now }
{
    let a = float_at(bytes, 0);
    let b = float_at(bytes, 4);
    let c = float_at(bytes, 8);
    let d = float_at(bytes, 12);
    let e = float_at(bytes, 16);
    let f = float_at(bytes, 20);
    Six { a, b, c, d, e, f }
}

// The bytes of a point's two patterns.
fn point_bytes(at: Spot) -> [u8; 8]
    ensures { result ≡ point_bytes (spot_is at) }
{
    let mut bytes = [0u8; 8];
    write::<4>(&mut bytes, 0, u64::from(at.x));
    write::<4>(&mut bytes, 4, u64::from(at.y));
    bytes
}

// Answers an order: the bytes of two patterns.
pub fn place(order: u64, bytes: &[u8], x: u32, y: u32, out: &mut [u8]) -> Answer
    ensures { Wrote (place_call order bytes.now (point_at x y) out.old) result out.new }
{
    if bytes.len() != RECORD_BYTES {
        return Err(Refusal::WrongSize.into());
    }
    if order >= 3 {
        return Err(Refusal::NotServed.into());
    }
    let answered = answer_spot(order, record_of(bytes), Two { x, y });
    deliver(out, &point_bytes(answered))
}

// The fixed kernel.
fn kernel_bytes() -> [u8; 128]
    ensures { result ≡ place_kernel }
{
    KERNEL
}

// Gives the fixed kernel.
pub fn place_kernel(out: &mut [u8]) -> Answer
    ensures { Wrote (place_kernel_call out.old) result out.new }
{
    deliver(out, &kernel_bytes())
}

// Puts a record where the fixed kernel finds it, in r6 from its first byte.
pub fn place_load(bytes: &[u8], registers: &mut [u8]) -> Answer
    ensures { Wrote (place_load_call bytes.now registers.old) result registers.new }
{
    if bytes.len() != RECORD_BYTES || registers.len() != REGISTER_BYTES {
        return Err(Refusal::WrongSize.into());
    }
    registers[R6..R6 + RECORD_BYTES].copy_from_slice(bytes);
    accepted(0)
}

// The bytes of a record's six patterns.
fn bytes_of(k: Record) -> [u8; RECORD_BYTES]
    ensures { result ≡ six_bytes k }
{
    let mut bytes = [0u8; RECORD_BYTES];
    write::<4>(&mut bytes, 0, u64::from(k.a));
    write::<4>(&mut bytes, 4, u64::from(k.b));
    write::<4>(&mut bytes, 8, u64::from(k.c));
    write::<4>(&mut bytes, 12, u64::from(k.d));
    write::<4>(&mut bytes, 16, u64::from(k.e));
    write::<4>(&mut bytes, 20, u64::from(k.f));
    bytes
}

// Puts a placement's six floats where the fixed kernel finds them: it loads the record that writes them.
pub fn load_placement(p: Placement, registers: &mut [u8]) -> Answer
    ensures { Wrote (place_load_call (six_bytes (loaded_from p)) registers.old) result registers.new }
{
    place_load(&bytes_of(p.to_bits()), registers)
}
