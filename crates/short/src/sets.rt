// Sets of indices, gathered once for a dictionary, so that a number is then found by three loads.
ghost use Rattle.std.specs.Prelude.{◌≡◌, ◌<◌, ◌≤◌, ◌^◌};
ghost use Rattle.paper.specs.Dictionary.{dictionary_of};
ghost use Rattle.short.specs.Sets.{Gathered, Sets, joined, first_common, found};

use crate::dictionary::number;
use words::limits::DICTIONARY_BYTES;

// A number of a table has three digits of six bits. For each digit and each value that it may have stands the set of the indices whose numbers have that
// value there: a number whose bit i is 1 where index i is in the set.

// The sets of one table: three digits, 64 values each.
pub const TABLE_SETS: usize = 192;

// Which sets each look-up has. The subregister table has two: by its 15 bits, and by the low ten that immediate form asks for.
pub(crate) const CONTROL: usize = 0;

pub(crate) const DATATYPE: usize = 1;

pub(crate) const SUBREGISTER: usize = 2;

pub(crate) const LOW_TEN: usize = 3;

pub(crate) const SOURCE: usize = 4;

// Those of the five look-ups.
pub type IndexSets = [[u32; TABLE_SETS]; 5];

// The set of index i alone.
// `alone` and `power` are functions, so that their equations stay out of the loops that use them (docs/PROOFS.md); `words::region::count_of` and `stride_of` are the paper's.
fn alone(i: usize) -> u32
    requires { i < 32 }
    ensures { result ≡ 2 ^ i }
{
    1 << i
}

// The least number that is too wide for `width` bits.
pub(crate) fn power(width: u64) -> u64
    requires { width < 64 }
    ensures { (result ≡ 2 ^ width) × (0 < result) }
{
    1 << width
}

// The indices of `one` join the sets of number n.
fn join(sets: &mut [u32; TABLE_SETS], n: u64, one: u32)
    ensures { sets.new ≡ joined sets.old n one }
{
    let low = (n % 64) as usize;
    sets[low] |= one;
    let middle = (64 + n / 64 % 64) as usize;
    sets[middle] |= one;
    let high = (128 + n / 4096 % 64) as usize;
    sets[high] |= one;
}

// The sets of the table from number `base` on, of `width` bits each, in the lent table, whatever that held.
fn gather(
    dictionary: &[u8; DICTIONARY_BYTES],
    base: usize,
    width: u64,
    sets: &mut [u32; TABLE_SETS],
)
    requires { (base ≤ 96) × (width ≤ 18) }
    ensures { Gathered (dictionary_of dictionary.now) base width sets.new 32 }
{
    let modulus = power(width);
    *sets = [0u32; TABLE_SETS];
    for i in 0..32 {
        let n = number(dictionary, base + i) % modulus;
        join(sets, n, alone(i));
    }
}

// The sets of the five look-ups, in the lent tables, whatever those held.
pub fn gather_into(dictionary: &[u8; DICTIONARY_BYTES], sets: &mut IndexSets)
    ensures { Sets (dictionary_of dictionary.now) sets.new }
{
    gather(dictionary, 0, 17, &mut sets[CONTROL]);
    gather(dictionary, 32, 18, &mut sets[DATATYPE]);
    gather(dictionary, 64, 15, &mut sets[SUBREGISTER]);
    gather(dictionary, 64, 10, &mut sets[LOW_TEN]);
    gather(dictionary, 96, 12, &mut sets[SOURCE]);
}

// The same as an answer. It is moved, so who has storage for them lends it to `gather_into`.
pub fn gather_all(dictionary: &[u8; DICTIONARY_BYTES]) -> IndexSets
    ensures { Sets (dictionary_of dictionary.now) result }
{
    let mut sets = [[0u32; TABLE_SETS]; 5];
    gather_into(dictionary, &mut sets);
    sets
}

// The smallest index that the three sets of the key have in common.
pub(crate) fn first_common(sets: &[u32; TABLE_SETS], key: u64) -> Option<u64>
    ensures { result ≡ found (first_common sets.now key) }
{
    let low = (key % 64) as usize;
    let middle = (64 + key / 64 % 64) as usize;
    let high = (128 + key / 4096 % 64) as usize;
    let common = sets[low] & sets[middle] & sets[high];
    let first = u64::from(common.trailing_zeros());
    if first < 32 { Some(first) } else { None }
}
