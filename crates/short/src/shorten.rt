// The smallest short word that expands to a word.
// Dictionary and sets go in two, with the clause `Serves`, which says nothing where no sets are lent: a struct of both would be made for one word too, and be taken apart by each look-up.
ghost use Rattle.std.specs.Prelude.{◌≡◌, ℕ, ◌+◌, ◌<◌, ◌≤◌, ◌^◌, true, false};
ghost use Rattle.std.specs.Option.{option_copied};
ghost use Rattle.paper.specs.Rows.{assemble};
ghost use Rattle.paper.specs.Dictionary.{dictionary_of};
ghost use Rattle.paper.specs.Shorten.{control_key, datatype_key, subregister_key, index_of, head_rows, tail_rows, short_word};
ghost use Rattle.paper.specs.Shorten.{shorten_immediate, shorten_register, shorten_halves, shorten};
ghost use Rattle.words.specs.Words.{to_word};
ghost use Rattle.short.specs.Sets.{Finds, Serves, found};
ghost use Rattle.short.specs.Shorter.{shorter_is, allowed};

use crate::dictionary::number;
use crate::sets::{
    CONTROL, DATATYPE, IndexSets, LOW_TEN, SOURCE, SUBREGISTER, first_common, power,
};
use words::bytes::Word;
use words::fields::{form_of, operation_in, part};
use words::limits::DICTIONARY_BYTES;
use words::operation::is_branch;

// ---- the tables, with the sets of a dictionary or without

// The smallest index into the table from number `base` on, of `width` bits, at which the number is the key: number by number.
fn walked_index(
    dictionary: &[u8; DICTIONARY_BYTES],
    base: usize,
    width: u64,
    key: u64,
) -> Option<u64>
    requires { (base ≤ 96) × (width ≤ 18) }
    ensures { result ≡ found (index_of (λ (i : ℕ). dictionary_of dictionary.now (base + i)) (2 ^ width) key) }
{
    let modulus = power(width);
    for i in 0..32 {
        if number(dictionary, base + i) % modulus == key {
            return Some(i as u64);
        }
    }
    None
}

// The same index: by the table's sets, or number by number where no sets are lent.
fn index_of(
    dictionary: &[u8; DICTIONARY_BYTES],
    sets: Option<&IndexSets>,
    table: usize,
    base: usize,
    width: u64,
    key: u64,
) -> Option<u64>
    requires { (table < 5) × (base ≤ 96) × (width ≤ 18) × (key < 2 ^ width) × Finds (dictionary_of dictionary.now) base width table (option_copied sets) }
    ensures { result ≡ found (index_of (λ (i : ℕ). dictionary_of dictionary.now (base + i)) (2 ^ width) key) }
{
    match sets {
        Some(sets) => first_common(&sets[table], key),
        None => walked_index(dictionary, base, width, key),
    }
}

// The number that a word asks of the control table.
fn control_key(lo: u64) -> u64
    ensures { (result ≡ assemble (control_key lo)) × (result < 2 ^ 17) }
{
    lo / 0x100 % 0x1_0000 + lo / 0x8000_0000 % 2 * 0x1_0000
}

// The number that it asks of the datatype table.
fn datatype_key(lo: u64) -> u64
    ensures { (result ≡ assemble (datatype_key lo)) × (result < 2 ^ 18) }
{
    lo / 0x1_0000_0000 % 0x8000 + lo / 0x2000_0000_0000_0000 % 8 * 0x8000
}

// The low ten bits that it asks of the subregister table in immediate form.
fn narrow_key(lo: u64, hi: u64) -> u64
    ensures { (result ≡ assemble (subregister_key true lo hi)) × (result < 2 ^ 10) }
{
    lo / 0x1_0000_0000_0000 % 32 + hi % 32 * 32
}

// The number that it asks of the subregister table otherwise.
fn wide_key(lo: u64, hi: u64) -> u64
    ensures { (result ≡ assemble (subregister_key false lo hi)) × (result < 2 ^ 15) }
{
    lo / 0x1_0000_0000_0000 % 32 + hi % 32 * 32 + hi / 0x1_0000_0000 % 32 * 1024
}

// ---- the short word

// Bits 29:0: c, t and b are the control, datatype and subregister index.
fn head_bits(lo: u64, hi: u64, c: u64, t: u64, b: u64) -> u64
    ensures { (result ≡ assemble (head_rows lo hi c t b)) × (result < 2 ^ 30) }
{
    lo % 0x80
        + lo / 0x4000_0000 % 2 * 0x80
        + c % 32 * 0x100
        + t % 32 * 0x2000
        + b % 32 * 0x4_0000
        + lo / 0x1000_0000 % 2 * 0x80_0000
        + lo / 0x100_0000 % 16 * 0x100_0000
        + hi / 0x200_0000 % 2 * 0x1000_0000
        + 0x2000_0000
}

// Bits 63:30: x and y are the source indices, r has src1's register in its low byte.
fn tail_bits(lo: u64, hi: u64, x: u64, y: u64, r: u64) -> u64
    ensures { (result ≡ assemble (tail_rows lo hi x y r)) × (result < 2 ^ 34) }
{
    x % 32
        + y % 32 * 0x20
        + lo / 0x20_0000_0000_0000 % 256 * 0x400
        + hi / 32 % 256 * 0x4_0000
        + r % 256 * 0x400_0000
}

// The short word of a word's halves and its indices.
fn short_word(lo: u64, hi: u64, c: u64, t: u64, b: u64, x: u64, y: u64, r: u64) -> u64
    ensures { result ≡ short_word lo hi c t b x y r }
{
    head_bits(lo, hi, c, t, b) + tail_bits(lo, hi, x, y, r) * 0x4000_0000
}

// ---- the two forms

// In immediate form: c, t and x are the control, datatype and first source index.
fn shorten_immediate(
    dictionary: &[u8; DICTIONARY_BYTES],
    sets: Option<&IndexSets>,
    lo: u64,
    hi: u64,
    c: u64,
    t: u64,
    x: u64,
) -> Option<u64>
    requires { Serves (dictionary_of dictionary.now) (option_copied sets) }
    ensures { shorter_is result ≡ shorten_immediate (dictionary_of dictionary.now) lo hi c t x }
{
    let top = hi / 0x1_0000_0000;
    if 8192 <= (top + 4096) % 0x1_0000_0000 {
        return None;
    }
    let key = narrow_key(lo, hi);
    let b = index_of(dictionary, sets, LOW_TEN, 64, 10, key)?;
    Some(short_word(lo, hi, c, t, b, x, top / 256 % 32, top))
}

// With src1 in a register.
fn shorten_register(
    dictionary: &[u8; DICTIONARY_BYTES],
    sets: Option<&IndexSets>,
    lo: u64,
    hi: u64,
    c: u64,
    t: u64,
    x: u64,
) -> Option<u64>
    requires { Serves (dictionary_of dictionary.now) (option_copied sets) }
    ensures { shorter_is result ≡ shorten_register (dictionary_of dictionary.now) lo hi c t x }
{
    if part(hi, 57, 7) != 0 {
        return None;
    }
    let key = wide_key(lo, hi);
    let b = index_of(dictionary, sets, SUBREGISTER, 64, 15, key)?;
    let source = part(hi, 45, 12);
    let y = index_of(dictionary, sets, SOURCE, 96, 12, source)?;
    Some(short_word(lo, hi, c, t, b, x, y, hi / 0x20_0000_0000))
}

// ---- any word

// No branch, and the bits that expansion leaves 0 are 0.
fn may_shorten(lo: u64, hi: u64) -> bool
    ensures { result ≡ allowed lo hi }
{
    !is_branch(operation_in(lo))
        & (part(lo, 7, 1) == 0)
        & (part(lo, 29, 1) == 0)
        & (part(lo, 47, 1) == 0)
        & (part(hi, 26, 6) == 0)
}

// From the low and the high 64 bits of a word.
fn shorten_halves(
    dictionary: &[u8; DICTIONARY_BYTES],
    sets: Option<&IndexSets>,
    lo: u64,
    hi: u64,
) -> Option<u64>
    requires { Serves (dictionary_of dictionary.now) (option_copied sets) }
    ensures { shorter_is result ≡ shorten_halves (dictionary_of dictionary.now) lo hi }
{
    if !may_shorten(lo, hi) {
        return None;
    }
    let c = index_of(dictionary, sets, CONTROL, 0, 17, control_key(lo))?;
    let t = index_of(dictionary, sets, DATATYPE, 32, 18, datatype_key(lo))?;
    let x = index_of(dictionary, sets, SOURCE, 96, 12, part(hi, 13, 12))?;
    if form_of(lo) {
        return shorten_immediate(dictionary, sets, lo, hi, c, t, x);
    }
    shorten_register(dictionary, sets, lo, hi, c, t, x)
}

// The smallest short word that expands to w, or none. The sets are the dictionary's, for many words; for one word lend none.
pub fn shorten(
    dictionary: &[u8; DICTIONARY_BYTES],
    sets: Option<&IndexSets>,
    w: Word,
) -> Option<u64>
    requires { Serves (dictionary_of dictionary.now) (option_copied sets) }
    ensures { shorter_is result ≡ shorten (dictionary_of dictionary.now) (to_word w) }
{
    shorten_halves(dictionary, sets, w.lo, w.hi)
}
