// The word of an operation with every operand by address named directly, as a0 stands, or that an address is broken.
ghost use Rattle.std.specs.Prelude.{◌≡◌, length};
ghost use Rattle.paper.specs.Address.{address_broken, dst_direct, settled, some_outside, src_direct};
ghost use Rattle.paper.specs.Limits.{address_bytes};
ghost use Rattle.laws.specs.Regions.{LegalPlain};
ghost use Rattle.words.specs.Operations.{plain_is};
ghost use Rattle.words.specs.Words.{to_word, source_is};
ghost use Rattle.address.specs.Settling.{Says, dst_outside, rules_broken, some_addressed, sources_direct, sources_outside, src_outside};

use crate::byte::address_of;
use crate::direct::{dst_named, src_named};
use judge::regions::{alignment_broken, reach_broken};
use judge::sources::any_source;
use words::addresses::{dst_by_address, dst_indirect, src_by_address, src_indirect};
use words::bytes::Word;
use words::fields::Source;
use words::operation::Plain;
use words::traits::reads_two;

// What is settled is the word by which an operation acts, its operands named directly; and nothing where an address is broken.

// ---- whether there is something to settle

// An operand of the operation is by address.
pub fn is_addressed(p: Plain, w: Word) -> bool
    ensures { result ≡ some_addressed (plain_is p) (to_word w) }
{
    let first = src_by_address(Source::First, w);
    let second = src_by_address(Source::Second, w);
    dst_by_address(w) | any_source(p, first, second)
}

// ---- one operand

// The addresses are the last bytes of the state, lent as the slice that a run has of them, so a clause says how many there are: an array of them would come of that slice as an Option, and a run would have to
// answer for a None that there is not.

// The destination named directly, if it is by address.
fn settle_dst(w: Word, addresses: &[u8]) -> Option<Word>
    requires { length addresses.now ≡ address_bytes }
    ensures { Says result (dst_outside addresses.now (to_word w)) (dst_direct addresses.now (to_word w)) }
{
    if !dst_by_address(w) {
        return Some(w);
    }
    let byte = address_of(addresses, dst_indirect(w))?;
    Some(dst_named(w, byte))
}

// So a source.
fn settle_src(x: Source, w: Word, addresses: &[u8]) -> Option<Word>
    requires { length addresses.now ≡ address_bytes }
    ensures { Says result (src_outside addresses.now (source_is x) (to_word w)) (src_direct addresses.now (source_is x) (to_word w)) }
{
    if !src_by_address(x, w) {
        return Some(w);
    }
    let byte = address_of(addresses, src_indirect(x, w))?;
    Some(src_named(x, w, byte))
}

// ---- all operands

// The sources that the operation reads.
fn settle_sources(p: Plain, w: Word, addresses: &[u8]) -> Option<Word>
    requires { length addresses.now ≡ address_bytes }
    ensures { Says result (sources_outside (plain_is p) addresses.now (to_word w)) (sources_direct (plain_is p) addresses.now (to_word w)) }
{
    let one = settle_src(Source::First, w, addresses)?;
    if reads_two(p) {
        settle_src(Source::Second, one, addresses)
    } else {
        Some(one)
    }
}

// The destination, and then the sources: no address may lie outside of the register file.
fn settle_all(p: Plain, w: Word, addresses: &[u8]) -> Option<Word>
    requires { length addresses.now ≡ address_bytes }
    ensures { Says result (some_outside (plain_is p) addresses.now (to_word w)) (settled (plain_is p) addresses.now (to_word w)) }
{
    let one = settle_dst(w, addresses)?;
    settle_sources(p, one, addresses)
}

// 10 and 11 of a word whose operands are named directly.
fn judged(p: Plain, w: Word) -> Option<Word>
    ensures { Says result (rules_broken (plain_is p) (to_word w)) (to_word w) }
{
    if alignment_broken::<true>(p, w) || reach_broken::<true>(p, w) {
        None
    } else {
        Some(w)
    }
}

// The word by which an operation of a legal word acts, or that 22 is said of it.
pub fn settle(p: Plain, w: Word, addresses: &[u8]) -> Option<Word>
    requires { (length addresses.now ≡ address_bytes) × LegalPlain (plain_is p) (to_word w) }
    ensures { Says result (address_broken (plain_is p) addresses.now (to_word w)) (settled (plain_is p) addresses.now (to_word w)) }
{
    if !is_addressed(p, w) {
        return Some(w);
    }
    let all = settle_all(p, w, addresses)?;
    judged(p, all)
}
