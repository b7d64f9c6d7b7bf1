// What cmp leaves in a flag.
// `flags_after`, `flags_of_one` and `floats::float_flags` differ in the lowest bits alone, which only cmp reckons. One function would take a closure for these, with a clause of what it answers: no shorter
// than the three, which are one `if` each.
ghost use Rattle.std.specs.Prelude.{List, [], ◌≡◌, ℕ, ◌+◌, ◌≤◌, ◌<◌};
ghost use Rattle.paper.specs.Word.{exec_size};
ghost use Rattle.paper.specs.Region.{channels};
ghost use Rattle.paper.specs.Enable.{chosen_flag, channel_of};
ghost use Rattle.words.specs.Words.{to_word};
ghost use Rattle.words.specs.Operations.{plain_is};
ghost use Rattle.operands.specs.Single.{alone};
ghost use Rattle.execute.specs.Readable.{Acting};
ghost use Rattle.execute.specs.Stores.{store_of, FlagsOf};
ghost use Rattle.execute.specs.Compared.{lowest_bits};
ghost use Rattle.execute.specs.Effects.{flag_from, flag_made};

use crate::counts::channels;
use crate::flags::{chosen, with_chosen};
use lanes::flags::{Flags, flag_after};
use lanes::mask::raised_mask;
use words::bytes::Word;
use words::fields::qtr_ctrl;
use words::operation::Plain;
use words::traits::compares;

// The lowest bits of the n first results as a mask: bit k is result k's.
fn lowest_bits(results: &[u64; 16], n: usize) -> u64
    requires { n ≤ 16 }
    ensures { (result ≡ lowest_bits results.now n) × (result < 65536) }
{
    let mut mask = 0;
    for k in 0..n {
        mask += (results[k] % 2) << k;
    }
    mask
}

// The flags after cmp, by the mask of the lowest bits of its results.
pub(crate) fn compared(w: Word, flags: Flags<u16>, enable: u64, lowest: u64) -> Flags<u16>
    requires { (exec_size (to_word w) ≤ 4) × (channel_of (to_word w) 0 + channels (to_word w) ≤ 16) × (lowest < 65536) }
    ensures { (results : List ℕ) → lowest ≡ lowest_bits results (channels (to_word w))
        → FlagsOf result (to_word w) (store_of [] flags []) (flag_from (to_word w) (chosen_flag (to_word w) (store_of [] flags [])) enable results) }
{
    let quarter = qtr_ctrl(w);
    let n = channels(w);
    let found = raised_mask(lowest, quarter);
    let old = chosen(w, flags.wide());
    let flag = flag_after(old, 8 * quarter, n as u64, enable, found);
    with_chosen(w, flags, flag)
}

// The flags after an operation: cmp leaves what it found in the chosen one; the others change none.
pub(crate) fn flags_after(
    p: Plain,
    w: Word,
    flags: Flags<u16>,
    enable: u64,
    results: &[u64; 16],
) -> Flags<u16>
    requires { Acting (plain_is p) (to_word w) }
    ensures { FlagsOf result (to_word w) (store_of [] flags []) (flag_made (plain_is p) (to_word w) (chosen_flag (to_word w) (store_of [] flags [])) enable results.now) }
{
    if compares(p) {
        compared(w, flags, enable, lowest_bits(results, channels(w)))
    } else {
        flags
    }
}

// The same of one channel's result.
pub(crate) fn flags_of_one(p: Plain, w: Word, flags: Flags<u16>, enable: u64, v: u64) -> Flags<u16>
    requires { Acting (plain_is p) (to_word w) × (channels (to_word w) ≡ 1) }
    ensures { FlagsOf result (to_word w) (store_of [] flags []) (flag_made (plain_is p) (to_word w) (chosen_flag (to_word w) (store_of [] flags [])) enable (alone v)) }
{
    if compares(p) {
        compared(w, flags, enable, v % 2)
    } else {
        flags
    }
}
