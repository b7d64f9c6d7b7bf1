// The calls that C makes too, through the crate spokeshaver_c (include/spokeshaver.h): numbers and byte slices only. Each answers one number, by `as_number`,
// and leaves in what it is lent what the paper's definition of the call says, for all inputs; nothing is required of bytes and numbers. What each promises
// stands in Contracts.antt of the crate `contracts`, what follows from it in the crate `promises`.
#![tactic(auto)]

ghost use Rattle.contracts.specs.Contracts.{CheckPromise, ForwardPromise, PackPromise, UnpackPromise, PairPromise, ShortenPromise, ExpandPromise};
ghost use Rattle.contracts.specs.Contracts.{DecodePromise, StartPromise, StepPromise, RunPromise};
ghost use Rattle.contracts.specs.Contracts.{LogAppendPromise, LogReadPromise, LogRunsPromise, LogRunPromise, ListPromise, ReadPromise};
ghost use Rattle.contracts.specs.Contracts.{PlacePromise, PlaceKernelPromise, PlaceLoadPromise};

use answers::number_of;
use kernel::check::check;
use kernel::decode::decode_size;
use kernel::forward::forward;
use listing::list::list;
use listing::read::read;
use machine::start::start;
use packer::pack::{pack, unpack};
use pair::pair::pair;
use placement::calls::{place, place_kernel, place_load};
use run::calls::{run, step};
use run_log::calls::{append, append_run, whole_bytes, whole_runs};
use run_log::write::Entry;
use short::calls::{expand_word, shorten_word};

// Is the kernel accepted; the count is its instructions.
pub fn spokeshaver_check(dictionary: &[u8], kernel: &[u8]) -> u64
    ensures { CheckPromise dictionary.now kernel.now result }
{
    number_of(check(dictionary, kernel))
}

// Is the kernel accepted, and does every jump go forward; the count is 1 if every one does, else 0.
pub fn spokeshaver_forward(dictionary: &[u8], kernel: &[u8]) -> u64
    ensures { ForwardPromise dictionary.now kernel.now result }
{
    number_of(forward(dictionary, kernel))
}

// The kernel of long words with each word short that can be; the count is its bytes.
pub fn spokeshaver_pack(dictionary: &[u8], kernel: &[u8], out: &mut [u8]) -> u64
    ensures { PackPromise dictionary.now kernel.now out.old result out.new }
{
    number_of(pack(dictionary, kernel, out))
}

// The kernel with each word long; the count is its bytes.
pub fn spokeshaver_unpack(dictionary: &[u8], kernel: &[u8], out: &mut [u8]) -> u64
    ensures { UnpackPromise dictionary.now kernel.now out.old result out.new }
{
    number_of(unpack(dictionary, kernel, out))
}

// Is the sent kernel the same program as the long one; the count is the bytes of the one to load.
pub fn spokeshaver_pair(dictionary: &[u8], long: &[u8], sent: &[u8]) -> u64
    ensures { PairPromise dictionary.now long.now sent.now result }
{
    number_of(pair(dictionary, long, sent))
}

// The smallest short word that expands to the long word; the count is 8.
pub fn spokeshaver_shorten(dictionary: &[u8], word: &[u8], out: &mut [u8]) -> u64
    ensures { ShortenPromise dictionary.now word.now out.old result out.new }
{
    number_of(shorten_word(dictionary, word, out))
}

// The long word that the short word stands for; the count is 16.
pub fn spokeshaver_expand(dictionary: &[u8], word: &[u8], out: &mut [u8]) -> u64
    ensures { ExpandPromise dictionary.now word.now out.old result out.new }
{
    number_of(expand_word(dictionary, word, out))
}

// The one instruction at a place; the count is its bytes.
pub fn spokeshaver_decode(dictionary: &[u8], kernel: &[u8], place: u64) -> u64
    ensures { DecodePromise dictionary.now kernel.now place result }
{
    number_of(decode_size(dictionary, kernel, place))
}

// The state before the first step; the count is 0.
pub fn spokeshaver_start(mask: u16, flag0: u16, flag1: u16, state: &mut [u8]) -> u64
    ensures { StartPromise mask flag0 flag1 state.old result state.new }
{
    number_of(start(mask, flag0, flag1, state))
}

// One step; the count is 0.
pub fn spokeshaver_step(
    dictionary: &[u8],
    kernel: &[u8],
    registers: &mut [u8],
    state: &mut [u8],
) -> u64
    ensures { StepPromise dictionary.now kernel.now registers.old state.old result registers.new state.new }
{
    number_of(step(dictionary, kernel, registers, state))
}

// The budget's steps, unless the end comes first; the count is the steps made.
pub fn spokeshaver_run(
    dictionary: &[u8],
    kernel: &[u8],
    budget: u64,
    registers: &mut [u8],
    state: &mut [u8],
) -> u64
    ensures { RunPromise dictionary.now kernel.now budget registers.old state.old result registers.new state.new }
{
    number_of(run(dictionary, kernel, budget, registers, state))
}

// Appends a record to a log, where its whole records stop; the count is the log's bytes.
pub fn spokeshaver_log_append(
    log: &mut [u8],
    count: u64,
    verdict: u64,
    steps: u64,
    place: u64,
    awake: u64,
) -> u64
    ensures { LogAppendPromise log.old count verdict steps place awake result log.new }
{
    let entry = Entry {
        verdict,
        steps,
        place,
        awake,
    };
    number_of(append(log, count, entry))
}

// Reads a log; the count is the bytes of its whole records.
pub fn spokeshaver_log_read(log: &[u8], count: u64) -> u64
    ensures { LogReadPromise log.now count result }
{
    number_of(whole_bytes(log, count))
}

// Reads a log; the count is the number of its whole records.
pub fn spokeshaver_log_runs(log: &[u8], count: u64) -> u64
    ensures { LogRunsPromise log.now count result }
{
    number_of(whole_runs(log, count))
}

// Appends what a run answered and the state that it left; the count is the log's bytes.
pub fn spokeshaver_log_run(log: &mut [u8], count: u64, answer: u64, state: &[u8]) -> u64
    ensures { LogRunPromise log.old count answer state.now result log.new }
{
    number_of(append_run(log, count, answer, state))
}

// Lists a kernel; the count is the text's bytes.
pub fn spokeshaver_list(dictionary: &[u8], kernel: &[u8], out: &mut [u8]) -> u64
    ensures { ListPromise dictionary.now kernel.now out.old result out.new }
{
    number_of(list(dictionary, kernel, out))
}

// Reads a listing; the count is the kernel's bytes.
pub fn spokeshaver_read(dictionary: &[u8], text: &[u8], out: &mut [u8]) -> u64
    ensures { ReadPromise dictionary.now text.now out.old result out.new }
{
    number_of(read(dictionary, text, out))
}

// The answer to an order, with its record of six floats, for a tile at x and y, as the bytes of two patterns; the count is theirs.
pub fn spokeshaver_place(order: u64, six: &[u8], x: u32, y: u32, out: &mut [u8]) -> u64
    ensures { PlacePromise order six.now x y out.old result out.new }
{
    number_of(place(order, six, x, y, out))
}

// The fixed kernel that places sixteen tiles, in long words; the count is its bytes.
pub fn spokeshaver_place_kernel(out: &mut [u8]) -> u64
    ensures { PlaceKernelPromise out.old result out.new }
{
    number_of(place_kernel(out))
}

// A record, six floats in 24 bytes, put where the fixed kernel finds it.
pub fn spokeshaver_place_load(six: &[u8], registers: &mut [u8]) -> u64
    ensures { PlaceLoadPromise six.now registers.old result registers.new }
{
    number_of(place_load(six, registers))
}
