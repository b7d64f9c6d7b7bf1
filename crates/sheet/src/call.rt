// The commands that make a call of `spokeshaver`, and those that look at the part of a kernel that is handed back: by decoding, and as the kernel to load.
use kernel::decode::part;
use pair::load::load;
use rows::bytes::number_at;
use rows::desk::{Desk, Lent};
use rows::expect::{Outcome, compared};
use rows::row::{Call, Look};
use spokeshaver::{
    spokeshaver_check, spokeshaver_decode, spokeshaver_expand, spokeshaver_forward,
    spokeshaver_list, spokeshaver_log_read, spokeshaver_log_run, spokeshaver_log_runs,
    spokeshaver_pack, spokeshaver_pair, spokeshaver_place, spokeshaver_place_kernel,
    spokeshaver_place_load, spokeshaver_read, spokeshaver_run, spokeshaver_shorten,
    spokeshaver_start, spokeshaver_step, spokeshaver_unpack,
};

// What the call answers over what is lent of the desk's bytes.
pub(crate) fn called(desk: &mut Desk, call: Call) -> u64 {
    let last = desk.answer;
    let Lent {
        dictionary,
        kernel,
        registers,
        output: out,
        state,
    } = desk.lend();
    match call {
        Call::Check => spokeshaver_check(dictionary, kernel),
        Call::Forward => spokeshaver_forward(dictionary, kernel),
        Call::Decode(place) => spokeshaver_decode(dictionary, kernel, u64::from(place)),
        Call::Pack => spokeshaver_pack(dictionary, kernel, out),
        Call::Unpack => spokeshaver_unpack(dictionary, kernel, out),
        Call::List => spokeshaver_list(dictionary, kernel, out),
        Call::Read => spokeshaver_read(dictionary, kernel, out),
        Call::Pair => spokeshaver_pair(dictionary, kernel, out),
        Call::Shorten => spokeshaver_shorten(dictionary, kernel, out),
        Call::Expand => spokeshaver_expand(dictionary, kernel, out),
        Call::Place { order, x, y } => spokeshaver_place(u64::from(order), kernel, x, y, out),
        Call::Fixed => spokeshaver_place_kernel(out),
        Call::Record => spokeshaver_place_load(kernel, registers),
        Call::Start { mask, flag0, flag1 } => spokeshaver_start(mask, flag0, flag1, state),
        Call::Step => spokeshaver_step(dictionary, kernel, registers, state),
        Call::Run(budget) => {
            spokeshaver_run(dictionary, kernel, u64::from(budget), registers, state)
        }
        Call::LogRead(count) => spokeshaver_log_read(out, u64::from(count)),
        Call::LogRuns(count) => spokeshaver_log_runs(out, u64::from(count)),
        Call::LogRun(count) => spokeshaver_log_run(out, u64::from(count), last, state),
    }
}

// What a part that is handed back holds: the bytes of the instruction at a place, or the kernel to load, of the kernel and of the one in the output.
pub(crate) fn looked_at(desk: &Desk, look: Look) -> Outcome {
    match look {
        Look::Part { place, at, value } => {
            let held = part(desk.dictionary(), desk.kernel(), u64::from(place));
            compared(number_at::<4>(held, at as usize), u64::from(value))
        }
        Look::Loads { at, value } => {
            let held = load(desk.dictionary(), desk.kernel(), desk.output());
            compared(number_at::<4>(held, at as usize), u64::from(value))
        }
    }
}
