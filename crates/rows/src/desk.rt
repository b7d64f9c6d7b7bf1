// The bytes that rows lay out, and what is known between two lines of a file.
ghost use Rattle.std.specs.Prelude.{◌≡◌, ◌+◌, ◌%◌, ◌^◌, ◌<◌, ◌≤◌, length, true, false, min, take, drop};
ghost use Rattle.rows.specs.Sizes.{kernel_from, longest, output_from, state_most};

use crate::sizes::{BOARD, KERNEL, LONGEST, OUTPUT, STATE, TABLE};
use words::limits::{DICTIONARY_BYTES, REGISTER_BYTES, STATE_LENGTH};

// How many bytes of each are lent; none are that are not there.
#[derive(Clone, Copy, Debug, PartialEq, Eq)]
pub struct Sizes {
    pub kernel: usize,
    pub room: usize,
    pub dictionary: usize,
    pub registers: usize,
    pub state: usize,
}

impl Sizes {
    // The right ones, with no kernel and no output.
    fn right() -> Sizes {
        Sizes {
            kernel: 0,
            room: 0,
            dictionary: DICTIONARY_BYTES,
            registers: REGISTER_BYTES,
            state: STATE_LENGTH,
        }
    }
}

// The dictionary and from KERNEL on the kernel; the registers and from OUTPUT on the output; the state. How much of these is lent; the last call's answer; the
// line's number; how many cases are right of how many, and whether the one at hand is.
#[derive(Clone, Copy)]
pub struct Desk {
    pub table: [u8; TABLE],
    pub board: [u8; BOARD],
    pub state: [u8; STATE],
    pub sizes: Sizes,
    pub answer: u64,
    pub line: u64,
    pub right: u64,
    pub total: u64,
    pub good: bool,
}

// What a call is lent of a desk's bytes.
#[derive(Drop)]
pub struct Lent<'a> {
    pub dictionary: &'a [u8],
    pub kernel: &'a [u8],
    pub registers: &'a mut [u8],
    pub output: &'a mut [u8],
    pub state: &'a mut [u8],
}

// No call has been made: no call answers this. (It is a number, and no `Option`, since `load`, `logrun` and `answer` take it as they take any answer.)
const UNASKED: u64 = 0xFFFF_FFFF_FFFF_FFFF;

// The bytes that are lent from a place on, which has LONGEST bytes after it.
fn lent_after(bytes: &[u8], from: usize, size: usize) -> &[u8]
    requires { from + longest ≤ length bytes.now }
    ensures { result.now ≡ take (min size longest) (drop from bytes.now) }
{
    &bytes[from..from + size.min(LONGEST)]
}

// What is lent of the table, the board and the state.
fn lent_of<'a>(
    table: &'a [u8; TABLE],
    board: &'a mut [u8; BOARD],
    state: &'a mut [u8; STATE],
    sizes: Sizes,
) -> Lent<'a>
    ensures dictionary { result.dictionary.now ≡ take (min sizes.dictionary kernel_from) table.now }
    ensures kernel { result.kernel.now ≡ take (min sizes.kernel longest) (drop kernel_from table.now) }
    ensures registers { result.registers.now ≡ take (min sizes.registers output_from) board.old }
    ensures output { result.output.now ≡ take (min sizes.room longest) (drop output_from board.old) }
    ensures state { result.state.now ≡ take (min sizes.state state_most) state.old }
{
    let (registers, output) = board.split_at_mut(OUTPUT);
    Lent {
        dictionary: &table[..sizes.dictionary.min(KERNEL)],
        kernel: lent_after(table, KERNEL, sizes.kernel),
        registers: &mut registers[..sizes.registers.min(OUTPUT)],
        output: &mut output[..sizes.room.min(LONGEST)],
        state: &mut state[..sizes.state.min(STATE)],
    }
}

impl Desk {
    // Zeros, and no case has begun.
    pub fn bare() -> Desk
        ensures { (result.right ≡ 0) × (result.total ≡ 0) × (result.good ≡ false) }
    {
        Desk {
            table: [0; TABLE],
            board: [0; BOARD],
            state: [0; STATE],
            sizes: Sizes::right(),
            answer: UNASKED,
            line: 0,
            right: 0,
            total: 0,
            good: false,
        }
    }

    // A new case. The dictionary stays. The case is right until a row of it is not.
    pub fn open(&mut self)
        ensures counted { (self.new.right ≡ (self.old.right + 1) % 2 ^ 64) × (self.new.total ≡ (self.old.total + 1) % 2 ^ 64) × (self.new.good ≡ true) }
        ensures stays { (self.new.table ≡ self.old.table) × (self.new.line ≡ self.old.line) }
    {
        self.board.fill(0);
        self.state.fill(0);
        self.sizes = Sizes::right();
        self.answer = UNASKED;
        self.right = self.right.wrapping_add(1);
        self.total = self.total.wrapping_add(1);
        self.good = true;
    }

    // The case is wrong; it counts once.
    pub fn fail(&mut self)
        ensures counted { self.old.good ≡ true → 0 < self.old.right → (self.new.right + 1 ≡ self.old.right) × (self.new.good ≡ false) }
        ensures once { self.old.good ≡ false → self.new ≡ self.old }
    {
        if self.good {
            self.right = self.right.wrapping_sub(1);
            self.good = false;
        }
    }

    // What is lent to a call, of each as much as the rows say.
    pub fn lend(&mut self) -> Lent<'_>
        ensures dictionary { result.dictionary.now ≡ take (min self.old.sizes.dictionary kernel_from) self.old.table }
        ensures kernel { result.kernel.now ≡ take (min self.old.sizes.kernel longest) (drop kernel_from self.old.table) }
        ensures registers { result.registers.now ≡ take (min self.old.sizes.registers output_from) self.old.board }
        ensures output { result.output.now ≡ take (min self.old.sizes.room longest) (drop output_from self.old.board) }
        ensures state { result.state.now ≡ take (min self.old.sizes.state state_most) self.old.state }
    {
        let sizes = self.sizes;
        lent_of(&self.table, &mut self.board, &mut self.state, sizes)
    }

    // The dictionary that is lent.
    pub fn dictionary(&self) -> &[u8]
        ensures { result.now ≡ take (min self.now.sizes.dictionary kernel_from) self.now.table }
    {
        &self.table[..self.sizes.dictionary.min(KERNEL)]
    }

    // The kernel that is lent.
    pub fn kernel(&self) -> &[u8]
        ensures { result.now ≡ take (min self.now.sizes.kernel longest) (drop kernel_from self.now.table) }
    {
        lent_after(&self.table, KERNEL, self.sizes.kernel)
    }

    // The output that is lent.
    // (One line of its own array, as the kernel's.)
    pub fn output(&self) -> &[u8]
        ensures { result.now ≡ take (min self.now.sizes.room longest) (drop output_from self.now.board) }
    {
        lent_after(&self.board, OUTPUT, self.sizes.room)
    }
}
