// The commands that lay out what a call is lent.
ghost use Rattle.std.specs.Prelude.{◌≡◌, ◌+◌, ◌%◌, ◌^◌, ◌≤◌, true, false};
ghost use Rattle.rows.specs.declared.row.Layout.TheVariants.{Case};

use crate::bytes::put_number;
use crate::desk::Desk;
use crate::row::Layout;
use crate::sizes::{KERNEL, LONGEST, OUTPUT};
use words::limits::KERNEL_BYTES;

// The greatest index of a number of the dictionary that is lent: one more than is right.
const LAST_NUMBER: u32 = 128;

impl Desk {
    // Lays out what the row says, and says whether there is room for it; else nothing changes.
    pub fn lay(&mut self, layout: Layout) -> bool
        ensures none { result ≡ false → self.new ≡ self.old }
        ensures case { layout ≡ Case → (self.new.right ≡ (self.old.right + 1) % 2 ^ 64) × (self.new.total ≡ (self.old.total + 1) % 2 ^ 64) × (self.new.good ≡ true) }
    {
        match layout {
            Layout::Case => {
                self.open();
                true
            }
            Layout::Blank => {
                self.table[..KERNEL].fill(0);
                true
            }
            Layout::Number { index, value } => {
                index <= LAST_NUMBER
                    && put_number::<4>(&mut self.table, 4 * index as usize, u64::from(value))
            }
            Layout::Long(words) => self.assemble(words),
            Layout::Short(words) => self.assemble(words),
            Layout::Load => {
                self.load();
                true
            }
            Layout::Room(size) => {
                self.sizes.room = size as usize;
                true
            }
            Layout::Lend {
                dictionary,
                registers,
                state,
            } => {
                self.sizes.dictionary = dictionary as usize;
                self.sizes.registers = registers as usize;
                self.sizes.state = state as usize;
                true
            }
            Layout::Set { at, value } => {
                put_number::<4>(&mut self.board[..OUTPUT], at as usize, u64::from(value))
            }
            Layout::Put { at, value } => {
                put_number::<2>(&mut self.state, at as usize, u64::from(value))
            }
            Layout::Mark { at, value } => {
                put_number::<4>(&mut self.board[OUTPUT..], at as usize, u64::from(value))
            }
        }
    }

    // A word more of the kernel, of N dwords.
    fn assemble<const N: usize>(&mut self, words: [u32; N]) -> bool
        requires { N ≤ 4 }
        ensures { result ≡ false → self.new ≡ self.old }
    {
        let size = self.sizes.kernel;
        if size > KERNEL_BYTES {
            return false;
        }
        for (k, word) in words.iter().enumerate() {
            put_number::<4>(&mut self.table, KERNEL + size + 4 * k, u64::from(*word));
        }
        self.sizes.kernel = size + 4 * N;
        true
    }

    // What the last call wrote becomes the kernel, as many bytes as it answered.
    fn load(&mut self) {
        let size = (self.answer / 0x1_0000_0000) as usize;
        let n = size.min(LONGEST);
        let (_registers, output) = self.board.split_at(OUTPUT);
        let (_dictionary, kernel) = self.table.split_at_mut(KERNEL);
        kernel[..n].copy_from_slice(&output[..n]);
        self.sizes.kernel = size;
    }
}
