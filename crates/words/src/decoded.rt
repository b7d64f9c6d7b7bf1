// What a word says: its operation, its control fields, its operands and its distances. With these all its fields are named; a field that nothing executes is carried.
ghost use Rattle.words.specs.Words.{to_word, source_is};
ghost use Rattle.words.specs.Meaning.{ControlMeans, CarriedMeans, DestinationMeans, InputMeans, Means};

use crate::addresses::{dst_is_a0, src_is_a0};
use crate::bytes::Word;
use crate::fields::{
    Source, acc_wr_ctrl, access_mode, cmpt_ctrl, cond_modifier, debug_ctrl, dep_ctrl,
    dst_addr_mode, dst_file, dst_type, exec_size, flag_choice, high_half, long_distance, low_half,
    operation, pred_ctrl, pred_inv, qtr_ctrl, saturate, short_distance, src_addr_mode, src_file,
    src_modifier, src_type, thread_ctrl, we_ctrl,
};
use crate::operand::{Operand, operand_of};
use crate::operation::Operation;
use crate::region::{Region, dst_region};

// Which channels work, and on what conditions. The size is a code.
#[derive(Clone, Copy)]
pub struct Control {
    pub size: u64,
    pub quarter: u64,
    pub predicate: u64,
    pub inverted: u64,
    pub flag: u64,
    pub condition: u64,
    pub saturated: u64,
    pub unmasked: u64,
}

// The control fields that no step looks at: AccessMode, DepCtrl, ThreadCtrl, AccWrCtrl, CmptCtrl, DebugCtrl.
#[derive(Clone, Copy)]
pub struct Carried {
    pub access: u64,
    pub dependency: u64,
    pub thread: u64,
    pub accumulator: u64,
    pub compact: u64,
    pub debug: u64,
}

// Where a result goes: its register file, its type, its AddrMode and its region.
#[derive(Clone, Copy)]
pub struct Destination {
    pub file: u64,
    pub kind: u64,
    pub mode: u64,
    pub region: Region,
}

// Where a source comes from: its register file, its type, its modifier, its AddrMode and what it names.
#[derive(Clone, Copy)]
pub struct Input {
    pub file: u64,
    pub kind: u64,
    pub modifier: u64,
    pub mode: u64,
    pub operand: Operand,
}

// A word, taken apart. `near` is the distance of if, else, endif and while, `far` is jmpi's, `jip` and `uip` are those of break and cont.
#[derive(Clone, Copy)]
pub struct Decoded {
    pub operation: Operation,
    pub control: Control,
    pub carried: Carried,
    pub destination: Destination,
    pub first: Input,
    pub second: Input,
    pub near: u64,
    pub far: u64,
    pub jip: u64,
    pub uip: u64,
}

// A word's control fields.
pub fn control_of(w: Word) -> Control
    ensures { ControlMeans result (to_word w) }
{
    Control {
        size: exec_size(w),
        quarter: qtr_ctrl(w),
        predicate: pred_ctrl(w),
        inverted: pred_inv(w),
        flag: flag_choice(w),
        condition: cond_modifier(w),
        saturated: saturate(w),
        unmasked: we_ctrl(w),
    }
}

// Those that are only carried.
pub fn carried_of(w: Word) -> Carried
    ensures { CarriedMeans result (to_word w) }
{
    Carried {
        access: access_mode(w),
        dependency: dep_ctrl(w),
        thread: thread_ctrl(w),
        accumulator: acc_wr_ctrl(w),
        compact: cmpt_ctrl(w),
        debug: debug_ctrl(w),
    }
}

// Its destination.
pub fn destination_of(w: Word) -> Destination
    ensures { DestinationMeans result (to_word w) }
{
    Destination {
        file: dst_file(w),
        kind: dst_type(w),
        mode: dst_addr_mode(w),
        region: dst_region(dst_is_a0(w), w),
    }
}

// One of its sources.
pub fn input_of(x: Source, w: Word) -> Input
    ensures { InputMeans result (source_is x) (to_word w) }
{
    Input {
        file: src_file(x, w),
        kind: src_type(x, w),
        modifier: src_modifier(x, w),
        mode: src_addr_mode(x, w),
        operand: operand_of(true, src_is_a0(x, w), x, w),
    }
}

// All that a word says.
pub fn decode(w: Word) -> Decoded
    ensures { Means result (to_word w) }
{
    let o = operation(w);
    let control = control_of(w);
    let carried = carried_of(w);
    let destination = destination_of(w);
    let first = input_of(Source::First, w);
    let second = input_of(Source::Second, w);
    let near = short_distance(w);
    let far = long_distance(w);
    let jip = low_half(w);
    let uip = high_half(w);
    Decoded {
        operation: o,
        control,
        carried,
        destination,
        first,
        second,
        near,
        far,
        jip,
        uip,
    }
}
