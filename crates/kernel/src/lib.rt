// A kernel: fetching an instruction, its judgement, the walk, the jumps, the check, whether jumps go forward, and decoding at a place.
// Dictionary and kernel go in two, here and in the crates above, as C lends them and as the calls are said of them (`check_call`, `decode_call`); once accepted, a run has them as one (`run::accepted`).
#![tactic(auto)]

pub mod accept;
pub mod check;
pub mod decode;
pub mod fetch;
pub mod forms;
pub mod forward;
pub mod instruction;
pub mod instructions;
pub mod jumps;
pub mod walk;
