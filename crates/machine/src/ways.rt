// The places that an instruction can lead to.

// The place after an instruction, where it jumps to, and where the channels wait that it parks.
#[derive(Clone, Copy)]
pub struct Ways {
    pub next: u64,
    pub jump: u64,
    pub wait: u64,
}
