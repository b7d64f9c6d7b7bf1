// What is asked of an accepted kernel.

// One step, or steps until the end, a broken address, or until a budget is spent.
#[derive(Clone, Copy)]
pub enum Call {
    Step,
    Run(u64),
}
