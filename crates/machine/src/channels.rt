// The sixteen channels as a state's bytes have them: masks of those that are awake and those that wait, and the places at which these wait.

// Which channels are awake, which wait, and where; one that does not wait has place 0.
#[derive(Clone, Copy)]
pub struct Channels {
    pub awake: u16,
    pub waiting: u16,
    pub places: [u64; 16],
}
