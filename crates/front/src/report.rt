// What is said of a dictionary and a kernel, as the four numbers that are printed.
ghost use Rattle.std.specs.Prelude.{◌≡◌};
ghost use Rattle.front.specs.Printed.{printed, report_is};

use kernel::check::check;

// Named as the lines are.
#[derive(Clone, Copy, Debug, PartialEq, Eq)]
pub struct Report {
    pub verdict: u64,
    pub at: u64,
    pub instructions: u64,
    pub bytes: u64,
}

// What is printed for a refusal: neither instructions nor bytes.
// It takes every number and offset, and so is no conversion of a refusal: not each number is one's.
pub fn refused(number: u8, offset: u64) -> Report
    ensures { report_is result ≡ record { verdict = number; at = offset; instructions = 0; bytes = 0 } }
{
    Report {
        verdict: u64::from(number),
        at: offset,
        instructions: 0,
        bytes: 0,
    }
}

// What is printed for a dictionary and a kernel: its length too where it is accepted.
pub fn report_on(dictionary: &[u8], kernel: &[u8]) -> Report
    ensures { report_is result ≡ printed dictionary.now kernel.now }
{
    let bytes = kernel.len() as u64;
    match check(dictionary, kernel) {
        Ok(told) => Report {
            verdict: u64::from(told.verdict.number()),
            at: 0,
            instructions: told.count,
            bytes,
        },
        Err(refusing) => refused(refusing.refusal.number(), refusing.offset),
    }
}
