// Why the bench refuses. Each refusal has the number by which callers are told it.
ghost use Rattle.std.specs.Prelude.{◌≡◌, ◌<◌};
ghost use Rattle.words.specs.Refusals.{number};

// What is refused, in the order of the numbers.
#[derive(Clone, Copy, Debug, PartialEq, Eq)]
pub enum Refusal {
    // What is lent has another size than the call asks for.
    WrongSize = 1,
    // A number of the dictionary is wider than its table.
    WideDictionary = 2,
    // No whole instruction is left.
    CutShort = 3,
    // The opcode is not listed.
    Unlisted = 4,
    // A short branch; or a short word where a long one is asked, or the reverse.
    WrongForm = 5,
    // A bit is set that must be clear.
    ReservedBits = 6,
    // A field has a value that is not served; or there is no such order.
    NotServed = 7,
    // An operand breaks a rule of its operation.
    OperandRule = 8,
    // A region has no shape that the machine reads.
    RegionShape = 9,
    // A subregister is no multiple of its element's size.
    Unaligned = 10,
    // An operand spans more than two registers, or leaves its file.
    OutOfReach = 11,
    // A jump lands on no instruction's start and not on the end.
    StrayJump = 12,
    // No short word expands to the word.
    NoShortWord = 13,
    // The output is shorter than the result.
    OutputTooShort = 14,
    // The state is none of the kernel's.
    BadState = 15,
    // The budget is over its limit.
    BudgetOver = 16,
    // The kernel has more instructions than the bench takes.
    TooMany = 17,
    // An operand by address is misaligned, or lies where none may.
    BadAddress = 22,
    // The text is the listing of no kernel that is accepted.
    NoListing = 30,
    // The sent kernel is another program than the long one.
    Differs = 31,
    // The text is no beginning of a log.
    NoLog = 32,
}

impl Refusal {
    // The number by which callers are told it.
    pub fn number(self) -> u8
        ensures { (result ≡ number self) × (result < 33) }
    {
        self as u8
    }
}
