// A line as a command and its numbers.
use crate::text::{name_in, name_of, numbers_in};

// What lays out the bytes that calls are lent.
#[derive(Clone, Copy, Debug, PartialEq, Eq)]
pub enum Layout {
    // A new case.
    Case,
    // A dictionary of zeros.
    Blank,
    // One of the dictionary's numbers.
    Number {
        index: u32,
        value: u32,
    },
    // A word more of the kernel.
    Long([u32; 4]),
    Short([u32; 2]),
    // What the last call wrote as the kernel.
    Load,
    // How many bytes of output, and of the others, are lent.
    Room(u32),
    Lend {
        dictionary: u32,
        registers: u32,
        state: u32,
    },
    // A dword of the registers, 16 bits of the state, a dword of the output.
    Set {
        at: u32,
        value: u32,
    },
    Put {
        at: u32,
        value: u16,
    },
    Mark {
        at: u32,
        value: u32,
    },
}

// A call. The kernel's bytes are also the word to shorten or to expand, the text to read, and the record to place and to load; the output's are the kernel that
// was sent for it, and the log.
#[derive(Clone, Copy, Debug, PartialEq, Eq)]
pub enum Call {
    Check,
    Forward,
    Decode(u32),
    Pack,
    Unpack,
    List,
    Read,
    Pair,
    Shorten,
    Expand,
    Place { order: u32, x: u32, y: u32 },
    Fixed,
    Record,
    Start { mask: u16, flag0: u16, flag1: u16 },
    Step,
    Run(u32),
    LogRead(u32),
    LogRuns(u32),
    LogRun(u32),
}

// What must have come of the last call.
#[derive(Clone, Copy, Debug, PartialEq, Eq)]
pub enum Expectation {
    // What it answered.
    Answer {
        number: u32,
        offset: u32,
        count: u32,
    },
    // A dword of the output, and of the registers; 16 bits of the state.
    Wrote {
        at: u32,
        value: u32,
    },
    Holds {
        at: u32,
        value: u32,
    },
    Stands {
        at: u32,
        value: u32,
    },
}

// What must stand in a part that is handed back: in the bytes of the instruction at a place, and in the kernel to load.
#[derive(Clone, Copy, Debug, PartialEq, Eq)]
pub enum Look {
    Part { place: u32, at: u32, value: u32 },
    Loads { at: u32, value: u32 },
}

// A line's command. Nothing is an empty line, or a comment.
#[derive(Clone, Copy, Debug, PartialEq, Eq)]
pub enum Command {
    Nothing,
    Lay(Layout),
    Make(Call),
    Expect(Expectation),
    See(Look),
    Unknown,
}

// A line's command, and its key, by which a line is told that is not understood: the letters of its name, and behind them how many numbers follow it.
#[derive(Clone, Copy, Debug, PartialEq, Eq)]
pub struct Row {
    pub key: u64,
    pub command: Command,
}

// The layout of that name and these numbers.
fn layout_of(name: &[u8], numbers: &[u32]) -> Option<Layout> {
    match (name, numbers) {
        (b"blank", []) => Some(Layout::Blank),
        (b"number", &[index, value]) => Some(Layout::Number { index, value }),
        (b"long", &[a, b, c, d]) => Some(Layout::Long([a, b, c, d])),
        (b"short", &[a, b]) => Some(Layout::Short([a, b])),
        (b"load", []) => Some(Layout::Load),
        (b"room", &[size]) => Some(Layout::Room(size)),
        (b"lend", &[dictionary, registers, state]) => Some(Layout::Lend {
            dictionary,
            registers,
            state,
        }),
        (b"set", &[at, value]) => Some(Layout::Set { at, value }),
        (b"put", &[at, value]) => Some(Layout::Put {
            at,
            value: u16::try_from(value).ok()?,
        }),
        (b"mark", &[at, value]) => Some(Layout::Mark { at, value }),
        _ => None,
    }
}

// A start with that mask and these flags, of 16 bits each.
fn start_with(mask: u32, flag0: u32, flag1: u32) -> Option<Call> {
    let mask = u16::try_from(mask).ok()?;
    let flag0 = u16::try_from(flag0).ok()?;
    let flag1 = u16::try_from(flag1).ok()?;
    Some(Call::Start { mask, flag0, flag1 })
}

// The call of that name and these numbers.
fn call_of(name: &[u8], numbers: &[u32]) -> Option<Call> {
    match (name, numbers) {
        (b"check", []) => Some(Call::Check),
        (b"forward", []) => Some(Call::Forward),
        (b"decode", &[place]) => Some(Call::Decode(place)),
        (b"pack", []) => Some(Call::Pack),
        (b"unpack", []) => Some(Call::Unpack),
        (b"list", []) => Some(Call::List),
        (b"read", []) => Some(Call::Read),
        (b"pair", []) => Some(Call::Pair),
        (b"shorten", []) => Some(Call::Shorten),
        (b"expand", []) => Some(Call::Expand),
        (b"place", &[order, x, y]) => Some(Call::Place { order, x, y }),
        (b"fixed", []) => Some(Call::Fixed),
        (b"record", []) => Some(Call::Record),
        (b"start", &[mask, flag0, flag1]) => start_with(mask, flag0, flag1),
        (b"step", []) => Some(Call::Step),
        (b"run", &[budget]) => Some(Call::Run(budget)),
        (b"logread", &[count]) => Some(Call::LogRead(count)),
        (b"logruns", &[count]) => Some(Call::LogRuns(count)),
        (b"logrun", &[count]) => Some(Call::LogRun(count)),
        _ => None,
    }
}

// The expectation of that name and these numbers.
fn expectation_of(name: &[u8], numbers: &[u32]) -> Option<Expectation> {
    match (name, numbers) {
        (b"answer", &[number, offset, count]) => Some(Expectation::Answer {
            number,
            offset,
            count,
        }),
        (b"wrote", &[at, value]) => Some(Expectation::Wrote { at, value }),
        (b"holds", &[at, value]) => Some(Expectation::Holds { at, value }),
        (b"stands", &[at, value]) => Some(Expectation::Stands { at, value }),
        _ => None,
    }
}

// The look of that name and these numbers.
fn look_of(name: &[u8], numbers: &[u32]) -> Option<Look> {
    match (name, numbers) {
        (b"part", &[place, at, value]) => Some(Look::Part { place, at, value }),
        (b"loads", &[at, value]) => Some(Look::Loads { at, value }),
        _ => None,
    }
}

// The command of that name and these numbers.
fn command_of(name: &[u8], numbers: &[u32]) -> Command {
    if name.is_empty() && numbers.is_empty() {
        Command::Nothing
    } else if let Some(layout) = layout_of(name, numbers) {
        Command::Lay(layout)
    } else if let Some(call) = call_of(name, numbers) {
        Command::Make(call)
    } else if let Some(expectation) = expectation_of(name, numbers) {
        Command::Expect(expectation)
    } else if let Some(look) = look_of(name, numbers) {
        Command::See(look)
    } else {
        Command::Unknown
    }
}

// The count in the key of a line with a field that is no number, or with too many.
// It is printed with the key, of which it is the last digit, so it is a digit that no count is.
const UNCOUNTED: u64 = 9;

// The line's command, known or not. Any fields follow `case`.
pub fn row_of(line: &[u8]) -> Row {
    if line.first() == Some(&b'#') {
        return Row {
            key: 0,
            command: Command::Nothing,
        };
    }
    let name = name_of(line);
    let (count, command) = match (name, numbers_in(line)) {
        (b"case", _) => (0, Command::Lay(Layout::Case)),
        (_, Some(numbers)) => (numbers.len() as u64, command_of(name, numbers.as_slice())),
        (_, None) => (UNCOUNTED, Command::Unknown),
    };
    Row {
        key: name_in(line) * 16 + count,
        command,
    }
}
