// Text: a file's lines, a line's name, and its numbers in hexadecimal. Every function takes any bytes.
ghost use Rattle.std.specs.Prelude.{◌≡◌, ◌^◌, ◌<◌, ◌≤◌, IfSome, length};
ghost use Rattle.rows.specs.Text.{digit_of, number_of};

use arrayvec::ArrayVec;

// The greatest byte that ends a line, and the greatest that ends a field. An end belongs to what it ends.
pub const LINE: u8 = 10;

const FIELD: u8 = 32;

// The digit that a byte writes, 0 to 9 or a to f.
#[tactic(auto, unfolding(crate::specs::Text::digit_of))]
fn digit(b: u8) -> Option<u32>
    ensures { (result ≡ digit_of b) × IfSome result (λ d. d < 16) }
{
    match b {
        b'0'..=b'9' => Some(u32::from(b - b'0')),
        b'a'..=b'f' => Some(u32::from(b - b'a' + 10)),
        _ => None,
    }
}

// The number of 32 bits that the field at the text's start writes, the highest digit first.
fn number_in(text: &[u8]) -> Option<u32>
    ensures { result ≡ number_of text.now }
{
    let mut number = None;
    for b in text {
        if *b <= FIELD {
            return number;
        }
        let digit = digit(*b)?;
        let so_far = number.unwrap_or(0);
        if 0x1000_0000 <= so_far {
            return None;
        }
        number = Some(so_far * 16 + digit);
    }
    number
}

// The numbers that follow a line's name. None where a field is no number, or more than four follow.
pub fn numbers_in(line: &[u8]) -> Option<ArrayVec<u32, 4>>
    ensures { IfSome result (λ numbers. length numbers.items ≤ 4) }
{
    let mut numbers = ArrayVec::new();
    for field in line.split_inclusive(|b| *b <= FIELD).skip(1) {
        numbers.try_push(number_in(field)?).ok()?;
    }
    Some(numbers)
}

// A line's name.
pub(crate) fn name_of(line: &[u8]) -> &[u8] {
    line.split(|b| *b <= FIELD).next().unwrap_or(&[])
}

// What stands for a name of more than seven letters.
// A number of the key that is printed of such a line, and no Option: of any line that is not understood something is told.
const LONGER: u64 = 1;

// The letters of a line's name as one number, the first letter highest: what is told of a line that is not understood.
pub fn name_in(line: &[u8]) -> u64
    ensures { result < 2 ^ 56 }
{
    let mut v: u64 = 0;
    for b in line {
        if *b <= FIELD {
            return v;
        }
        if 0x1_0000_0000_0000 <= v {
            return LONGER;
        }
        v = v * 256 + u64::from(*b);
    }
    v
}
