// What is written: texts, decimals, lines and hex digits, from a place of a lent buffer on, where there is room. Each function answers the place after it.
// Buffer and place are two: what is said of a text is where in the whole buffer it stands (`sets out.old at ..`), and of a struct of both each function would take its buffer out to write there.
ghost use Rattle.std.specs.Prelude.{◌≡◌, ◌+◌, ◌≤◌, ◌<◌, length};
ghost use Rattle.std.proofs.lemmas.List.Edits.{sets};
ghost use Rattle.paper.specs.Text.{decimal, line, hex_digit, hexes};

// A text.
pub fn put_text(out: &mut [u8], at: usize, text: &[u8]) -> usize
    requires { at + length text.now ≤ length out.old }
    ensures { (result ≡ at + length text.now) × (out.new ≡ sets out.old at text.now) }
{
    let end = at + text.len();
    out[at..end].copy_from_slice(text);
    end
}

// How many decimal digits a number has. The loop goes by the number, which falls by a digit a turn: how many turns it takes is the answer.
pub fn width(n: u64) -> usize
    ensures { (result ≡ length (decimal n)) × (result ≤ 20) }
{
    let mut w: usize = 1;
    let mut rest = n;
    while 10 <= rest {
        rest /= 10;
        w += 1;
    }
    w
}

// A number's decimal digits, the last one first. The loop goes by the number, which falls by a digit a turn.
pub fn put_decimal(out: &mut [u8], at: usize, n: u64) -> usize
    requires { at + length (decimal n) ≤ length out.old }
    ensures { (result ≡ at + length (decimal n)) × (out.new ≡ sets out.old at (decimal n)) }
{
    let end = at + width(n);
    let mut i = end - 1;
    let mut rest = n;
    while 10 <= rest {
        out[i] = b'0' + (rest % 10) as u8;
        i -= 1;
        rest /= 10;
    }
    out[i] = b'0' + rest as u8;
    end
}

// The line of a name, given with its `=`, and a decimal.
pub fn put_line(out: &mut [u8], at: usize, name: &[u8], n: u64) -> usize
    requires { at + length (line name.now (decimal n)) ≤ length out.old }
    ensures { (result ≡ at + length (line name.now (decimal n))) × (out.new ≡ sets out.old at (line name.now (decimal n))) }
{
    let digits = put_text(out, at, name);
    let end = put_decimal(out, digits, n);
    out[end] = b'\n';
    end + 1
}

// The hex digit of a number below 16.
fn hex_digit(d: u64) -> u8
    requires { d < 16 }
    ensures { result ≡ hex_digit d }
{
    match d {
        0..=9 => b'0' + d as u8,
        _ => b'a' + (d - 10) as u8,
    }
}

// The eight lowest hex digits of a number.
pub fn put_hex8(out: &mut [u8], at: usize, n: u64) -> usize
    requires { at + 8 ≤ length out.old }
    ensures { (result ≡ at + 8) × (out.new ≡ sets out.old at (hexes 8 n)) }
{
    let mut rest = n;
    for k in 0..8 {
        out[at + (7 - k)] = hex_digit(rest % 16);
        rest /= 16;
    }
    at + 8
}
