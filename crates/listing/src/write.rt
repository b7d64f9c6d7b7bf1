// Writing an instruction's six lines.
ghost use Rattle.std.specs.Prelude.{◌≡◌, ◌+◌, ◌≤◌, length};
ghost use Rattle.std.proofs.lemmas.List.Edits.{sets};
ghost use Rattle.paper.specs.Text.{decimal, hexes, line};
ghost use Rattle.paper.specs.Listing.{form_name, form_of, instr_text};
ghost use Rattle.kernel.specs.Instructions.{instr_is};

use kernel::instructions::Instruction;
use text::write::{put_hex8, put_line, put_text, width};
use words::bytes::Word;

// The dwords of 64 bits.
const DWORD: u64 = 4294967296;

// The line of a name, given with its `=`, and eight hex digits.
fn put_hex_line(out: &mut [u8], at: usize, name: &[u8], v: u64) -> usize
    requires { at + length (line name.now (hexes 8 v)) ≤ length out.old }
    ensures { (result ≡ at + length (line name.now (hexes 8 v))) × (out.new ≡ sets out.old at (line name.now (hexes 8 v))) }
{
    let digits = put_text(out, at, name);
    let end = put_hex8(out, digits, v);
    out[end] = 10;
    end + 1
}

// The line of the form of an instruction of so many places.
fn put_form(out: &mut [u8], at: usize, size: u64) -> usize
    requires { at + length (line form_name (form_of size)) ≤ length out.old }
    ensures { (result ≡ at + length (line form_name (form_of size))) × (out.new ≡ sets out.old at (line form_name (form_of size))) }
{
    if size == 1 {
        return put_text(out, at, b"form=short\n");
    }
    put_text(out, at, b"form=long\n")
}

// An instruction's lines.
pub(crate) fn put_lines(out: &mut [u8], at: usize, i: Instruction) -> usize
    requires { at + length (instr_text (instr_is i)) ≤ length out.old }
    ensures { (result ≡ at + length (instr_text (instr_is i))) × (out.new ≡ sets out.old at (instr_text (instr_is i))) }
{
    let Word { lo, hi } = i.word;
    let a = put_line(out, at, b"place=", i.place);
    let b = put_form(out, a, i.size);
    let c = put_hex_line(out, b, b"w0=", lo % DWORD);
    let d = put_hex_line(out, c, b"w1=", lo / DWORD);
    let e = put_hex_line(out, d, b"w2=", hi % DWORD);
    put_hex_line(out, e, b"w3=", hi / DWORD)
}

// How many bytes they have.
pub(crate) fn lines_length(i: Instruction) -> usize
    ensures { (result ≡ 61 + length (decimal i.place) + length (form_of i.size)) × (result ≤ 86) }
{
    let digits = width(i.place);
    if i.size == 1 {
        return 66 + digits;
    }
    65 + digits
}
