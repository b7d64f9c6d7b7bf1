// Reading a text, for all inputs. A refusal leaves the output as it was.
ghost use Rattle.std.specs.Prelude.{◌≡◌, ◌*◌, ◌≤◌, length};
ghost use Rattle.paper.specs.Limits.{instruction_limit};
ghost use Rattle.paper.specs.Dictionary.{dictionary_of};
ghost use Rattle.paper.specs.Listing.{kernel_of, read_listing, read_as, read_call};
ghost use Rattle.paper.specs.Calls.{deliver};
ghost use Rattle.words.specs.Answer.{Wrote};
ghost use Rattle.listing.specs.Again.{lines_in, CanRead};
ghost use Rattle.listing.specs.Joining.{Passed};

use crate::jumps::first_astray;
use crate::lay::write_kernel;
use crate::scan::scan;
use short::dictionary::in_range;
use table::regions::Regions;
use words::answer::{Answer, accepted};
use words::limits::{DICTIONARY_BYTES, PLACES};
use words::refusal::Refusal;

// The kernel of so many places that a text was read as, or 14 where the output is shorter.
// (As `list::list_accepted` and `packer::pack::lay_out`: the length is known before anything is written, so each writes into the output itself. `short::calls::deliver` has bytes that are made already;
// one function for all would take a closure that writes, with clauses of what it leaves.)
fn write_read(
    dictionary: &[u8; DICTIONARY_BYTES],
    text: &[u8],
    places: u64,
    out: &mut [u8],
) -> Answer
    requires can_read { CanRead dictionary.now text.now }
    requires places_value { (8 * places ≡ length (kernel_of (dictionary_of dictionary.now) (lines_in dictionary.now text.now))) × (places ≤ 2 * instruction_limit) }
    ensures { Wrote (deliver (kernel_of (dictionary_of dictionary.now) (lines_in dictionary.now text.now)) out.old) result out.new }
{
    let n = 8 * (places as usize);
    if out.len() < n {
        return Err(Refusal::OutputTooShort.into());
    }
    write_kernel(dictionary, text, out);
    accepted(n as u64)
}

// A text whose lines can be read, with those marks and so many places: 30 if a jump goes astray, else its kernel.
fn read_lines(
    dictionary: &[u8; DICTIONARY_BYTES],
    text: &[u8],
    marks: &[u8; PLACES],
    places: u64,
    out: &mut [u8],
) -> Answer
    requires { Passed dictionary.now text.now marks.now places }
    ensures { Wrote (read_as (dictionary_of dictionary.now) out.old (read_listing (dictionary_of dictionary.now) text.now)) result out.new }
{
    match first_astray(dictionary, text, marks) {
        None => write_read(dictionary, text, places, out),
        Some(from) => Err(Refusal::NoListing.at(from)),
    }
}

// 1 of the dictionary, 2, 30, then 14; the count is the kernel's bytes.
pub fn read(dictionary: &[u8], text: &[u8], out: &mut [u8]) -> Answer
    ensures { Wrote (read_call dictionary.now text.now out.old) result out.new }
{
    let Some(dictionary) = dictionary.as_array() else {
        return Err(Refusal::WrongSize.into());
    };
    if !in_range(dictionary) {
        return Err(Refusal::WideDictionary.into());
    }
    let regions = Regions::new();
    let mut marks = [0u8; PLACES];
    let places = scan(&regions, dictionary, text, &mut marks)?;
    read_lines(dictionary, text, &marks, places, out)
}
