// The table, and a look in it.
ghost use Rattle.std.specs.Prelude.{◌≡◌, ◌<◌};
ghost use Rattle.paper.specs.Bits.{bit};
ghost use Rattle.table.specs.Entries.{entry_of, region_table};

use crate::entries::ENTRIES;

// How many values the twelve bits of a source field have.
const FIELDS: usize = 4096;

// The table, made once for all the looks of a call and lent to them: each function that names the constant has a copy of its own.
#[derive(Drop)]
pub struct Regions {
    entries: [u8; FIELDS],
    ghost is_table: { entries ≡ region_table },
}

impl Regions {
    // The one table that there is.
    pub fn new() -> Regions {
        Regions { entries: ENTRIES }
    }

    // The entry of a field.
    #[tactic(auto, using(crate::specs::Entries::table_entry))]
    fn entry(&self, field: usize) -> u8
        requires { field < 4096 }
        ensures { result ≡ entry_of field }
    {
        self.entries[field]
    }

    // Bit `size` of a field's entry: the field passes at that code of ExecSize.
    pub fn passes(&self, field: u64, size: u64) -> bool
        requires { (field < 4096) × (size < 8) }
        ensures { result ≡ bit (entry_of field) size }
    {
        let byte = u64::from(self.entry(field as usize));
        (byte >> size) % 2 == 1
    }
}
