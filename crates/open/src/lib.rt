// The open list: an array of 64 entries and a count, a value between its reading from and its writing to a record.
#![tactic(auto)]

pub mod entries;

ghost use Rattle.std.specs.Prelude.{◌≡◌, ◌++◌, ◌∷◌, [], map, ◌+◌, ◌*◌, ◌≤◌, ◌<◌, length, take, drop, IfSome, IfNone};
ghost use Rattle.std.proofs.lemmas.List.Edits.{sets};
ghost use Rattle.meaning.specs.Bytes.{reads, write, writes, padded, entry_row};
ghost use Rattle.meaning.specs.Records.{entry_of, raw_entry, listed};
ghost use Rattle.meaning.specs.Entries.{without};
ghost use Rattle.open.specs.Open.{call, Lists, opened};

pub use entries::{Entry, OpenList};
use layout::{ENTRY_ROW, ENTRY_TYPE_AT, ENTRY_ZEROS_AT};

impl OpenList {
    // One entry more, behind the others.
    pub fn with(self, number: u32, ty: u16) -> Self
        requires { self.count < 64 }
        ensures { Lists result (opened self ++ (record { number = number; type = ty } ∷ [])) }
    {
        let mut next = self;
        next.entries[self.count] = Entry { number, ty };
        next.count += 1;
        next
    }

    // The type under which a number is open.
    #[tactic(auto, using(crate::proofs::Rules::OpenList_find_laws))]
    pub fn find(self, number: u32) -> Option<u16>
        ensures { result ≡ listed (opened self) number }
    {
        for i in 0..self.count {
            let e = self.entries[i];
            if e.number == number {
                return Some(e.ty);
            }
        }
        None
    }

    // Where the number first stands.
    #[tactic(auto, using(crate::proofs::Rules::OpenList_place_laws))]
    fn place(self, number: u32) -> Option<usize>
        ensures there { IfSome result (λ k. k < self.count) }
        ensures taken { IfSome result (λ k. without number (opened self) ≡ take k (opened self) ++ drop (k + 1) (opened self)) }
        ensures unlisted { IfNone result (without number (opened self) ≡ opened self) }
    {
        for i in 0..self.count {
            if self.entries[i].number == number {
                return Some(i);
            }
        }
        None
    }

    // The entries behind place k moved down by one.
    #[tactic(auto, using(crate::proofs::Rules::OpenList_closed_laws))]
    fn closed(self, k: usize) -> Self
        requires { k < self.count }
        ensures { Lists result (take k (opened self) ++ drop (k + 1) (opened self)) }
    {
        let mut next = self;
        next.entries.copy_within(k + 1..self.count, k);
        next.count -= 1;
        next
    }

    // One entry fewer, where the number is listed.
    pub fn without(self, number: u32) -> Self
        ensures { Lists result (without number (opened self)) }
    {
        match self.place(number) {
            Some(k) => self.closed(k),
            None => self,
        }
    }

    // The list part of a record: the entries, then zeros.
    #[tactic(auto, using(crate::proofs::Rules::OpenList_store_laws))]
    pub fn store(self, calls: &mut [u8])
        requires { 8 * self.count ≤ length calls.old }
        ensures { calls.new ≡ padded (length calls.old) (writes entry_row (map raw_entry (opened self))) }
    {
        for i in 0..self.count {
            put_entry(calls, ENTRY_ROW * i, self.entries[i]);
        }
        let end = calls.len();
        layout::clear(calls, ENTRY_ROW * self.count, end);
    }
}

#[tactic(auto, using(crate::proofs::Rules::put_entry_laws))]
fn put_entry(calls: &mut [u8], at: usize, e: Entry)
    requires { at + 8 ≤ length calls.old }
    ensures { calls.new ≡ sets calls.old at (write entry_row (raw_entry (call e))) }
{
    layout::put32_at(calls, at, e.number);
    layout::put16_at(calls, at + ENTRY_TYPE_AT, e.ty);
    layout::put16_at(calls, at + ENTRY_ZEROS_AT, 0);
}

// The entries in the list part of a record, as many as it counts.
#[tactic(auto, using(crate::proofs::Rules::load_laws), unfolding(meaning::specs::Bytes::reads))]
pub fn load(calls: &[u8], count: usize) -> OpenList
    requires { (count ≤ 64) × (8 * count ≤ length calls.now) }
    ensures { Lists result (map entry_of (reads entry_row count calls.now)) }
{
    let mut entries = [Entry { number: 0, ty: 0 }; 64];
    for i in 0..count {
        entries[i] = Entry {
            number: layout::u32_at(calls, ENTRY_ROW * i),
            ty: layout::u16_at(calls, ENTRY_ROW * i + ENTRY_TYPE_AT),
        };
    }
    OpenList { entries, count }
}
