// What becomes of the rows that a pass makes, one span of standing rows after another: they are counted, or go to a table.
ghost use Rattle.std.specs.Prelude.{◌≡◌, true, ℕ, ◌+◌, ◌-◌, ◌≤◌, List, ◌++◌, length, take};
ghost use Rattle.layout.specs.Rows.{row_table};
ghost use Rattle.put.specs.Put.{standing};

use crate::Span;

pub trait Sink {
    // The rows taken so far.
    ghost holds: { Self → List (List ℕ) → Type 0 };

    // How many more it takes.
    ghost room: { Self → ℕ };

    // The name of the loan that it writes to, or 0 where it writes to none.
    ghost loan: { Self → ℕ };

    // Whether there was room for the rows of a span; then they are taken.
    fn take(&mut self, rows: &[u8], s: Span) -> bool
        requires open { (l : List (List ℕ)) × holds self.old l }
        requires span { (s.from ≤ s.to) × (s.to ≤ length (row_table rows.now)) }
        ensures taken { result ≡ true → (l : List (List ℕ)) → holds self.old l → holds self.new (l ++ standing (row_table rows.now) s.from s.to) × (room self.new + (s.to - s.from) ≡ room self.old) }
        ensures room { s.to - s.from ≤ room self.old → result ≡ true }
        ensures same_loan { loan self.new ≡ loan self.old };
}

// Counts them.
#[derive(Drop)]
pub struct Count {
    pub rows: usize,
}

impl Sink for Count {
    ghost holds = { λ s l. s.rows ≡ length l };

    ghost room = { λ s. 18446744073709551615 - s.rows };

    ghost loan = { λ s. 0 };

    fn take(&mut self, rows: &[u8], s: Span) -> bool {
        let Some(n) = self.rows.checked_add(s.to - s.from) else {
            return false;
        };
        self.rows = n;
        true
    }
}

// Writes them to the front of a table, which may have more room.
#[derive(Drop)]
pub struct Table<'a> {
    pub to: &'a mut [u8],
    pub rows: usize,
}

impl Sink for Table<'_> {
    ghost holds = { λ s l. (s.rows ≡ length l) × (s.rows ≤ length (row_table s.to.now)) × (take s.rows (row_table s.to.now) ≡ l) };

    ghost room = { λ s. length (row_table s.to.now) - s.rows };

    ghost loan = { λ s. s.to.ghost_name };

    fn take(&mut self, rows: &[u8], s: Span) -> bool {
        let had = self.rows;
        let n = s.to - s.from;
        let to = &mut *self.to;
        if layout::term_rows(to) - had < n {
            return false;
        }
        crate::copy_rows(to, had, rows, s.from, n);
        self.rows = had + n;
        true
    }
}
