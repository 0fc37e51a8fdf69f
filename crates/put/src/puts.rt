// What is put: many names, each with its rows, or one.
ghost use Rattle.std.specs.Prelude.{◌≡◌, ℕ, ◌≤◌, ◌<◌, List, [], ◌∷◌, length};
ghost use Rattle.layout.specs.Rows.{numbers, row_table, type_table};
ghost use Rattle.meaning.specs.Types.{form_of};
ghost use Rattle.meaning.specs.Terms.{row_of};
ghost use Rattle.put.specs.declared.Turn.TheVariants.{Whole};
ghost use Rattle.put.specs.Put.{Owing, Skips, StandsAlways, Turns, Within};

use crate::{Range, Scan, Span, Turn};
use layout::Row;
use layout::views::Types;

pub trait Puts {
    // The names, and where the rows for each begin, with the row behind the last.
    ghost names: { Self → List ℕ };

    ghost bounds: { Self → List ℕ };

    // What is known of them.
    ghost ready: { Self → Type 0 };

    // Whether a turn may pass a whole tree.
    ghost jumps: { Self → Type 0 };

    // The next row that may be one of the names or hide one, or the end. The rows before it stand, whatever the types; it passes as many as it likes.
    fn skip(&self, rows: &[u8], at: Scan) -> Scan
        requires ready { ready self.now }
        requires owing { Owing (row_table rows.now) at }
        ensures { Skips (StandsAlways (names self.now) (bounds self.now)) (row_table rows.now) at.i at.owed result.i result.owed };

    // What a pass does at a row.
    fn turn(&self, types: &Types, r: Row) -> Turn
        requires { ready self.now }
        ensures turn { Turns (form_of types.now) (names self.now) (bounds self.now) (row_of (numbers r)) result }
        ensures whole { result ≡ Whole → jumps self.now };
}

// Many names, and the range that they are in.
#[derive(Drop)]
pub struct Many<'a> {
    pub names: &'a [u16],
    pub bounds: &'a [u16],
    pub range: Range,
}

impl Puts for Many<'_> {
    ghost names = { λ s. s.names.now };

    ghost bounds = { λ s. s.bounds.now };

    ghost ready = { λ s. (length s.names.now ≤ 8) × (length s.names.now < length s.bounds.now) × Within s.names.now s.range };

    ghost jumps = { λ s. Unit {0} };

    fn skip(&self, rows: &[u8], at: Scan) -> Scan {
        crate::skip(rows, at, self.range)
    }

    fn turn(&self, types: &Types, r: Row) -> Turn {
        crate::turn_at(types, self.names, self.bounds, r)
    }
}

// One name, and the rows for it.
#[derive(Drop)]
pub struct One {
    pub name: u16,
    pub arg: Span,
}

impl Puts for One {
    ghost names = { λ s. s.name ∷ [] };

    ghost bounds = { λ s. s.arg.from ∷ s.arg.to ∷ [] };

    ghost ready = { λ s. Unit {0} };

    ghost jumps = { λ s. Unit {0} };

    fn skip(&self, _rows: &[u8], at: Scan) -> Scan {
        at
    }

    fn turn(&self, types: &Types, r: Row) -> Turn {
        crate::turn_one(types, self.name, self.arg, r)
    }
}

// Many names in rows of which it is not known that each is as its head is written: no tree is passed whole.
#[derive(Drop)]
pub struct Rowwise<'a> {
    pub names: &'a [u16],
    pub bounds: &'a [u16],
}

impl Puts for Rowwise<'_> {
    ghost names = { λ s. s.names.now };

    ghost bounds = { λ s. s.bounds.now };

    ghost ready = { λ s. (length s.names.now ≤ 8) × (length s.names.now < length s.bounds.now) };

    ghost jumps = { λ s. ⊥ };

    fn skip(&self, _rows: &[u8], at: Scan) -> Scan {
        at
    }

    fn turn(&self, types: &Types, r: Row) -> Turn {
        crate::turn_in(types, self.names, self.bounds, r)
    }
}
