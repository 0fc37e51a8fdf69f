// Tables of term rows as trees: how many children a row has, whether a table is one whole tree (refusals 7 and 13), and where each
// tree ends.
#![tactic(auto)]

pub mod fields;
pub mod masks;
pub mod trees;

ghost use Rattle.std.specs.Prelude.{◌≡◌, true, ◌+◌, ◌*◌, ◌/◌, ◌≤◌, ◌<◌, length, get_or, Ok, None};
ghost use Rattle.std.specs.Bool.{OnTrue};
ghost use Rattle.layout.specs.Rows.{numbers, row_table, term_rows};
ghost use Rattle.meaning.specs.Terms.{arity, row_of, size, tree_at, row_fault, shape};
ghost use Rattle.terms.specs.Tables.{range_table, child_table, hop, HopsIn, Closed, Ends};

use layout::Row;
use layout::kinds::Kind;
use layout::views::Rows;
use meaning::Fault;

// Two bits a kind, kind 0 the lowest: how many children a row of the kind has, those that n counts not among them.
const COUNTS: u64 = 0b10_01_01_00_01_01_10_00_01_11_00_01_00_01_00_00_00_00_00_00;

// One bit a kind: whether n counts children.
const BY_N: u32 = 0b0001_0000_0001_0000_0000;

// How many children a row has. By bits: a match on the kind was tried, and walks over many rows took up to four times as long.
pub fn children(r: Row) -> usize
    ensures { (result ≡ arity (row_of (numbers r)).head) × (result ≤ 256) }
{
    let k = r.kind;
    if 19 < k {
        return 0;
    }
    let c = ((COUNTS >> (2 * k)) % 4) as usize;
    if (BY_N >> k) % 2 == 1 {
        return c + r.n as usize;
    }
    c
}

// What the table of children adds where n counts some.
const BY_N_MARK: u8 = 64;

// By kind: how many children a row has, those that n counts not among them; BY_N_MARK is added where n counts children.
// A byte with a mark, not an Option<u8>: the table is read for each row, and a byte is half as long.
pub static CHILDREN: [u8; 20] = [0, 0, 0, 0, 0, 0, 1, 0, 65, 0, 3, 1, 0, 2, 1, 1, 64, 1, 1, 2];

// How many children a row has, by the table of them.
#[tactic(auto, using(crate::proofs::Rules::listed_laws), unfolding(meaning::specs::Terms::row_of))]
pub fn listed(table: &[u8], r: Row) -> usize
    requires { table.now ≡ child_table }
    ensures { (result ≡ arity (row_of (numbers r)).head) × (result ≤ 256) }
{
    let k = r.kind as usize;
    if 19 < k {
        return 0;
    }
    let c = table[k];
    if c < BY_N_MARK {
        return c as usize;
    }
    children(r)
}

// What is wrong with a row alone: its kind, its fields, its type number, in this order.
#[tactic(auto, using(crate::proofs::Faults::faults))]
pub fn row_fault(r: Row, count: u16, edition: u16) -> Option<Fault>
    ensures { result ≡ row_fault edition count (numbers r) }
{
    if edition != layout::EDITION {
        return Some(Fault::Kind);
    }
    let Some(_) = r.kind() else {
        return Some(Fault::Kind);
    };
    if !fields::fit(r) {
        return Some(Fault::Field);
    }
    if count <= r.ty {
        return Some(Fault::Number);
    }
    None
}

// What a kind asks of n and word: the least and the greatest of each.
#[derive(Clone, Copy)]
struct Ranges {
    n_least: u8,
    n_most: u8,
    word_least: u32,
    word_most: u32,
}

// What a kind asks that uses neither, any word, a name or a number; n as a count, as a mask, as a place.
const UNUSED: Ranges = Ranges {
    n_least: 0,
    n_most: 0,
    word_least: 0,
    word_most: 0,
};

const WORDED: Ranges = Ranges {
    word_most: fields::LAST_WORD,
    ..UNUSED
};

const NUMBERED: Ranges = Ranges {
    word_least: 1,
    word_most: fields::LAST_NUMBER,
    ..UNUSED
};

const COUNTED: Ranges = Ranges {
    n_most: 8,
    ..UNUSED
};

const MASKED: Ranges = Ranges {
    n_least: 1,
    n_most: 255,
    ..UNUSED
};

const PLACED: Ranges = Ranges {
    n_least: 1,
    n_most: 8,
    ..UNUSED
};

// By kind, its ranges; byte 0 is no kind.
static RANGES: [Ranges; 20] = [
    UNUSED, WORDED, WORDED, UNUSED, UNUSED, NUMBERED, UNUSED, NUMBERED, COUNTED, NUMBERED, UNUSED,
    UNUSED, UNUSED, UNUSED, UNUSED, MASKED, PLACED, PLACED, PLACED, NUMBERED,
];

// Whether a row of edition 1 is seen at once to have no fault, by the table of ranges.
fn faultless(ranges: &[Ranges], r: Row, count: u16) -> bool
    requires { ranges.now ≡ range_table }
    ensures { OnTrue result (row_fault 1 count (numbers r) ≡ None) }
{
    if r.kind == 0 || 19 < r.kind || count <= r.ty {
        return false;
    }
    let asked = ranges[r.kind as usize];
    fields::within(
        r,
        asked.n_least,
        asked.n_most,
        asked.word_least,
        asked.word_most,
    )
}

// Whether the rows are one whole tree, each row in range; else the first fault.
#[tactic(auto, using(layout::proofs::Seen::tables))]
pub fn check_shape(rows: &[u8], count: u16, edition: u16) -> Result<(), (Fault, u32)>
    requires { length rows.now ≤ 32768 }
    ensures { result ≡ shape edition count (row_table rows.now) }
{
    trees::check_shape(&Rows::new(rows), count, edition)
}

// The row behind the tree at row `at`, by a running count of the trees still owed.
#[tactic(auto, using(layout::proofs::Seen::tables))]
pub fn end_of(rows: &[u8], at: usize) -> usize
    requires { (length rows.now ≤ 32768) × (at + size (tree_at (term_rows rows.now) at) ≤ length rows.now / 8) }
    ensures { result ≡ at + size (tree_at (term_rows rows.now) at) }
{
    trees::end_of(&Rows::new(rows), at)
}

// The same of a tree that may have many rows: children are counted by the table, and a list's elements of one row are passed two rows at a time.
#[tactic(auto, using(layout::proofs::Seen::tables))]
pub fn far_end(rows: &[u8], at: usize) -> usize
    requires { (length rows.now ≤ 32768) × (at + size (tree_at (term_rows rows.now) at) ≤ length rows.now / 8) }
    ensures { result ≡ at + size (tree_at (term_rows rows.now) at) }
{
    trees::far_end(&Rows::new(rows), at)
}

// The row behind n trees from row `at` on, where the array has the row behind each of them.
#[tactic(auto, using(crate::proofs::Rules::past_laws))]
pub fn past(ends: &[u16], at: usize, n: usize) -> usize
    requires { HopsIn ends.now at n }
    ensures { result ≡ hop ends.now at n }
{
    let mut e = at;
    for k in 0..n {
        e = ends[e] as usize;
    }
    e
}

// For each row, from the last one back, the row behind its tree.
#[tactic(auto, using(layout::proofs::Seen::tables))]
pub fn ends(rows: &[u8], ends: &mut [u16])
    requires { (length rows.now ≤ 32768) × (length rows.now / 8 ≤ length ends.old) × Closed (term_rows rows.now) (length rows.now / 8) }
    ensures { Ends (term_rows rows.now) (length rows.now / 8) ends.new }
{
    trees::ends(&Rows::new(rows), ends)
}
