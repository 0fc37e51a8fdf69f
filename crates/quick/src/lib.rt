// A quick check of a table of rows: if it says yes, the rows are one whole tree and no row fails typing. Where it says no, nothing is known.
#![tactic(auto)]

mod dues;
mod names;
mod rows;
mod scopes;

ghost use Rattle.std.specs.Prelude.{◌≡◌, true, false, List, ℕ, ◌+◌, ◌≤◌, ◌<◌, length, get_or};
ghost use Rattle.meaning.specs.Types.{Form};
ghost use Rattle.layout.specs.Rows.{row_table};
ghost use Rattle.quick.specs.Names.{NamesChained};
ghost use Rattle.quick.specs.Dues.{Arrays, Rises, Shows};

use layout::views::Types;
use typing::stated;

// Where a check stands: the row that is next, the top of what is due, the innermost name; whether all was well so far, whether the next row is due
// whatever type it states, and whether a future was seen. A flag: with an Option<Place> for each row a load took a tenth to a third longer.
#[derive(Clone, Copy)]
pub struct Place {
    pub i: usize,
    pub s: usize,
    pub b: usize,
    pub ok: bool,
    pub down: bool,
    pub future: bool,
}

// What a check tells: of rows that are good, whether there is a future among them; of rows that are not seen to be good, the row that it ended at.
pub type Seen = Result<bool, usize>;

// Rows that are few.
const FEW: usize = 256;

// Room that a row is sure to find among what is due.
const SPARE: usize = 16;

// A scope ends or begins, as the number in front says.
fn scope(rows: &[u8], bound: &mut [u64], heads: &mut [u16], p: Place, e: u32) -> Place
    requires { NamesChained bound.old heads.old p.b × (length rows.now ≤ 16384) × (p.s ≤ 4096) × (65536 ≤ e) }
    ensures { result.ok ≡ true → (result.s ≡ p.s + 1) × (result.down ≡ false) × ((form : ℕ → Form) (es : List ℕ) → p.s < length es → get_or es p.s 0 ≡ e → Rises form (row_table rows.now) es bound.old bound.new heads.new p result) }
{
    let behind = Place {
        i: p.i,
        s: p.s + 1,
        b: p.b,
        ok: true,
        down: false,
        future: p.future,
    };
    if e < dues::BEGINS {
        return scopes::leave(bound, heads, behind, (e - dues::ENDS) as usize);
    }
    scopes::enter(rows, bound, heads, behind, (e - dues::BEGINS) as usize)
}

// Scopes end and begin until a tree is due, whose first row states the type that is wanted, or nothing is due.
fn rise(rows: &[u8], stack: &[u32], bound: &mut [u64], heads: &mut [u16], start: Place) -> Place
    requires { Arrays stack.now bound.old heads.old start × (length rows.now ≤ 16384) × (length stack.now ≤ 4096) × (start.down ≡ false) }
    ensures { result.ok ≡ true → (result.down ≡ false → length stack.now ≤ result.s) × ((form : ℕ → Form) → Rises form (row_table rows.now) stack.now bound.old bound.new heads.new start result) }
{
    let end = stack.len();
    let mut p = start;
    // A while: the place itself counts what is due.
    while p.s < end {
        let s = p.s;
        let e = stack[s];
        if e < dues::ENDS {
            if layout::term_rows(rows) <= p.i {
                return rows::refused();
            }
            if layout::word_of(stated::type_at(rows, p.i)) == e {
                return Place {
                    i: p.i,
                    s: s + 1,
                    b: p.b,
                    ok: true,
                    down: true,
                    future: p.future,
                };
            }
            return rows::refused();
        }
        p = scope(rows, bound, heads, p, e);
        if !p.ok {
            return p;
        }
    }
    p
}

// All rows are seen, from the first tree on, with arrays that hold nothing yet.
fn walk(types: &Types, rows: &[u8], stack: &mut [u32], bound: &mut [u64], heads: &mut [u16]) -> Seen
    requires { (length stack.old ≤ 4096) × NamesChained bound.old heads.old (length bound.old) × (length types.now ≤ 256) × (length rows.now ≤ 16384) }
    ensures { Shows 1 types.now rows.now result }
{
    let all = layout::term_rows(rows);
    let mut p = Place {
        i: 0,
        s: stack.len(),
        b: bound.len(),
        ok: true,
        down: true,
        future: false,
    };
    loop {
        let i = p.i;
        if p.s < SPARE {
            return Err(i);
        }
        if all <= i {
            return Err(i);
        }
        p = rows::see(types, rows, stack, bound, heads, p);
        if !p.ok {
            return Err(i);
        }
        if !p.down {
            p = rise(rows, stack, bound, heads, p);
            if !p.ok {
                return Err(i);
            }
            if !p.down {
                return if p.i == all { Ok(p.future) } else { Err(i) };
            }
        }
    }
}

// What is seen of rows of the first edition, with room for so many dues and names: little room costs little to clear.
#[inline(never)]
fn good_within<const DUES: usize, const NAMES: usize>(types: &Types, rows: &[u8]) -> Seen
    requires room { (DUES ≤ 4096) × (NAMES ≤ 65535) }
    requires table { (length types.now ≤ 256) × (length rows.now ≤ 16384) }
    ensures { Shows 1 types.now rows.now result }
{
    let mut stack = [0u32; DUES];
    let mut bound = [0u64; NAMES];
    let mut heads = [NAMES as u16; 256];
    walk(types, rows, &mut stack, &mut bound, &mut heads)
}

// What is seen of few rows, of the first edition.
pub fn few_good(types: &Types, rows: &[u8]) -> Seen
    requires { (length types.now ≤ 256) × (length rows.now ≤ 16384) }
    ensures { Shows 1 types.now rows.now result }
{
    good_within::<272, 256>(types, rows)
}

// What is seen of rows of an edition.
pub fn all_good(types: &Types, rows: &[u8], edition: u16) -> Seen
    requires { (length types.now ≤ 256) × (length rows.now ≤ 16384) }
    ensures { Shows edition types.now rows.now result }
{
    if edition != layout::EDITION {
        return Err(0);
    }
    if layout::term_rows(rows) <= FEW {
        few_good(types, rows)
    } else {
        good_within::<2064, 2048>(types, rows)
    }
}
