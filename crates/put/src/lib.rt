// Names put at once: a body's rows are copied, and for a name that is put and not hidden its argument's rows.
#![tactic(auto)]

mod puts;
pub mod sinks;

ghost use Rattle.std.specs.Prelude.{IfOk, IfSome, IsSome, ◌≡◌, [], ◌∷◌, ◌++◌, ℕ, ◌+◌, ◌*◌, ◌-◌, ◌≤◌, ◌<◌, true, false, length, get_or, set, take, drop, is_some};
ghost use Rattle.layout.specs.Rows.{numbers, type_table, row_table};
ghost use Rattle.layout.specs.declared.Row.{Row as Line};
ghost use Rattle.meaning.specs.Types.{form_of, find, params, names as names_of};
ghost use Rattle.meaning.specs.Terms.{arity, row_of};
ghost use Rattle.meaning.specs.Steps.{◌∨ᵇ◌};
ghost use Rattle.terms.specs.Masks.{bit};
ghost use Rattle.put.specs.Sinks.{Taken};
ghost use Rattle.put.specs.declared.Turn.TheVariants.{Whole};
ghost use Rattle.put.specs.Put.{standing, pick, chosen, binds, mark, Bare, first_row, end_row, Descends, Ready, put_rows, Among, Widens, Within, Owing, Clear, Skips, Turns, Exact, Passes};

use layout::Row;
use layout::kinds::Kind;
use layout::views::Types;
use puts::{Many, One, Puts, Rowwise};
use sinks::{Count, Sink, Table};

// The rows that are copied for a row: from and to.
#[derive(Clone, Copy)]
pub struct Span {
    pub from: usize,
    pub to: usize,
}

// The place of the name x among those that are put, if the mask does not hide it.
fn place_of(names: &[u16], m: u8, x: u32) -> Option<usize>
    requires { length names.now ≤ 8 }
    ensures { result ≡ pick names.now m x }
{
    for k in 0..names.len() {
        if layout::word_of(names[k]) == x {
            if terms::masks::mask_bit(m, k) {
                return None;
            }
            return Some(k);
        }
    }
    None
}

// Which name is put at a row: at a variable whose name is put and not hidden.
fn chosen(names: &[u16], m: u8, r: Row) -> Option<usize>
    requires { length names.now ≤ 8 }
    ensures { result ≡ chosen names.now (row_of (numbers r)).head m }
{
    if r.is(Kind::Variable) {
        place_of(names, m, r.word)
    } else {
        None
    }
}

// The rows that are put for the name at place j.
fn argument(bounds: &[u16], j: usize) -> Span
    requires { j + 1 < length bounds.now }
    ensures { (result.from ≡ get_or bounds.now j 0) × (result.to ≡ get_or bounds.now (j + 1) 0) }
{
    Span {
        from: layout::wide(bounds[j]),
        to: layout::wide(bounds[j + 1]),
    }
}

// The rows that are copied for row i, met under a mask.
fn spot(names: &[u16], bounds: &[u16], m: u8, r: Row, i: usize) -> Span
    requires { (length names.now ≤ 8) × (length names.now < length bounds.now) × (i < 4096) }
    ensures { (result.from ≡ first_row bounds.now i (chosen names.now (row_of (numbers r)).head m)) × (result.to ≡ end_row bounds.now i (chosen names.now (row_of (numbers r)).head m)) }
{
    match chosen(names, m, r) {
        Some(j) => argument(bounds, j),
        None => Span { from: i, to: i + 1 },
    }
}

// Whether a function of type t binds the name x.
fn has_name(types: &Types, t: u16, x: u32) -> bool
    ensures { result ≡ is_some (find (params (form_of types.now t)) x) }
{
    rules::names::param_named(types, t, x).is_some()
}

// Whether a row binds the name y in its last tree.
fn binds_name(types: &Types, r: Row, y: u16) -> bool
    ensures { result ≡ binds (form_of types.now) (row_of (numbers r)).head (row_of (numbers r)).type y }
{
    let x = layout::word_of(y);
    match r.kind() {
        Some(Kind::Native) => has_name(types, r.ty, x),
        Some(Kind::Let) => x == r.word,
        _ => false,
    }
}

// Whether the k-th name, y, is hidden in a row's last tree.
fn hides(types: &Types, r: Row, y: u16, m: u8, k: usize) -> bool
    ensures { result ≡ (bit m k ∨ᵇ binds (form_of types.now) (row_of (numbers r)).head (row_of (numbers r)).type y) }
{
    terms::masks::mask_bit(m, k) || binds_name(types, r, y)
}

// The mask of a binder's last tree.
fn marked(types: &Types, names: &[u16], r: Row, m: u8) -> u8
    requires { length names.now ≤ 8 }
    ensures { result ≡ mark (binds (form_of types.now) (row_of (numbers r)).head (row_of (numbers r)).type) names.now m }
{
    let mut x: u8 = 0;
    for k in (0..names.len()).rev() {
        x = 2 * x;
        if hides(types, r, names[k], m, k) {
            x += 1;
        }
    }
    x
}

// Behind a row: its trees are owed, each with its mask. The trees owed are counted.
fn descend(types: &Types, names: &[u16], r: Row, masks: &mut [u8], owed: usize) -> usize
    requires { (length names.now ≤ 8) × (0 < owed) × (owed ≤ length masks.old) × (owed - 1 + arity (row_of (numbers r)).head ≤ length masks.old) }
    ensures { Descends (form_of types.now) names.now (row_of (numbers r)) masks.old masks.new owed result }
{
    let top = owed - 1;
    let m = masks[top];
    let n = top + terms::children(r);
    match r.kind() {
        Some(Kind::Native) => masks[top] = marked(types, names, r, m),
        Some(Kind::Let) => {
            masks[top] = marked(types, names, r, m);
            masks[owed] = m;
        }
        _ => masks[top..n].fill(m),
    }
    n
}

// Whether x is one of the names.
fn is_name(names: &[u16], x: u32) -> bool
    requires { length names.now ≤ 8 }
    ensures { result ≡ is_some (pick names.now 0 x) }
{
    place_of(names, 0, x).is_some()
}

// Whether a row hides one of the names in its last tree.
fn hides_some(types: &Types, names: &[u16], r: Row) -> bool
    requires { length names.now ≤ 8 }
    ensures { result ≡ false → Bare (form_of types.now) names.now (row_of (numbers r)) }
{
    match r.kind() {
        Some(Kind::Native) => marked(types, names, r, 0) != 0,
        Some(Kind::Let) => is_name(names, r.word),
        _ => false,
    }
}

// The rows of the body at a row with the arguments put, by a mask for each tree owed, go to a sink; the row behind the body. Nothing where the sink has
// no room.
fn pass_masked<S: Sink>(
    types: &Types,
    rows: &[u8],
    body: usize,
    names: &[u16],
    bounds: &[u16],
    sink: &mut S,
) -> Option<usize>
    requires ready { Ready (row_table rows.now) body names.now bounds.now }
    requires empty { S.holds sink.old [] }
    ensures made { IfSome result (λ e. Taken S.holds S.room S.loan (form_of types.now) (row_table rows.now) body names.now bounds.now sink.old sink.new e) }
    ensures room { length (put_rows (form_of types.now) (row_table rows.now) body names.now bounds.now) ≤ S.room sink.old → IsSome result }
{
    let mut masks = [0u8; 2048];
    let mut owed: usize = 1;
    let mut i = body;
    // A while: where the trees owed end is known only when their rows are read.
    while 0 < owed {
        let r = layout::row_at(rows, i);
        let s = spot(names, bounds, masks[owed - 1], r, i);
        owed = descend(types, names, r, &mut masks, owed);
        if !sink.take(rows, s) {
            return None;
        }
        i += 1;
    }
    Some(i)
}

// How many rows they are.
fn count_masked(types: &Types, rows: &[u8], body: usize, names: &[u16], bounds: &[u16]) -> usize
    requires { Ready (row_table rows.now) body names.now bounds.now }
    ensures { result ≡ length (put_rows (form_of types.now) (row_table rows.now) body names.now bounds.now) }
{
    let mut count = Count { rows: 0 };
    pass_masked(types, rows, body, names, bounds, &mut count);
    count.rows
}

// How many rows the body at a row has with the arguments put.
pub fn count_put(types: &Types, rows: &[u8], body: usize, names: &[u16], bounds: &[u16]) -> usize
    requires { Ready (row_table rows.now) body names.now bounds.now }
    ensures { result ≡ length (put_rows (form_of types.now) (row_table rows.now) body names.now bounds.now) }
{
    let rowwise = Rowwise { names, bounds };
    let mut count = Count { rows: 0 };
    match pass_bare(types, rows, body, &rowwise, &mut count) {
        Ok(_) => count.rows,
        Err(_) => count_masked(types, rows, body, names, bounds),
    }
}

// The rows of the body at a row with the arguments put, by a mask for each tree owed, into a table of just as many.
fn write_masked(
    types: &Types,
    rows: &[u8],
    body: usize,
    names: &[u16],
    bounds: &[u16],
    to: &mut [u8],
)
    requires { Ready (row_table rows.now) body names.now bounds.now × (length to.old ≡ 8 * length (put_rows (form_of types.now) (row_table rows.now) body names.now bounds.now)) }
    ensures { row_table to.new ≡ put_rows (form_of types.now) (row_table rows.now) body names.now bounds.now }
{
    let mut table = Table { to, rows: 0 };
    pass_masked(types, rows, body, names, bounds, &mut table);
}

// The same with no mask, where no row hides a name. Whether it is so.
fn write_bare(
    types: &Types,
    rows: &[u8],
    body: usize,
    names: &[u16],
    bounds: &[u16],
    to: &mut [u8],
) -> bool
    requires { Ready (row_table rows.now) body names.now bounds.now × (length to.old ≡ 8 * length (put_rows (form_of types.now) (row_table rows.now) body names.now bounds.now)) }
    ensures { result ≡ true → row_table to.new ≡ put_rows (form_of types.now) (row_table rows.now) body names.now bounds.now }
{
    let rowwise = Rowwise { names, bounds };
    let mut table = Table { to, rows: 0 };
    pass_bare(types, rows, body, &rowwise, &mut table).is_ok()
}

// The rows of the body at a row with the arguments put, into a table of just as many.
pub fn write_put(
    types: &Types,
    rows: &[u8],
    body: usize,
    names: &[u16],
    bounds: &[u16],
    to: &mut [u8],
)
    requires { Ready (row_table rows.now) body names.now bounds.now × (length to.old ≡ 8 * length (put_rows (form_of types.now) (row_table rows.now) body names.now bounds.now)) }
    ensures { row_table to.new ≡ put_rows (form_of types.now) (row_table rows.now) body names.now bounds.now }
{
    if !write_bare(types, rows, body, names, bounds, to) {
        write_masked(types, rows, body, names, bounds, to);
    }
}

// How many names a function of type t binds.
#[tactic(auto, using(rules::proofs::Finding::names_found))]
pub fn param_count(types: &Types, t: u16) -> usize
    ensures { (result ≡ length (params (form_of types.now t))) × (result ≤ 8) }
{
    if types.is_function(t) {
        types.parts_of(t)
    } else {
        0
    }
}

// The k-th of them, counted from 0.
pub fn param_name(types: &Types, t: u16, k: usize) -> u16
    requires { k < length (params (form_of types.now t)) }
    ensures { result ≡ get_or (names_of (params (form_of types.now t))) k 0 }
{
    types.name_of(t, k)
}

// Whether a function of type t binds all the names, each at its place.
fn binds_all(types: &Types, names: &[u16], t: u16) -> bool
    ensures { result ≡ true → Among names.now (params (form_of types.now t)) }
{
    if param_count(types, t) < names.len() {
        return false;
    }
    for k in 0..names.len() {
        if param_name(types, t, k) != names[k] {
            return false;
        }
    }
    true
}

// The least and the greatest of some names.
#[derive(Clone, Copy)]
pub struct Range {
    pub low: usize,
    pub high: usize,
}

impl Range {
    // The range with one name more.
    fn with(self, y: usize) -> Self
        ensures { Widens self result y }
    {
        Range {
            low: self.low.min(y),
            high: self.high.max(y),
        }
    }
}

// The range that the names are in.
fn range_of(names: &[u16]) -> Range
    ensures { Within names.now result }
{
    if names.is_empty() {
        return Range { low: 0, high: 0 };
    }
    let y = layout::wide(names[0]);
    let mut x = Range { low: y, high: y };
    for y in names {
        x = x.with(layout::wide(*y));
    }
    x
}

// All numbers of 32 bits.
const WORDS: usize = 4294967296;

// Whether a row may be one of the names in a range or hide one: it is a function, or its word is in the range, which one test tells of the word's
// distance from the least name.
fn may_touch(r: Row, x: Range) -> bool
    requires { (x.low ≤ x.high) × (x.high ≤ 65535) }
    ensures { result ≡ false → (r.kind ≡ 6 → ⊥) × (x.low ≤ r.word → r.word ≤ x.high → ⊥) }
{
    if r.is(Kind::Native) {
        return true;
    }
    (r.word as usize + WORDS - x.low) % WORDS <= x.high - x.low
}

// Where a pass over rows stands: the row, and how many trees are still owed.
#[derive(Clone, Copy)]
pub struct Scan {
    pub i: usize,
    pub owed: usize,
}

// The next row that may be one of the names in a range or hide one, or the end, or the row where a closure stops. Another tells a row's children.
fn skip_until<C: Fn(Row) -> usize, U: Fn(usize) -> bool>(
    rows: &[u8],
    at: Scan,
    x: Range,
    children: C,
    stops: U,
) -> Scan
    requires owing { Owing (row_table rows.now) at }
    requires range { (x.low ≤ x.high) × (x.high ≤ 65535) }
    requires callable { C.IsAlwaysCallable children × U.IsAlwaysCallable stops }
    requires told { (r : Line) (n : ℕ) → C.post children r n → (n ≡ arity (row_of (numbers r)).head) × (n ≤ 256) }
    ensures { Skips (Clear x) (row_table rows.now) at.i at.owed result.i result.owed }
{
    let mut i = at.i;
    let mut owed = at.owed;
    // A while: where the trees owed end is known only when their rows are read.
    while 0 < owed {
        if stops(i) {
            break;
        }
        let r = layout::row_at(rows, i);
        if may_touch(r, x) {
            break;
        }
        owed = owed - 1 + children(r);
        i += 1;
    }
    Scan { i, owed }
}

// The next row that may be one of the names in a range or hide one, or the end. For many rows: the table of children is made once.
fn far_skip(rows: &[u8], at: Scan, x: Range) -> Scan
    requires { Owing (row_table rows.now) at × (x.low ≤ x.high) × (x.high ≤ 65535) }
    ensures { Skips (Clear x) (row_table rows.now) at.i at.owed result.i result.owed }
{
    let table = terms::CHILDREN;
    skip_until(rows, at, x, |r| terms::listed(&table, r), |_| false)
}

// The same: sixteen rows without the table, which costs more to make than so few rows to pass, and the others with it.
fn skip(rows: &[u8], at: Scan, x: Range) -> Scan
    requires { Owing (row_table rows.now) at × (x.low ≤ x.high) × (x.high ≤ 65535) }
    ensures { Skips (Clear x) (row_table rows.now) at.i at.owed result.i result.owed }
{
    let near = at.i + 16;
    let next = skip_until(rows, at, x, |r| terms::children(r), |i| i == near);
    if next.i < near {
        return next;
    }
    far_skip(rows, next, x)
}

// What a pass does at a row.
#[derive(Clone, Copy)]
pub enum Turn {
    // the row stands, and its trees come next
    Stands,
    // the row and all its trees stand: all names are hidden there
    Whole,
    // rows are put for it, from one to before another
    Puts(Span),
    // some names are hidden below it, and others may not be
    Mixed,
}

// What a pass does at a row, if it passes no tree whole.
fn turn_in(types: &Types, names: &[u16], bounds: &[u16], r: Row) -> Turn
    requires { (length names.now ≤ 8) × (length names.now < length bounds.now) }
    ensures turn { Turns (form_of types.now) names.now bounds.now (row_of (numbers r)) result }
    ensures rowwise { result ≡ Whole → ⊥ }
{
    match chosen(names, 0, r) {
        Some(j) => Turn::Puts(argument(bounds, j)),
        None if hides_some(types, names, r) => Turn::Mixed,
        None => Turn::Stands,
    }
}

// What a pass does at a row: below a function that binds all the names, none is put.
fn turn_at(types: &Types, names: &[u16], bounds: &[u16], r: Row) -> Turn
    requires { (length names.now ≤ 8) × (length names.now < length bounds.now) }
    ensures { Turns (form_of types.now) names.now bounds.now (row_of (numbers r)) result }
{
    if r.is(Kind::Native) {
        if binds_all(types, names, r.ty) {
            return Turn::Whole;
        }
    }
    turn_in(types, names, bounds, r)
}

// What one pass made: the row behind the tree that it read, and how many rows it wrote.
#[derive(Clone, Copy)]
pub struct Made {
    pub end: usize,
    pub rows: usize,
}

// Why a pass makes nothing.
#[derive(Clone, Copy)]
enum Stop {
    // there is no room for the rows
    Full,
    // some names are hidden below a row, and others may not be
    Mixed,
}

// The rows of the body at a row with the arguments put, in one pass, into a table that may have more room. It makes nothing where there is no room.
// This one goes row by row, by a mask for each tree owed: for names of which some are hidden and others are not.
fn put_masked(
    types: &Types,
    rows: &[u8],
    body: usize,
    names: &[u16],
    bounds: &[u16],
    to: &mut [u8],
) -> Option<Made>
    requires { Ready (row_table rows.now) body names.now bounds.now × Exact (row_table rows.now) × (length to.old ≤ 32768) }
    ensures { IfSome result (λ m. Passes (form_of types.now) (row_table rows.now) body names.now bounds.now (row_table to.new) m) }
{
    let mut table = Table { to, rows: 0 };
    let end = pass_masked(types, rows, body, names, bounds, &mut table)?;
    Some(Made {
        end,
        rows: table.rows,
    })
}

// The rows of the body at a row with the arguments put go to a sink, with no mask, as long as each row hides none of the names or is a function that
// hides all: rows that stand side by side go at once. The row behind the body.
fn pass_bare<P: Puts, S: Sink>(
    types: &Types,
    rows: &[u8],
    body: usize,
    puts: &P,
    sink: &mut S,
) -> Result<usize, Stop>
    requires ready { Ready (row_table rows.now) body (P.names puts.now) (P.bounds puts.now) }
    requires exact { P.jumps puts.now → Exact (row_table rows.now) }
    requires known { P.ready puts.now }
    requires empty { S.holds sink.old [] }
    ensures { IfOk result (λ e. Taken S.holds S.room S.loan (form_of types.now) (row_table rows.now) body (P.names puts.now) (P.bounds puts.now) sink.old sink.new e) }
{
    let mut at = Scan { i: body, owed: 1 };
    let mut from = body;
    // A loop: a turn passes one row or a whole tree, and where the trees owed end is known only when their rows are read.
    loop {
        at = puts.skip(rows, at);
        if at.owed == 0 {
            break;
        }
        let r = layout::row_at(rows, at.i);
        match puts.turn(types, r) {
            Turn::Stands => {
                at = Scan {
                    i: at.i + 1,
                    owed: at.owed - 1 + terms::children(r),
                };
            }
            Turn::Whole => {
                at = Scan {
                    i: terms::end_of(rows, at.i),
                    owed: at.owed - 1,
                };
            }
            Turn::Puts(arg) => {
                if !sink.take(rows, Span { from, to: at.i }) {
                    return Err(Stop::Full);
                }
                if !sink.take(rows, arg) {
                    return Err(Stop::Full);
                }
                from = at.i + 1;
                // a name's row has no children
                at = Scan {
                    i: from,
                    owed: at.owed - 1,
                };
            }
            Turn::Mixed => {
                return Err(Stop::Mixed);
            }
        }
    }
    if !sink.take(rows, Span { from, to: at.i }) {
        return Err(Stop::Full);
    }
    Ok(at.i)
}

// The same with no mask.
fn put_bare<P: Puts>(
    types: &Types,
    rows: &[u8],
    body: usize,
    puts: &P,
    to: &mut [u8],
) -> Result<Made, Stop>
    requires ready { Ready (row_table rows.now) body (P.names puts.now) (P.bounds puts.now) }
    requires exact { Exact (row_table rows.now) }
    requires known { P.ready puts.now }
    ensures { IfOk result (λ m. Passes (form_of types.now) (row_table rows.now) body (P.names puts.now) (P.bounds puts.now) (row_table to.new) m) }
{
    let mut table = Table { to, rows: 0 };
    let end = pass_bare(types, rows, body, puts, &mut table)?;
    Ok(Made {
        end,
        rows: table.rows,
    })
}

// The same, with no mask as far as that goes.
pub fn put_once(
    types: &Types,
    rows: &[u8],
    body: usize,
    names: &[u16],
    bounds: &[u16],
    to: &mut [u8],
) -> Option<Made>
    requires { Ready (row_table rows.now) body names.now bounds.now × Exact (row_table rows.now) × (length to.old ≤ 32768) }
    ensures { IfSome result (λ m. Passes (form_of types.now) (row_table rows.now) body names.now bounds.now (row_table to.new) m) }
{
    let many = Many {
        names,
        bounds,
        range: range_of(names),
    };
    match put_bare(types, rows, body, &many, to) {
        Ok(made) => Some(made),
        Err(Stop::Full) => None,
        Err(Stop::Mixed) => put_masked(types, rows, body, names, bounds, to),
    }
}

// What a pass does at a row where one name is put, for which some rows stand.
fn turn_one(types: &Types, x: u16, arg: Span, r: Row) -> Turn
    ensures { Turns (form_of types.now) (x ∷ []) (arg.from ∷ arg.to ∷ []) (row_of (numbers r)) result }
{
    if r.is(Kind::Native) {
        if has_name(types, r.ty, layout::word_of(x)) {
            return Turn::Whole;
        }
        return Turn::Stands;
    }
    if r.word != layout::word_of(x) {
        return Turn::Stands;
    }
    match r.kind() {
        Some(Kind::Variable) => Turn::Puts(arg),
        Some(Kind::Let) => Turn::Mixed,
        _ => Turn::Stands,
    }
}

// One name put in one pass, row by row, with the name and the rows that are put for it in registers. Where a let hides the name, it makes nothing.
pub fn put_one(
    types: &Types,
    rows: &[u8],
    body: usize,
    x: u16,
    arg: Span,
    to: &mut [u8],
) -> Option<Made>
    requires { Ready (row_table rows.now) body (x ∷ []) (arg.from ∷ arg.to ∷ []) × Exact (row_table rows.now) × (length to.old ≤ 32768) }
    ensures { IfSome result (λ m. Passes (form_of types.now) (row_table rows.now) body (x ∷ []) (arg.from ∷ arg.to ∷ []) (row_table to.new) m) }
{
    let one = One { name: x, arg };
    put_bare(types, rows, body, &one, to).ok()
}

// A new row, the i-th of a table.
pub fn write_row(to: &mut [u8], i: usize, r: Row)
    requires { 8 * i + 8 ≤ length to.old }
    ensures { row_table to.new ≡ set (row_table to.old) i (numbers r) }
{
    let at = layout::TERM_ROW * i;
    to[at] = r.kind;
    to[at + 1] = r.n;
    layout::put16_at(to, at + layout::ROW_TYPE_AT, r.ty);
    layout::put32_at(to, at + layout::ROW_WORD_AT, r.word);
}

// n standing rows of a table, from row `from` on, go to another from row `at` on.
pub fn copy_rows(to: &mut [u8], at: usize, rows: &[u8], from: usize, n: usize)
    requires { (8 * at + 8 * n ≤ length to.old) × (8 * from + 8 * n ≤ length rows.now) }
    ensures { row_table to.new ≡ take at (row_table to.old) ++ (take n (drop from (row_table rows.now)) ++ drop (at + n) (row_table to.old)) }
{
    layout::copy_to(
        to,
        layout::TERM_ROW * at,
        rows,
        layout::TERM_ROW * from,
        layout::TERM_ROW * n,
    );
}
