// The rule of a zip: its arguments one by one, both halves of what it makes.
ghost use Rattle.std.specs.Prelude.{IfSome, Some, ◌≡◌, true, false, cond, [], ◌∷◌, ◌++◌, map, ℕ, List, ◌+◌, ◌*◌, ◌-◌, ◌≤◌, ◌<◌, length, get_or, take};
ghost use Rattle.layout.specs.Rows.{numbers, type_table, row_table, term_rows};
ghost use Rattle.meaning.specs.Types.{Form, form_of, low};
ghost use Rattle.meaning.specs.Terms.{row_of, n_no, is, size, sizes, tree_of, tree_at, grove};
ghost use Rattle.meaning.specs.Bytes.{◌∧ᵇ◌};
ghost use Rattle.meaning.specs.Steps.{is_list, ready, any_nil};
ghost use Rattle.reduce.specs.Rule.{rule_of, size_if, rows_if, Redex};
ghost use Rattle.reduce.specs.Plan.{row_no, rule_rows, zip_rows, ZipsFrom, ZipsAt};
ghost use Rattle.put.specs.Put.{standing};
ghost use Rattle.reduce.specs.Halves.{arguments, half_of, half_from, Halves, HalfAt, BoundsAt, Zipping};
ghost use Rattle.reduce.specs.Lists.{tree_zips_lists};
ghost use Rattle.reduce.specs.Once.{MadeAtOnce};
ghost use Rattle.reduce.specs.Taking.{Takes};

use crate::{places, puts};
use layout::Row;
use layout::kinds::Kind;
use layout::views::Types;
use put::sinks::{Count, Sink, Table};
use put::{Made, Span};

// Whether the argument at a row is a list, if the mask's first bit asks for one.
pub fn ready_at(rows: &[u8], at: usize, h: u8) -> bool
    requires { at < length (row_table rows.now) }
    ensures { result ≡ cond (low h) (is_list (tree_at (map row_of (row_table rows.now)) at)) true }
{
    if h % 2 != 1 {
        return true;
    }
    let r = places::row_of(rows, at);
    r.is(Kind::Nil) || r.is(Kind::Cons)
}

// Whether the argument at a row is nil and the mask's first bit asks for a list.
pub fn nil_at(rows: &[u8], at: usize, h: u8) -> bool
    requires { at < length (row_table rows.now) }
    ensures { result ≡ (low h ∧ᵇ is 12 (tree_at (map row_of (row_table rows.now)) at)) }
{
    if h % 2 != 1 {
        return false;
    }
    places::row_of(rows, at).is(Kind::Nil)
}

// Whether of n arguments from a row on those that are masked are nil or cons. It and the next are two short loops: with one loop over a closure each would
// need a law of its own that ties the meaning's word to the closure's, and the two would be no shorter.
pub fn all_lists(rows: &[u8], first: usize, n: usize, m: u8, bounds: &[u16]) -> bool
    requires { BoundsAt (row_table rows.now) first n bounds.now × (first + sizes (grove (map row_of (row_table rows.now)) first n) ≤ length (row_table rows.now)) }
    ensures { result ≡ ready m (grove (map row_of (row_table rows.now)) first n) }
{
    let mut left = m;
    let mut at = first;
    for j in 0..n {
        if !ready_at(rows, at, left) {
            return false;
        }
        at = layout::wide(bounds[j + 1]);
        left /= 2;
    }
    true
}

// Whether one of them is nil.
pub fn any_nil(rows: &[u8], first: usize, n: usize, m: u8, bounds: &[u16]) -> bool
    requires { BoundsAt (row_table rows.now) first n bounds.now × (first + sizes (grove (map row_of (row_table rows.now)) first n) ≤ length (row_table rows.now)) }
    ensures { result ≡ any_nil m (grove (map row_of (row_table rows.now)) first n) }
{
    let mut left = m;
    let mut at = first;
    for j in 0..n {
        if nil_at(rows, at, left) {
            return true;
        }
        at = layout::wide(bounds[j + 1]);
        left /= 2;
    }
    false
}

// The same of them alone, where the rows go on behind them: the last one is not walked.
fn lists_from(rows: &[u8], first: usize, n: usize, m: u8) -> bool
    requires { (length rows.now ≤ 32768) × (first + sizes (grove (map row_of (row_table rows.now)) first n) ≤ length (row_table rows.now)) }
    ensures { result ≡ ready m (grove (map row_of (row_table rows.now)) first n) }
{
    if n == 0 {
        return true;
    }
    let mut at = first;
    let mut h = m;
    for j in 1..n {
        if !ready_at(rows, at, h) {
            return false;
        }
        at = terms::far_end(rows, at);
        h /= 2;
    }
    ready_at(rows, at, h)
}

// Whether the rows begin with a call of a zip whose masked arguments are lists.
pub fn zips_lists(rows: &[u8]) -> bool
    requires { (length rows.now ≤ 32768) × (size (tree_of (term_rows rows.now)) ≤ length (row_table rows.now)) }
    ensures { result ≡ true → tree_zips_lists (tree_of (term_rows rows.now)) ≡ true }
{
    let call = places::row_of(rows, 0);
    if !call.is(Kind::Apply) {
        return false;
    }
    let zip = places::row_of(rows, 1);
    zip.is(Kind::Zip) && lists_from(rows, terms::end_of(rows, 1), call.n as usize, zip.n)
}

// One side of what a zip makes: the row where its function's rows begin, the arguments' first row, how many, the mask, and whether their tails are
// meant or their heads.
#[derive(Clone, Copy)]
pub struct Half {
    pub from: usize,
    pub first: usize,
    pub n: usize,
    pub mask: u8,
    pub tails: bool,
}

// The rows of an argument that ends before row e, met under what is left of the mask: its head or its tail where it is masked, else all of it.
pub fn half_at(rows: &[u8], at: usize, e: usize, h: u8, tails: bool) -> Span
    requires { Redex rows.now × (e ≡ at + size (tree_at (map row_of (row_table rows.now)) at)) × (at + size (tree_at (map row_of (row_table rows.now)) at) ≤ length (row_table rows.now)) × (low h ≡ true → is 13 (tree_at (map row_of (row_table rows.now)) at) ≡ true) }
    ensures { HalfAt (row_table rows.now) at h tails result }
{
    if h % 2 != 1 {
        return Span { from: at, to: e };
    }
    let t = terms::end_of(rows, at + 1);
    if tails {
        return Span { from: t, to: e };
    }
    Span {
        from: at + 1,
        to: t,
    }
}

// Where each of a zip's n arguments begins, from row `first` on. The last one ends where the rows end, so it is not walked.
fn zip_bounds(rows: &[u8], first: usize, n: usize, bounds: &mut [u16])
    requires { (length bounds.old ≡ 9) × (length rows.now ≤ 16384) × (n ≤ 8) × (first + sizes (grove (map row_of (row_table rows.now)) first n) ≡ length (row_table rows.now)) }
    ensures { (j : ℕ) → j ≤ n → get_or bounds.new j 0 ≡ first + sizes (grove (map row_of (row_table rows.now)) first j) }
{
    if n == 0 {
        puts::fill_bounds::<false>(rows, first, n, bounds);
        return;
    }
    puts::fill_bounds::<false>(rows, first, n - 1, bounds);
    bounds[n] = layout::term_rows(rows) as u16;
}

// The same of a call of a zip, whose first row says how many they are.
fn bounds_of(rows: &[u8], first: usize) -> [u16; 9]
    requires { Redex rows.now × ZipsFrom (row_table rows.now) first }
    ensures { BoundsAt (row_table rows.now) first (n_no (row_no (row_table rows.now) 0)) result }
{
    let mut bounds = [0u16; 9];
    zip_bounds(rows, first, places::row_of(rows, 0).n as usize, &mut bounds);
    bounds
}

// A row goes to a sink. Whether there was room.
fn add<S: Sink>(sink: &mut S, r: Row) -> bool
    requires { (l : List (List ℕ)) × S.holds sink.old l }
    ensures { Takes S.holds S.room S.loan sink.old sink.new result (numbers r ∷ []) }
{
    let mut bytes = [0u8; layout::TERM_ROW];
    put::write_row(&mut bytes, 0, r);
    sink.take(&bytes, Span { from: 0, to: 1 })
}

// A zip's arguments in one half go to a sink. Whether there was room.
fn take_half<S: Sink>(rows: &[u8], z: Half, bounds: &[u16], sink: &mut S) -> bool
    requires halves { Redex rows.now × Halves (row_table rows.now) z.first z.n z.mask × BoundsAt (row_table rows.now) z.first z.n bounds.now }
    requires open { (l : List (List ℕ)) × S.holds sink.old l }
    ensures { Takes S.holds S.room S.loan sink.old sink.new result (half_of (row_table rows.now) z.first z.n z.mask z.tails) }
{
    let mut h = z.mask;
    let mut at = z.first;
    for j in 0..z.n {
        let e = layout::wide(bounds[j + 1]);
        let s = half_at(rows, at, e, h, z.tails);
        if !sink.take(rows, s) {
            return false;
        }
        at = e;
        h /= 2;
    }
    true
}

// How many rows a zip's arguments have in one half.
pub fn count_half(rows: &[u8], z: Half, bounds: &[u16]) -> usize
    requires { Redex rows.now × Halves (row_table rows.now) z.first z.n z.mask × BoundsAt (row_table rows.now) z.first z.n bounds.now }
    ensures { (result ≡ length (half_of (row_table rows.now) z.first z.n z.mask z.tails)) × (result ≤ 522240) }
{
    let mut count = Count { rows: 0 };
    take_half(rows, z, bounds, &mut count);
    count.rows
}

// A zip's arguments in one half, written from row `start` of a table on; the row behind them.
pub fn write_half(rows: &[u8], z: Half, to: &mut [u8], start: usize, bounds: &[u16]) -> usize
    requires { Redex rows.now × Halves (row_table rows.now) z.first z.n z.mask × BoundsAt (row_table rows.now) z.first z.n bounds.now × (start + length (half_of (row_table rows.now) z.first z.n z.mask z.tails) ≤ length (row_table to.old)) }
    ensures { (result ≡ start + length (half_of (row_table rows.now) z.first z.n z.mask z.tails)) × (take result (row_table to.new) ≡ take start (row_table to.old) ++ half_of (row_table rows.now) z.first z.n z.mask z.tails) }
{
    let mut table = Table { to, rows: start };
    take_half(rows, z, bounds, &mut table);
    table.rows
}

// Of the cons that a zip makes, one side goes to a sink: a call's row, the function's rows, the arguments. Whether there was room.
fn take_side<S: Sink>(rows: &[u8], r: Row, z: Half, bounds: &[u16], sink: &mut S) -> bool
    requires halves { Redex rows.now × Halves (row_table rows.now) z.first z.n z.mask × BoundsAt (row_table rows.now) z.first z.n bounds.now }
    requires open { (l : List (List ℕ)) × S.holds sink.old l }
    requires function { z.from ≤ z.first }
    ensures { Takes S.holds S.room S.loan sink.old sink.new result (numbers r ∷ (standing (row_table rows.now) z.from z.first ++ half_of (row_table rows.now) z.first z.n z.mask z.tails)) }
{
    let function = Span {
        from: z.from,
        to: z.first,
    };
    if !add(sink, r) {
        return false;
    }
    if !sink.take(rows, function) {
        return false;
    }
    take_half(rows, z, bounds, sink)
}

// The same, written from row `start` of a table on; the row behind them.
pub fn write_side(
    rows: &[u8],
    r: Row,
    z: Half,
    to: &mut [u8],
    start: usize,
    bounds: &[u16],
) -> usize
    requires { Redex rows.now × Halves (row_table rows.now) z.first z.n z.mask × BoundsAt (row_table rows.now) z.first z.n bounds.now × (z.from ≤ z.first) × (start + (1 + (z.first - z.from) + length (half_of (row_table rows.now) z.first z.n z.mask z.tails)) ≤ length (row_table to.old)) }
    ensures { (result ≡ start + (1 + (z.first - z.from) + length (half_of (row_table rows.now) z.first z.n z.mask z.tails))) × (take result (row_table to.new) ≡ take start (row_table to.old) ++ (numbers r ∷ (standing (row_table rows.now) z.from z.first ++ half_of (row_table rows.now) z.first z.n z.mask z.tails))) }
{
    let mut table = Table { to, rows: start };
    take_side(rows, r, z, bounds, &mut table);
    table.rows
}

// One side of what a call of a zip makes, whose function's rows and arguments begin at two rows.
fn half_from(rows: &[u8], from: usize, first: usize, tails: bool) -> Half
    requires { 1 < length (row_table rows.now) }
    ensures { result ≡ half_from (row_table rows.now) from first tails }
{
    Half {
        from,
        first,
        n: places::row_of(rows, 0).n as usize,
        mask: places::row_of(rows, 1).n,
        tails,
    }
}

// How many rows a zip of cons makes, whose arguments begin at a row.
pub fn count_full(rows: &[u8], first: usize, bounds: &[u16]) -> usize
    requires { Redex rows.now × ZipsAt (row_table rows.now) first × BoundsAt (row_table rows.now) first (n_no (row_no (row_table rows.now) 0)) bounds.now }
    ensures { (form : ℕ → Form) → result ≡ length (zip_rows form (row_table rows.now) first) }
{
    let heads = count_half(rows, half_from(rows, 2, first, false), bounds);
    let tails = count_half(rows, half_from(rows, 1, first, true), bounds);
    3 + (first - 2) + heads + (first - 1) + tails
}

// The rows of a zip of cons go to a sink. Whether there was room.
fn take_full<S: Sink>(
    types: &Types,
    rows: &[u8],
    first: usize,
    bounds: &[u16],
    sink: &mut S,
) -> bool
    requires zips { Redex rows.now × ZipsAt (row_table rows.now) first × BoundsAt (row_table rows.now) first (n_no (row_no (row_table rows.now) 0)) bounds.now }
    requires open { (l : List (List ℕ)) × S.holds sink.old l }
    ensures { Takes S.holds S.room S.loan sink.old sink.new result (zip_rows (form_of types.now) (row_table rows.now) first) }
{
    let call = places::row_of(rows, 0);
    let front = places::made(Kind::Cons, 0, call.ty);
    let heads = places::made(Kind::Apply, call.n, puts::elem_of(types, call.ty));
    let tails = places::made(Kind::Apply, call.n, call.ty);
    if !add(sink, front) {
        return false;
    }
    if !take_side(rows, heads, half_from(rows, 2, first, false), bounds, sink) {
        return false;
    }
    take_side(rows, tails, half_from(rows, 1, first, true), bounds, sink)
}

// The rows of a zip of cons.
pub fn write_full(types: &Types, rows: &[u8], first: usize, bounds: &[u16], to: &mut [u8])
    requires { Redex rows.now × ZipsAt (row_table rows.now) first × BoundsAt (row_table rows.now) first (n_no (row_no (row_table rows.now) 0)) bounds.now × (length to.old ≡ 8 * length (zip_rows (form_of types.now) (row_table rows.now) first)) }
    ensures { row_table to.new ≡ zip_rows (form_of types.now) (row_table rows.now) first }
{
    let mut table = Table { to, rows: 0 };
    take_full(types, rows, first, bounds, &mut table);
}

// A call of a zip: its rows, where its arguments begin, how many there are, the mask, and where each of them stands.
#[derive(Clone, Copy)]
struct Zip<'a> {
    rows: &'a [u8],
    first: usize,
    n: usize,
    mask: u8,
    bounds: &'a [u16],
    ghost reads: { Zipping rows.now first n mask bounds.now },
}

impl<'a> Zip<'a> {
    // Of rows whose arguments stand where the bounds say.
    fn new(rows: &'a [u8], first: usize, bounds: &'a [u16]) -> Zip<'a>
        requires { Redex rows.now × ZipsFrom (row_table rows.now) first × BoundsAt (row_table rows.now) first (n_no (row_no (row_table rows.now) 0)) bounds.now }
        ensures { result.rows.now ≡ rows.now }
    {
        Zip {
            rows,
            first,
            n: places::row_of(rows, 0).n as usize,
            mask: places::row_of(rows, 1).n,
            bounds,
        }
    }

    // The rows of what it makes where its masked arguments are lists: "any nil gives nil; otherwise a cons".
    fn made<S: Sink>(&self, types: &Types, sink: &mut S) -> bool
        requires lists { ready self.now.mask (arguments self.now.rows.now self.now.first self.now.n) ≡ true }
        requires open { (l : List (List ℕ)) × S.holds sink.old l }
        ensures { (x : List (List ℕ)) × (rule_rows (form_of types.now) (row_table self.now.rows.now) ≡ Some x) × Takes S.holds S.room S.loan sink.old sink.new result x }
    {
        if any_nil(self.rows, self.first, self.n, self.mask, self.bounds) {
            return add(
                sink,
                places::made(Kind::Nil, 0, places::row_of(self.rows, 0).ty),
            );
        }
        take_full(types, self.rows, self.first, self.bounds, sink)
    }

    // How many rows it makes, whatever the types.
    fn count(&self) -> Option<usize>
        ensures { (form : ℕ → Form) → result ≡ size_if (rule_of form (tree_of (term_rows self.now.rows.now))) }
    {
        if !all_lists(self.rows, self.first, self.n, self.mask, self.bounds) {
            return None;
        }
        if any_nil(self.rows, self.first, self.n, self.mask, self.bounds) {
            return Some(1);
        }
        Some(count_full(self.rows, self.first, self.bounds))
    }

    // The rows that it makes, into a table of just as many.
    fn write(&self, types: &Types, to: &mut [u8])
        requires { (0 < length to.old) × (length to.old ≡ 8 * length (rows_if (rule_of (form_of types.now) (tree_of (term_rows self.now.rows.now))))) }
        ensures { row_table to.new ≡ rows_if (rule_of (form_of types.now) (tree_of (term_rows self.now.rows.now))) }
    {
        let mut table = Table { to, rows: 0 };
        self.made(types, &mut table);
    }

    // The same, into a table that may have more room; none where it stays or there is no room.
    fn make(&self, types: &Types, to: &mut [u8]) -> Option<Made>
        ensures { IfSome result (λ m. MadeAtOnce (form_of types.now) (row_table self.now.rows.now) (row_table to.new) m) }
    {
        let mut table = Table { to, rows: 0 };
        if all_lists(self.rows, self.first, self.n, self.mask, self.bounds)
            && self.made(types, &mut table)
        {
            return Some(Made {
                end: layout::term_rows(self.rows),
                rows: table.rows,
            });
        }
        None
    }
}

// Of a zip: "When all are nil or cons: any nil gives nil; otherwise a cons". What it makes, counted; the arguments begin at a row.
pub fn count_zip(rows: &[u8], first: usize) -> Option<usize>
    requires { Redex rows.now × ZipsFrom (row_table rows.now) first }
    ensures { (form : ℕ → Form) → result ≡ size_if (rule_of form (tree_of (term_rows rows.now))) }
{
    let bounds = bounds_of(rows, first);
    Zip::new(rows, first, &bounds).count()
}

// The rows that it makes, into a table of just as many.
pub fn write_zip(types: &Types, rows: &[u8], first: usize, to: &mut [u8])
    requires { Redex rows.now × ZipsFrom (row_table rows.now) first × (0 < length to.old) × (length to.old ≡ 8 * length (rows_if (rule_of (form_of types.now) (tree_of (term_rows rows.now))))) }
    ensures { row_table to.new ≡ rows_if (rule_of (form_of types.now) (tree_of (term_rows rows.now))) }
{
    let bounds = bounds_of(rows, first);
    Zip::new(rows, first, &bounds).write(types, to);
}

// The same, into a table that may have more room, where its arguments' places are known; none where it stays or there is no room.
pub fn make_zip(
    types: &Types,
    rows: &[u8],
    first: usize,
    bounds: &[u16],
    to: &mut [u8],
) -> Option<Made>
    requires { Redex rows.now × ZipsFrom (row_table rows.now) first × BoundsAt (row_table rows.now) first (n_no (row_no (row_table rows.now) 0)) bounds.now }
    ensures { IfSome result (λ m. MadeAtOnce (form_of types.now) (row_table rows.now) (row_table to.new) m) }
{
    Zip::new(rows, first, bounds).make(types, to)
}
