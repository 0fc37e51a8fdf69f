// The rule of one row: what it makes of the tree that the rows are, counted and written.
#![tactic(auto)]

pub mod behind;
pub mod once;
pub mod places;
pub mod plans;
pub mod puts;
pub mod zips;

ghost use Rattle.std.specs.Prelude.{◌≡◌, [], ◌∷◌, ◌+◌, ◌*◌, ◌-◌, ◌≤◌, ◌<◌, length};
ghost use Rattle.layout.specs.Rows.{type_table, row_table, term_rows};
ghost use Rattle.layout.specs.Kinds.{number_of};
ghost use Rattle.meaning.specs.Types.{form_of};
ghost use Rattle.meaning.specs.Terms.{type_no, tree_of};
ghost use Rattle.reduce.specs.Rule.{rule_of, size_if, rows_if, Redex};
ghost use Rattle.reduce.specs.Plan.{row_no, pair_rows};
ghost use Rattle.put.specs.Put.{standing};

use layout::kinds::Kind;
use layout::views::Types;

// What the rule of the first row makes.
#[derive(Clone, Copy)]
pub enum Plan {
    // no rule reduces here
    Stays,
    // standing rows, from one to before another
    Part(usize, usize),
    // one row of a kind, of the first row's type
    Leaf(Kind),
    // a list project of a cons: the tail begins at a row
    Pair(usize),
    // a let: the body begins at a row
    Let(usize),
    // a call of a native function: the arguments begin at a row
    Call(usize),
    // a function with the fix term put for its first name
    Tie,
    // a zip: the arguments begin at a row
    Zip(usize),
}

// The rows of a list project of a cons, whose tail begins at a row.
fn write_pair(types: &Types, rows: &[u8], tail: usize, to: &mut [u8])
    requires { (length rows.now ≤ 16384) × (2 ≤ tail) × (tail ≤ length (row_table rows.now)) × (length to.old ≡ 8 * length (pair_rows (form_of types.now) (row_table rows.now) tail)) }
    ensures { row_table to.new ≡ pair_rows (form_of types.now) (row_table rows.now) tail }
{
    let r = places::row_of(rows, 0);
    let e = puts::elem_of(types, r.ty);
    let n = layout::term_rows(rows);
    put::write_row(to, 0, places::made(Kind::Cons, 0, r.ty));
    put::write_row(to, 1, places::made(Kind::Project, r.n, e));
    put::copy_rows(to, 2, rows, 2, tail - 2);
    put::write_row(to, tail, places::made(Kind::ListProject, r.n, r.ty));
    put::copy_rows(to, tail + 1, rows, tail, n - tail);
}

// How many rows the tree has that the rule of the first row makes of the tree that the rows are; none where no rule reduces.
pub fn count(types: &Types, rows: &[u8]) -> Option<usize>
    requires { Redex rows.now }
    ensures { result ≡ size_if (rule_of (form_of types.now) (tree_of (term_rows rows.now))) }
{
    match plans::plan_of(types, rows) {
        Plan::Stays => None,
        Plan::Part(from, end) => Some(end - from),
        Plan::Leaf(_) => Some(1),
        Plan::Pair(_) => Some(layout::term_rows(rows) + 1),
        Plan::Let(body) => Some(puts::count_puts(types, rows, puts::let_puts(rows, body))),
        Plan::Call(first) => Some(puts::count_puts(
            types,
            rows,
            puts::call_puts(types, rows, first),
        )),
        Plan::Tie => Some(puts::count_tie(types, rows)),
        Plan::Zip(first) => zips::count_zip(rows, first),
    }
}

// One row of a kind, of the first row's type.
fn write_leaf(rows: &[u8], kind: Kind, to: &mut [u8])
    requires { (0 < length (row_table rows.now)) × (length to.old ≡ 8) }
    ensures { row_table to.new ≡ (number_of kind ∷ 0 ∷ type_no (row_no (row_table rows.now) 0) ∷ 0 ∷ []) ∷ [] }
{
    let r = places::row_of(rows, 0);
    put::write_row(to, 0, places::made(kind, 0, r.ty));
}

// The rows of the tree that the rule of the first row makes, into a table of just as many.
pub fn reduce(types: &Types, rows: &[u8], to: &mut [u8])
    requires { Redex rows.now × (0 < length to.old) × (length to.old ≡ 8 * length (rows_if (rule_of (form_of types.now) (tree_of (term_rows rows.now))))) }
    ensures { row_table to.new ≡ rows_if (rule_of (form_of types.now) (tree_of (term_rows rows.now))) }
{
    match plans::plan_of(types, rows) {
        Plan::Stays => {}
        Plan::Part(from, end) => put::copy_rows(to, 0, rows, from, end - from),
        Plan::Leaf(kind) => write_leaf(rows, kind, to),
        Plan::Pair(tail) => write_pair(types, rows, tail, to),
        Plan::Let(body) => puts::write_puts(types, rows, puts::let_puts(rows, body), to),
        Plan::Call(first) => {
            puts::write_puts(types, rows, puts::call_puts(types, rows, first), to);
        }
        Plan::Tie => puts::write_tie(types, rows, to),
        Plan::Zip(first) => zips::write_zip(types, rows, first, to),
    }
}
