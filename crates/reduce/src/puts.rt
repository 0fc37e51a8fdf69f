// Rules that put arguments for names: let, a call of a native function, fix.
ghost use Rattle.std.specs.Prelude.{◌≡◌, MatchBool, [], ◌∷◌, map, ℕ, ◌+◌, ◌*◌, ◌-◌, ◌/◌, ◌≤◌, ◌<◌, min, length, get_or, take};
ghost use Rattle.std.specs.Prelude.{Some};
ghost use Rattle.layout.specs.Rows.{numbers, type_table, row_table, term_rows};
ghost use Rattle.meaning.specs.Types.{Form, form_of, params, names as names_of, elem_of};
ghost use Rattle.meaning.specs.Terms.{row_of, kind_no, is, size, sizes, tree_of, tree_at, grove};
ghost use Rattle.reduce.specs.Rule.{rule_of, size_if, rows_if, Redex, Front};
ghost use Rattle.reduce.specs.Plan.{row_no, LetAt, CallsAt, TiesAt};
ghost use Rattle.put.specs.Put.{Ready, put_rows};
ghost use Rattle.reduce.specs.Given.{tie_row, PutsRule, EndsArgs};

use crate::places;
use layout::kinds::Kind;
use layout::views::Types;

// The element type of a list type.
pub fn elem_of(types: &Types, t: u16) -> u16
    ensures { result ≡ elem_of (form_of types.now t) }
{
    if types.is(t, layout::forms::Form::List) {
        types.result_of(t)
    } else {
        0
    }
}

// What is put: the body's row, the names, and the rows where their arguments begin, with the row behind the last.
#[derive(Clone, Copy)]
pub struct Puts {
    pub body: usize,
    pub count: usize,
    pub names: [u16; 8],
    pub bounds: [u16; 9],
}

// A let's bound term is put for its name.
pub fn let_puts(rows: &[u8], body: usize) -> Puts
    requires { Front rows.now × LetAt (row_table rows.now) body }
    ensures { ((form : ℕ → Form) → PutsRule form (row_table rows.now) [] result) × (result.body ≡ body) }
{
    let name = places::row_of(rows, 0).word as u16;
    Puts {
        body,
        count: 1,
        names: [name, 0, 0, 0, 0, 0, 0, 0],
        bounds: [1, body as u16, 0, 0, 0, 0, 0, 0, 0],
    }
}

// A fix term of n rows is put for the first name of its function.
pub fn tie_puts(types: &Types, rows: &[u8], n: usize) -> Puts
    requires { Front rows.now × TiesAt (form_of types.now) (row_table rows.now) × (n ≡ size (tree_of (term_rows rows.now))) }
    ensures { PutsRule (form_of types.now) (row_table rows.now) (tie_row (row_table rows.now) ∷ []) result }
{
    let name = put::param_name(types, places::row_of(rows, 1).ty, 0);
    Puts {
        body: 2,
        count: 1,
        names: [name, 0, 0, 0, 0, 0, 0, 0],
        bounds: [0, n as u16, 0, 0, 0, 0, 0, 0, 0],
    }
}

// The names of a function's type, the first n.
pub fn fill_names(types: &Types, t: u16, n: usize, names: &mut [u16])
    requires { (length names.old ≡ 8) × (n ≤ length (params (form_of types.now t))) × (n ≤ 8) }
    ensures { take n names.new ≡ take n (names_of (params (form_of types.now t))) }
{
    for k in 0..n {
        names[k] = put::param_name(types, t, k);
    }
}

// The row behind the tree at row `at`, whether it may have many rows or not.
fn end_at<const FAR: bool>(rows: &[u8], at: usize) -> usize
    requires { (length rows.now ≤ 32768) × (at + size (tree_at (term_rows rows.now) at) ≤ length rows.now / 8) }
    ensures { result ≡ at + size (tree_at (term_rows rows.now) at) }
{
    if FAR {
        terms::far_end(rows, at)
    } else {
        terms::end_of(rows, at)
    }
}

// Where each of n trees from row `first` on begins, and where the last ends; of trees that may have many rows, or of others.
pub fn fill_bounds<const FAR: bool>(rows: &[u8], first: usize, n: usize, bounds: &mut [u16])
    requires { (length bounds.old ≡ 9) × (length rows.now ≤ 32768) × (n ≤ 8) × (first + sizes (grove (map row_of (row_table rows.now)) first n) ≤ length (row_table rows.now)) }
    ensures { (j : ℕ) → j ≤ n → get_or bounds.new j 0 ≡ first + sizes (grove (map row_of (row_table rows.now)) first j) }
{
    let mut at = first;
    bounds[0] = first as u16;
    for k in 0..n {
        at = end_at::<FAR>(rows, at);
        bounds[k + 1] = at as u16;
    }
}

// A call's arguments are put for the names of the function.
pub fn call_puts(types: &Types, rows: &[u8], first: usize) -> Puts
    requires { Front rows.now × CallsAt (row_table rows.now) first }
    ensures { PutsRule (form_of types.now) (row_table rows.now) [] result × EndsArgs (row_table rows.now) result }
{
    let r = places::row_of(rows, 0);
    let c = places::row_of(rows, 1);
    let n = put::param_count(types, c.ty).min(r.n as usize);
    let mut names = [0u16; 8];
    fill_names(types, c.ty, n, &mut names);
    let mut bounds = [0u16; 9];
    fill_bounds::<false>(rows, first, n, &mut bounds);
    Puts {
        body: 2,
        count: n,
        names,
        bounds,
    }
}

// The rows of a body with what is put, counted.
pub fn count_puts(types: &Types, rows: &[u8], p: Puts) -> usize
    requires { (p.count ≤ length p.names) × Ready (row_table rows.now) p.body (take p.count p.names) p.bounds }
    ensures { result ≡ length (put_rows (form_of types.now) (row_table rows.now) p.body (take p.count p.names) p.bounds) }
{
    put::count_put(types, rows, p.body, &p.names[..p.count], &p.bounds)
}

// The same rows, into a table of just as many.
pub fn write_puts(types: &Types, rows: &[u8], p: Puts, to: &mut [u8])
    requires { (p.count ≤ length p.names) × Ready (row_table rows.now) p.body (take p.count p.names) p.bounds × (length to.old ≡ 8 * length (put_rows (form_of types.now) (row_table rows.now) p.body (take p.count p.names) p.bounds)) }
    ensures { row_table to.new ≡ put_rows (form_of types.now) (row_table rows.now) p.body (take p.count p.names) p.bounds }
{
    put::write_put(types, rows, p.body, &p.names[..p.count], &p.bounds, to);
}

// Whether the first row is a fix of a function with a name.
pub(crate) fn ties(types: &Types, rows: &[u8]) -> bool
    requires { Front rows.now × (kind_no (row_no (row_table rows.now) 0) ≡ 11) }
    ensures { MatchBool result (TiesAt (form_of types.now) (row_table rows.now)) (TiesAt (form_of types.now) (row_table rows.now) → ⊥) }
{
    let function = places::row_of(rows, 1);
    function.is(Kind::Native) && put::param_count(types, function.ty) != 0
}

// How many rows a fix makes.
pub fn count_tie(types: &Types, rows: &[u8]) -> usize
    requires { Redex rows.now × TiesAt (form_of types.now) (row_table rows.now) }
    ensures { Some result ≡ size_if (rule_of (form_of types.now) (tree_of (term_rows rows.now))) }
{
    let p = tie_puts(types, rows, layout::term_rows(rows));
    1 + count_puts(types, rows, p)
}

// The rows that a fix makes.
pub fn write_tie(types: &Types, rows: &[u8], to: &mut [u8])
    requires { Redex rows.now × TiesAt (form_of types.now) (row_table rows.now) × (length to.old ≡ 8 * length (rows_if (rule_of (form_of types.now) (tree_of (term_rows rows.now))))) }
    ensures { row_table to.new ≡ rows_if (rule_of (form_of types.now) (tree_of (term_rows rows.now))) }
{
    let r = places::row_of(rows, 0);
    let p = tie_puts(types, rows, layout::term_rows(rows));
    put::write_row(to, 0, places::made(Kind::Native, 0, r.ty));
    write_puts(types, rows, p, &mut to[layout::TERM_ROW..]);
}
