// Rules that are carried out in one pass, on rows that may go on behind the tree: let, a call of a native function or a zip, an if over true, fix. The
// new rows go to the front of a table that may have more room.
ghost use Rattle.std.specs.Prelude.{IfSome, ◌≡◌, true, ℕ, ◌≤◌, length};
ghost use Rattle.layout.specs.Rows.{type_table, row_table, term_rows};
ghost use Rattle.meaning.specs.Types.{Form, form_of};
ghost use Rattle.meaning.specs.Terms.{kind_no, tree_of};
ghost use Rattle.reduce.specs.Rule.{Front};
ghost use Rattle.reduce.specs.Plan.{row_no, TiesAt};
ghost use Rattle.reduce.specs.Once.{MadeAtOnce, Goes, Applies};
ghost use Rattle.reduce.specs.Lists.{tree_zips};

use crate::{places, puts, zips};
use layout::kinds::Kind;
use layout::views::Types;
use put::{Made, Span};

// The rules that are carried out in one pass.
#[derive(Clone, Copy, PartialEq, Eq)]
enum Rule {
    Let,
    // a call of a native function
    Call,
    // a call of a zip
    Zip,
    // an if over true
    Then,
    // a fix of a function with a name
    Tie,
}

// Of a let: its body with the bound term put.
fn let_once(types: &Types, rows: &[u8], to: &mut [u8]) -> Option<Made>
    requires { Front rows.now × (kind_no (row_no (row_table rows.now) 0) ≡ 19) × (length to.old ≤ 32768) }
    ensures { IfSome result (λ m. MadeAtOnce (form_of types.now) (row_table rows.now) (row_table to.new) m) }
{
    let p = puts::let_puts(rows, terms::end_of(rows, 1));
    put::put_once(types, rows, p.body, &p.names[..p.count], &p.bounds, to)
}

// Of a call of a native function: its body with the arguments put, where it has as many as the function has names.
fn call_once(types: &Types, rows: &[u8], to: &mut [u8]) -> Option<Made>
    requires { Front rows.now × (kind_no (row_no (row_table rows.now) 0) ≡ 8) × (kind_no (row_no (row_table rows.now) 1) ≡ 6) × (length to.old ≤ 32768) }
    ensures { IfSome result (λ m. MadeAtOnce (form_of types.now) (row_table rows.now) (row_table to.new) m) }
{
    let n = places::row_of(rows, 0).n as usize;
    let p = puts::call_puts(types, rows, terms::end_of(rows, 1));
    if p.count != n {
        return None;
    }
    let old = layout::wide(p.bounds[n]);
    let body = put::put_once(types, rows, p.body, &p.names[..n], &p.bounds, to)?;
    Some(Made {
        end: old,
        rows: body.rows,
    })
}

// Of an if over true: its second tree.
fn if_once(rows: &[u8], to: &mut [u8]) -> Option<Made>
    requires { Front rows.now × (kind_no (row_no (row_table rows.now) 0) ≡ 10) × (kind_no (row_no (row_table rows.now) 1) ≡ 3) }
    ensures { (form : ℕ → Form) → IfSome result (λ m. MadeAtOnce form (row_table rows.now) (row_table to.new) m) }
{
    let end = terms::end_of(rows, 2);
    let old = terms::end_of(rows, end);
    let n = end - 2;
    if layout::term_rows(to) < n {
        return None;
    }
    put::copy_rows(to, 0, rows, 2, n);
    Some(Made { end: old, rows: n })
}

// Of a fix of a function with a name: the function of the others.
fn tie_once(types: &Types, rows: &[u8], to: &mut [u8]) -> Option<Made>
    requires { Front rows.now × TiesAt (form_of types.now) (row_table rows.now) × (length to.old ≤ 32768) }
    ensures { IfSome result (λ m. MadeAtOnce (form_of types.now) (row_table rows.now) (row_table to.new) m) }
{
    if to.len() < layout::TERM_ROW {
        return None;
    }
    let r = places::row_of(rows, 0);
    let old = terms::end_of(rows, 0);
    let c = places::row_of(rows, 1);
    let name = put::param_name(types, c.ty, 0);
    put::write_row(to, 0, places::made(Kind::Native, 0, r.ty));
    let body = put::put_one(
        types,
        rows,
        2,
        name,
        Span { from: 0, to: old },
        &mut to[layout::TERM_ROW..],
    )?;
    Some(Made {
        end: old,
        rows: body.rows + 1,
    })
}

// Of a zip whose masked arguments are lists: nil, or a cons.
pub fn zip_once(types: &Types, rows: &[u8], to: &mut [u8]) -> Option<Made>
    requires { Front rows.now × (kind_no (row_no (row_table rows.now) 0) ≡ 8) × (kind_no (row_no (row_table rows.now) 1) ≡ 15) × (length to.old ≤ 32768) }
    ensures { IfSome result (λ m. MadeAtOnce (form_of types.now) (row_table rows.now) (row_table to.new) m) }
{
    let r = places::row_of(rows, 0);
    let n = r.n as usize;
    if 8 < n {
        return None;
    }
    let first = terms::end_of(rows, 1);
    let mut bounds = [0u16; 9];
    puts::fill_bounds::<true>(rows, first, n, &mut bounds);
    let e = layout::TERM_ROW * layout::wide(bounds[n]);
    zips::make_zip(types, &rows[..e], first, &bounds, to)
}

// Whether the rows begin with a call of a zip.
pub fn calls_zip(rows: &[u8]) -> bool
    requires { Front rows.now }
    ensures { result ≡ true → tree_zips (tree_of (term_rows rows.now)) ≡ true }
{
    places::row_of(rows, 0).is(Kind::Apply) && places::row_of(rows, 1).is(Kind::Zip)
}

// The rule of the first row, if it is one of these.
fn rule_at(types: &Types, rows: &[u8]) -> Option<Rule>
    requires { Front rows.now }
    ensures { IfSome result (Applies (form_of types.now) (row_table rows.now)) }
{
    match places::kind_at(rows, 0)? {
        Kind::Let => Some(Rule::Let),
        Kind::Apply => match places::kind_at(rows, 1)? {
            Kind::Native => Some(Rule::Call),
            Kind::Zip => Some(Rule::Zip),
            _ => None,
        },
        Kind::If if places::row_of(rows, 1).is(Kind::True) => Some(Rule::Then),
        Kind::Fix if puts::ties(types, rows) => Some(Rule::Tie),
        _ => None,
    }
}

// The rule of the first row is carried out, if it is one of these.
pub fn make(types: &Types, rows: &[u8], to: &mut [u8]) -> Option<Made>
    requires { Front rows.now × (length to.old ≤ 32768) }
    ensures { IfSome result (λ m. MadeAtOnce (form_of types.now) (row_table rows.now) (row_table to.new) m) }
{
    match rule_at(types, rows) {
        Some(Rule::Let) => let_once(types, rows, to),
        Some(Rule::Call) => call_once(types, rows, to),
        Some(Rule::Zip) => zip_once(types, rows, to),
        Some(Rule::Then) => if_once(rows, to),
        Some(Rule::Tie) => tie_once(types, rows, to),
        None => None,
    }
}

// Whether the first row has one of these rules, a zip's not among them.
pub fn goes(types: &Types, rows: &[u8]) -> bool
    requires { Front rows.now }
    ensures { result ≡ true → Goes (form_of types.now) (row_table rows.now) }
{
    let Some(rule) = rule_at(types, rows) else {
        return false;
    };
    rule != Rule::Zip
}
