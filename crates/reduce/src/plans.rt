// What the rule of a row makes, by its kind and the kinds below it.
ghost use Rattle.std.specs.Prelude.{◌≡◌, true, ℕ, ◌-◌, ◌<◌};
ghost use Rattle.layout.specs.Rows.{type_table, row_table};
ghost use Rattle.meaning.specs.Types.{Form, form_of};
ghost use Rattle.meaning.specs.Terms.{kind_no, is};
ghost use Rattle.reduce.specs.Rule.{Redex};
ghost use Rattle.reduce.specs.Plan.{row_no, Plans};

use crate::{Plan, places, puts};
use layout::kinds::Kind;
use layout::views::Types;

// "when the child is true or false": the branch taken.
pub fn plan_if(rows: &[u8]) -> Plan
    requires { Redex rows.now × (kind_no (row_no (row_table rows.now) 0) ≡ 10) }
    ensures { (form : ℕ → Form) → Plans form (row_table rows.now) result }
{
    match places::kind_at(rows, 1) {
        Some(Kind::True) => Plan::Part(2, terms::end_of(rows, 2)),
        Some(Kind::False) => Plan::Part(terms::end_of(rows, 2), layout::term_rows(rows)),
        _ => Plan::Stays,
    }
}

// "nil or cons", "elements unevaluated".
pub fn plan_isnil(rows: &[u8]) -> Plan
    requires { Redex rows.now × (kind_no (row_no (row_table rows.now) 0) ≡ 14) }
    ensures { (form : ℕ → Form) → Plans form (row_table rows.now) result }
{
    match places::kind_at(rows, 1) {
        Some(Kind::Nil) => Plan::Leaf(Kind::True),
        Some(Kind::Cons) => Plan::Leaf(Kind::False),
        _ => Plan::Stays,
    }
}

// Of a tuple, the element at the row's place.
pub fn plan_project(rows: &[u8]) -> Plan
    requires { Redex rows.now × (kind_no (row_no (row_table rows.now) 0) ≡ 17) }
    ensures { (form : ℕ → Form) → Plans form (row_table rows.now) result }
{
    let place = places::row_of(rows, 0).n;
    let tuple = places::row_of(rows, 1);
    if tuple.is(Kind::Tuple) && place != 0 && place <= tuple.n {
        let at = places::past_trees(rows, 2, place as usize - 1);
        return Plan::Part(at, terms::end_of(rows, at));
    }
    Plan::Stays
}

// Of a list, "a cons of the projected head and the list-projected tail".
pub fn plan_lproject(rows: &[u8]) -> Plan
    requires { Redex rows.now × (kind_no (row_no (row_table rows.now) 0) ≡ 18) }
    ensures { (form : ℕ → Form) → Plans form (row_table rows.now) result }
{
    match places::kind_at(rows, 1) {
        Some(Kind::Nil) => Plan::Leaf(Kind::Nil),
        Some(Kind::Cons) => Plan::Pair(terms::end_of(rows, 2)),
        _ => Plan::Stays,
    }
}

// Of a function with a name, the function of the others.
pub fn plan_fix(types: &Types, rows: &[u8]) -> Plan
    requires { Redex rows.now × (kind_no (row_no (row_table rows.now) 0) ≡ 11) }
    ensures { Plans (form_of types.now) (row_table rows.now) result }
{
    if puts::ties(types, rows) {
        Plan::Tie
    } else {
        Plan::Stays
    }
}

// Of a call, by its function: a native function's body, a zip.
pub fn plan_call(rows: &[u8]) -> Plan
    requires { Redex rows.now × (kind_no (row_no (row_table rows.now) 0) ≡ 8) }
    ensures { (form : ℕ → Form) → Plans form (row_table rows.now) result }
{
    match places::kind_at(rows, 1) {
        Some(Kind::Native) => Plan::Call(terms::end_of(rows, 1)),
        Some(Kind::Zip) => Plan::Zip(terms::end_of(rows, 1)),
        _ => Plan::Stays,
    }
}

// Of a let: its body with the bound term put.
pub fn plan_let(rows: &[u8]) -> Plan
    requires { Redex rows.now × (kind_no (row_no (row_table rows.now) 0) ≡ 19) }
    ensures { (form : ℕ → Form) → Plans form (row_table rows.now) result }
{
    Plan::Let(terms::end_of(rows, 1))
}

// What the rule of the first row makes.
pub fn plan_of(types: &Types, rows: &[u8]) -> Plan
    requires { Redex rows.now }
    ensures { Plans (form_of types.now) (row_table rows.now) result }
{
    match places::kind_at(rows, 0) {
        Some(Kind::Apply) => plan_call(rows),
        Some(Kind::If) => plan_if(rows),
        Some(Kind::Fix) => plan_fix(types, rows),
        Some(Kind::IsNil) => plan_isnil(rows),
        Some(Kind::Project) => plan_project(rows),
        Some(Kind::ListProject) => plan_lproject(rows),
        Some(Kind::Let) => plan_let(rows),
        _ => Plan::Stays,
    }
}
