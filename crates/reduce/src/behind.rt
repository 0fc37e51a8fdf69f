// Rules that make the end of their tree: it stands already, behind some rows.
ghost use Rattle.std.specs.Prelude.{◌≡◌, IfSome};
ghost use Rattle.layout.specs.Rows.{row_table};
ghost use Rattle.meaning.specs.Terms.{kind_no};
ghost use Rattle.reduce.specs.Plan.{row_no};
ghost use Rattle.reduce.specs.Behind.{Begins, EndStands};

use crate::places;
use layout::kinds::Kind;

// Of a call of a native function without arguments: its body stands behind two rows.
pub fn before_body(rows: &[u8]) -> Option<usize>
    requires { Begins rows.now × (kind_no (row_no (row_table rows.now) 0) ≡ 8) }
    ensures { IfSome result (EndStands rows.now) }
{
    if places::row_of(rows, 0).n == 0 && places::row_of(rows, 1).is(Kind::Native) {
        return Some(2);
    }
    None
}

// "when the child is true or false": of false, the last tree.
pub fn before_else(rows: &[u8]) -> Option<usize>
    requires { Begins rows.now × (kind_no (row_no (row_table rows.now) 0) ≡ 10) }
    ensures { IfSome result (EndStands rows.now) }
{
    if places::row_of(rows, 1).is(Kind::False) {
        return Some(terms::end_of(rows, 2));
    }
    None
}

// Of a tuple, its last element.
pub fn before_last(rows: &[u8]) -> Option<usize>
    requires { Begins rows.now × (kind_no (row_no (row_table rows.now) 0) ≡ 17) }
    ensures { IfSome result (EndStands rows.now) }
{
    let place = places::row_of(rows, 0).n;
    let tuple = places::row_of(rows, 1);
    if tuple.is(Kind::Tuple) && place != 0 && place == tuple.n {
        return Some(places::past_trees(rows, 2, place as usize - 1));
    }
    None
}

// How many rows stand before the tree that the rule of the first row makes, where it is the end of the first tree.
pub fn rows_before(rows: &[u8]) -> Option<usize>
    requires { Begins rows.now }
    ensures { IfSome result (EndStands rows.now) }
{
    // Tests, no match on the kind: it is asked at every step, and a jump by a table is slower.
    let first = places::row_of(rows, 0);
    if first.is(Kind::Apply) {
        return before_body(rows);
    }
    if first.is(Kind::If) {
        return before_else(rows);
    }
    if first.is(Kind::Project) {
        return before_last(rows);
    }
    None
}
