// What rows state, by their place; behind the last row nothing is stated.
#![tactic(auto, using(crate::proofs::ByRow::rows_state))]

ghost use Rattle.std.specs.Prelude.{◌≡◌, ◌+◌, ◌/◌, ◌≤◌, length};
ghost use Rattle.layout.specs.Rows.{term_rows};
ghost use Rattle.meaning.specs.Types.{same_numbers};
ghost use Rattle.meaning.specs.Terms.{is, ty_of, sizes, tree_at, grove};
ghost use Rattle.meaning.specs.Typing.{list, tys};
ghost use Rattle.layout.specs.Forms.{says, part_types};
ghost use Rattle.typing.specs.Scope.{behind, Ready};

use layout::kinds::Kind;
use layout::views::Types;

// The type that the tree at row p states.
pub fn type_at(rows: &[u8], p: usize) -> u16
    ensures { result ≡ ty_of (tree_at (term_rows rows.now) p) }
{
    if p < layout::term_rows(rows) {
        layout::row_at(rows, p).ty
    } else {
        0
    }
}

// Whether the tree at row p is a native function.
pub fn is_native(rows: &[u8], p: usize) -> bool
    ensures { result ≡ is 6 (tree_at (term_rows rows.now) p) }
{
    p < layout::term_rows(rows) && layout::row_at(rows, p).is(Kind::Native)
}

// The row behind the tree at row p.
pub fn next(rows: &[u8], ends: &[u16], p: usize) -> usize
    requires { length rows.now / 8 ≤ length ends.now }
    ensures { result ≡ behind ends.now (length rows.now / 8) p }
{
    if p < layout::term_rows(rows) {
        layout::wide(ends[p])
    } else {
        p
    }
}

// Whether the n trees from row `at` on state the types of the parts of t.
#[tactic(auto, using(crate::proofs::ByRow::types_alike))]
pub fn same_types(types: &Types, t: u16, rows: &[u8], ends: &[u16], at: usize, n: usize) -> bool
    requires { Ready rows.now ends.now × (at + sizes (grove (term_rows rows.now) at n) ≤ length rows.now / 8) }
    ensures { result ≡ same_numbers (list (tys (grove (term_rows rows.now) at n))) (part_types (says types.now t)) }
{
    if types.parts_of(t) != n {
        return false;
    }
    let mut p = at;
    for k in 0..n {
        if type_at(rows, p) != types.type_of(t, k) {
            return false;
        }
        p = next(rows, ends, p);
    }
    true
}
