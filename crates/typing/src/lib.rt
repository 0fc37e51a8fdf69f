// The first row that fails typing: rows are judged in order, each by its own rule and the binders around it.
#![tactic(auto)]

mod names;
mod scopes;
pub mod stated;
mod tree;

ghost use Rattle.std.specs.Prelude.{◌≡◌, true, ◌/◌, ◌≤◌, length};
ghost use Rattle.std.specs.Prelude.{None};
ghost use Rattle.layout.specs.Rows.{type_table, term_rows};
ghost use Rattle.terms.specs.Tables.{Closed};
ghost use Rattle.meaning.specs.Types.{form_of, empty};
ghost use Rattle.meaning.specs.Terms.{tree_of};
ghost use Rattle.meaning.specs.Typing.{first_bad};
ghost use Rattle.rules.specs.Forms.{forms};
ghost use Rattle.typing.specs.Scope.{walk, Binders};

use layout::kinds::Kind;
use layout::views::Types;
use tree::Tree;

// The first row that fails in the tree at row 0, below no binder. The array is filled from the root down with the innermost binder
// around each row.
#[tactic(auto, using(crate::proofs::Walking::rows_walked))]
fn judge(tree: &Tree, scope: &mut [u16]) -> Option<u32>
    requires { Binders tree.now.rows.now scope.old 0 }
    ensures { result ≡ walk (forms tree.now.types.now) (term_rows tree.now.rows.now) scope.old 1 0 }
{
    for i in 0..layout::term_rows(tree.rows) {
        if !tree.row_ok(scope, i) {
            return Some(i as u32);
        }
        tree.hand_on(scope, i);
    }
    None
}

// Refusals 9 and 15: the first row that fails typing.
pub fn first_bad(types: &Types, rows: &[u8]) -> Option<u32>
    requires { (length rows.now ≤ 16384) × Closed (term_rows rows.now) (length rows.now / 8) }
    ensures { result ≡ first_bad (form_of types.now) empty (tree_of (term_rows rows.now)) }
{
    let mut ends = [0u16; 2048];
    terms::ends(rows, &mut ends);
    let mut scope = [0u16; 2048];
    let tree = Tree {
        types,
        rows,
        ends: &ends,
    };
    judge(&tree, &mut scope)
}

// Whether row i, which has no children, is seen by itself to fail typing, if the rows are one tree.
pub fn leaf_fails(types: &Types, rows: &[u8], i: usize) -> bool
    ensures { result ≡ true → Closed (term_rows rows.now) (length rows.now / 8) → first_bad (form_of types.now) empty (tree_of (term_rows rows.now)) ≡ None → ⊥ }
{
    if layout::term_rows(rows) <= i {
        return false;
    }
    let r = layout::row_at(rows, i);
    if terms::children(r) != 0 {
        return false;
    }
    match r.kind() {
        Some(Kind::Variable | Kind::Apply | Kind::Fix | Kind::Tuple) => false,
        _ => !scopes::leaf_ok(types, rows, i),
    }
}
