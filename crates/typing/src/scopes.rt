// The rule of each row below the binders around it, and the binders that a row's children see.
#![tactic(auto, using(crate::proofs::Judging::rows_judged), unfolding(meaning::specs::Terms::row_of, rules::specs::Forms::fixed_rule))]

ghost use Rattle.std.specs.Prelude.{◌≡◌, ◌+◌, ◌*◌, ◌/◌, ◌≤◌, ◌<◌, length, get_or, drop};
ghost use Rattle.meaning.specs.Bytes.{read, term_row};
ghost use Rattle.meaning.specs.Types.{empty};
ghost use Rattle.meaning.specs.Terms.{kind_no, arity, row_of, tree_at};
ghost use Rattle.layout.specs.Rows.{term_rows};
ghost use Rattle.rules.specs.Forms.{forms, FixedKind};
ghost use Rattle.typing.specs.Scope.{judged, around, hand_on, inner_of, Binders};

use crate::tree::Tree;
use crate::{names, stated};
use layout::Row;
use layout::forms::Form;
use layout::kinds::Kind;
use layout::views::Types;
use rules::kinds;

// A row that has no children and is of a fixed kind.
pub fn leaf_ok(types: &Types, rows: &[u8], i: usize) -> bool
    requires { (i < length rows.now / 8) × FixedKind (kind_no (read term_row (drop (8 * i) rows.now))) × (arity (row_of (read term_row (drop (8 * i) rows.now))).head ≡ 0) }
    ensures { result ≡ judged (forms types.now) empty (tree_at (term_rows rows.now) i) }
{
    rules::fixed_ok(types, layout::row_at(rows, i), 0, 0, 0)
}

impl<'a> Tree<'a> {
    // A variable has its binder's type.
    fn variable_ok(&self, scope: &[u16], i: usize) -> bool
        requires { Binders self.now.rows.now scope.now (length self.now.rows.now / 8) × (i < length self.now.rows.now / 8) × (kind_no (read term_row (drop (8 * i) self.now.rows.now)) ≡ 5) }
        ensures { result ≡ judged (forms self.now.types.now) (around (forms self.now.types.now) (term_rows self.now.rows.now) scope.now i) (tree_at (term_rows self.now.rows.now) i) }
    {
        let r = layout::row_at(self.rows, i);
        names::lookup(self.types, self.rows, scope, layout::wide(scope[i]), r.word) == Some(r.ty)
    }

    // A function type with n arguments, of the types that the others state.
    fn apply_ok(&self, i: usize) -> bool
        requires { (i < length self.now.rows.now / 8) × (kind_no (read term_row (drop (8 * i) self.now.rows.now)) ≡ 8) }
        ensures { result ≡ judged (forms self.now.types.now) empty (tree_at (term_rows self.now.rows.now) i) }
    {
        let r = layout::row_at(self.rows, i);
        let c = stated::type_at(self.rows, i + 1);
        if !self.types.is_function(c) {
            return false;
        }
        if self.types.result_of(c) != r.ty {
            return false;
        }
        let at = stated::next(self.rows, self.ends, i + 1);
        stated::same_types(self.types, c, self.rows, self.ends, at, r.n as usize)
    }

    // The child is a native function, and its type is as fix asks.
    fn fix_ok(&self, i: usize) -> bool
        requires { (i < length self.now.rows.now / 8) × (kind_no (read term_row (drop (8 * i) self.now.rows.now)) ≡ 11) }
        ensures { result ≡ judged (forms self.now.types.now) empty (tree_at (term_rows self.now.rows.now) i) }
    {
        let r = layout::row_at(self.rows, i);
        stated::is_native(self.rows, i + 1)
            && kinds::fix_ok(self.types, r.ty, stated::type_at(self.rows, i + 1))
    }

    // A tuple by element.
    fn tuple_ok(&self, i: usize) -> bool
        requires { (i < length self.now.rows.now / 8) × (kind_no (read term_row (drop (8 * i) self.now.rows.now)) ≡ 16) }
        ensures { result ≡ judged (forms self.now.types.now) empty (tree_at (term_rows self.now.rows.now) i) }
    {
        let r = layout::row_at(self.rows, i);
        self.types.is(r.ty, Form::Tuple)
            && stated::same_types(self.types, r.ty, self.rows, self.ends, i + 1, r.n as usize)
    }

    // A row of a fixed kind, by what its first three children state.
    fn fixed_ok(&self, i: usize) -> bool
        requires { (i < length self.now.rows.now / 8) × FixedKind (kind_no (read term_row (drop (8 * i) self.now.rows.now))) }
        ensures { result ≡ judged (forms self.now.types.now) empty (tree_at (term_rows self.now.rows.now) i) }
    {
        let r = layout::row_at(self.rows, i);
        let p = i + 1;
        let q = stated::next(self.rows, self.ends, p);
        let s = stated::next(self.rows, self.ends, q);
        let a = stated::type_at(self.rows, p);
        let b = stated::type_at(self.rows, q);
        let c = stated::type_at(self.rows, s);
        rules::fixed_ok(self.types, r, a, b, c)
    }

    // A row of a fixed kind.
    fn other_ok(&self, i: usize) -> bool
        requires { (i < length self.now.rows.now / 8) × FixedKind (kind_no (read term_row (drop (8 * i) self.now.rows.now))) }
        ensures { result ≡ judged (forms self.now.types.now) empty (tree_at (term_rows self.now.rows.now) i) }
    {
        if terms::children(layout::row_at(self.rows, i)) == 0 {
            leaf_ok(self.types, self.rows, i)
        } else {
            self.fixed_ok(i)
        }
    }

    // Whether row i keeps its rule.
    #[tactic(auto, using(crate::proofs::Judging::rows_alike))]
    pub fn row_ok(&self, scope: &[u16], i: usize) -> bool
        requires { Binders self.now.rows.now scope.now (length self.now.rows.now / 8) × (i < length self.now.rows.now / 8) }
        ensures { result ≡ judged (forms self.now.types.now) (around (forms self.now.types.now) (term_rows self.now.rows.now) scope.now i) (tree_at (term_rows self.now.rows.now) i) }
    {
        match layout::row_at(self.rows, i).kind() {
            Some(Kind::Variable) => self.variable_ok(scope, i),
            Some(Kind::Apply) => self.apply_ok(i),
            Some(Kind::Fix) => self.fix_ok(i),
            Some(Kind::Tuple) => self.tuple_ok(i),
            _ => self.other_ok(i),
        }
    }

    // The children of row i get the innermost binder around them.
    #[tactic(auto, using(crate::proofs::Walking::rows_handed), unfolding(meaning::specs::Terms::row_of))]
    pub fn hand_on(&self, scope: &mut [u16], i: usize)
        requires { (length self.now.rows.now / 8 ≤ length scope.old) × (i < length self.now.rows.now / 8) }
        ensures { scope.new ≡ hand_on (term_rows self.now.rows.now) (inner_of (kind_no (read term_row (drop (8 * i) self.now.rows.now))) (get_or scope.old i 0) (i + 1)) 0 (arity (row_of (read term_row (drop (8 * i) self.now.rows.now))).head) (i + 1) scope.old }
    {
        let r = layout::row_at(self.rows, i);
        let outer = scope[i];
        let own = (i + 1) as u16;
        let mut p = i + 1;
        for k in 0..terms::children(r) {
            scope[p] = inner(r, outer, own, k);
            p = layout::wide(self.ends[p]);
        }
    }
}

// What the array has for a child: the binder around its parent, or the parent itself where that binds names there.
fn inner(r: Row, outer: u16, own: u16, place: usize) -> u16
    ensures { result ≡ inner_of r.kind outer own place }
{
    match r.kind() {
        Some(Kind::Native) => own,
        Some(Kind::Let) if place != 0 => own,
        _ => outer,
    }
}
