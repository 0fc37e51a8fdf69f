// Tables of term rows as trees, over a view of the table.
#![tactic(auto, using(crate::proofs::Walk::walks))]

ghost use Rattle.std.specs.Prelude.{◌≡◌, true, ◌+◌, ◌≤◌, ◌<◌, length, get_or, map, Ok};
ghost use Rattle.std.specs.Bool.{OnTrue};
ghost use Rattle.meaning.specs.Terms.{row_of, size, tree_at, shape};
ghost use Rattle.terms.specs.Tables.{Links, Closed, Ends};

use crate::{CHILDREN, RANGES, children, faultless, listed, row_fault};
use layout::kinds::Kind;
use layout::views::Rows;
use meaning::Fault;

// Whether at row i stands a cons with a head of one row, by the table of children.
fn links(rows: &Rows, i: usize) -> bool
    requires { i < length rows.now }
    ensures linked { OnTrue result (Links rows.now i) }
    ensures few { i < 4096 }
{
    if !rows.at(i).is(Kind::Cons) || rows.len() <= i + 1 {
        return false;
    }
    let k = rows.at(i + 1).kind as usize;
    k < 20 && CHILDREN[k] == 0
}

// Whether the rows are seen at once to be one whole tree, each row in range: no row is taken apart by its kind.
fn whole_at_once(rows: &Rows, count: u16, edition: u16) -> bool
    ensures { result ≡ true → shape edition count rows.now ≡ Ok tt }
{
    if edition != layout::EDITION {
        return false;
    }
    let mut owed: usize = 1;
    for i in 0..rows.len() {
        let r = rows.at(i);
        if owed == 0 || !faultless(&RANGES, r, count) {
            return false;
        }
        owed = owed - 1 + listed(&CHILDREN, r);
    }
    owed == 0
}

// Whether the rows are one whole tree, each row in range; else the first fault.
pub fn check_shape(rows: &Rows, count: u16, edition: u16) -> Result<(), (Fault, u32)>
    ensures { result ≡ shape edition count rows.now }
{
    if whole_at_once(rows, count, edition) {
        return Ok(());
    }
    let mut owed: usize = 1;
    for i in 0..rows.len() {
        let r = rows.at(i);
        if let Some(fault) = row_fault(r, count, edition) {
            return Err((fault, i as u32));
        }
        if owed == 0 {
            return Err((Fault::Behind, i as u32));
        }
        owed = owed - 1 + children(r);
    }
    if owed == 0 {
        Ok(())
    } else {
        Err((Fault::Unfinished, rows.len() as u32))
    }
}

// The row behind the tree at row `at`, by a running count of the trees still owed. A while: it ends with the trees, wherever that is. Out of line: where
// it stood in the plans of rules, what a plan tells was set anew for each row.
#[inline(never)]
pub fn end_of(rows: &Rows, at: usize) -> usize
    requires { at + size (tree_at (map row_of rows.now) at) ≤ length rows.now }
    ensures { result ≡ at + size (tree_at (map row_of rows.now) at) }
{
    let mut owed: usize = 1;
    let mut i = at;
    while 0 < owed {
        owed = owed - 1 + children(rows.at(i));
        i += 1;
    }
    i
}

// The same of a tree that may have many rows: children are counted by the table, and a list's elements of one row are passed two rows at a time.
// A while: a turn takes one row or two.
pub fn far_end(rows: &Rows, at: usize) -> usize
    requires { at + size (tree_at (map row_of rows.now) at) ≤ length rows.now }
    ensures { result ≡ at + size (tree_at (map row_of rows.now) at) }
{
    let mut owed: usize = 1;
    let mut i = at;
    while 0 < owed {
        if links(rows, i) {
            i += 2;
        } else {
            owed = owed - 1 + listed(&CHILDREN, rows.at(i));
            i += 1;
        }
    }
    i
}

// For each row, from the last one back, the row behind its tree.
pub fn ends(rows: &Rows, ends: &mut [u16])
    requires { (length rows.now ≤ length ends.old) × Closed (map row_of rows.now) (length rows.now) }
    ensures { Ends (map row_of rows.now) (length rows.now) ends.new }
{
    for i in (0..rows.len()).rev() {
        let e = crate::past(ends, i + 1, children(rows.at(i)));
        ends[i] = e as u16;
    }
}
