// What is still to be seen, on a stack that grows from the end of an array to its front.
#![tactic(auto, using(crate::proofs::Owing::dues_kept))]

ghost use Rattle.std.specs.Prelude.{◌≡◌, ◌∷◌, ◌++◌, map, ◌+◌, ◌≤◌, ◌<◌, length};
ghost use Rattle.layout.specs.Forms.{says, part_types};
ghost use Rattle.quick.specs.Dues.{wanted, ends, begins, due, dues};

use layout::views::Types;

// The numbers from which on one means the end of a scope, and the beginning of one.
pub const ENDS: u32 = 65536;

pub const BEGINS: u32 = 131072;

// One number more.
fn push(stack: &mut [u32], s: usize, e: u32) -> usize
    requires { (0 < s) × (s ≤ length stack.old) }
    ensures { (result + 1 ≡ s) × (length stack.new ≡ length stack.old) × (dues stack.new result ≡ due e ∷ dues stack.old s) }
{
    let j = s - 1;
    stack[j] = e;
    j
}

// A tree of type t.
pub fn want(stack: &mut [u32], s: usize, t: u16) -> usize
    requires { (0 < s) × (s ≤ length stack.old) }
    ensures { (result + 1 ≡ s) × (length stack.new ≡ length stack.old) × (dues stack.new result ≡ wanted t ∷ dues stack.old s) }
{
    push(stack, s, layout::word_of(t))
}

// The end of the scope of n names.
pub fn end_scope(stack: &mut [u32], s: usize, n: usize) -> usize
    requires { (0 < s) × (s ≤ length stack.old) × (n ≤ 8) }
    ensures { (result + 1 ≡ s) × (length stack.new ≡ length stack.old) × (dues stack.new result ≡ ends n ∷ dues stack.old s) }
{
    push(stack, s, ENDS + n as u32)
}

// The beginning of the scope of the name of row i.
pub fn begin_scope(stack: &mut [u32], s: usize, i: usize) -> usize
    requires { (0 < s) × (s ≤ length stack.old) × (i ≤ 4096) }
    ensures { (result + 1 ≡ s) × (length stack.new ≡ length stack.old) × (dues stack.new result ≡ begins i ∷ dues stack.old s) }
{
    push(stack, s, BEGINS + i as u32)
}

// Trees of the types of the parts of type t.
#[tactic(auto, using(crate::proofs::Owing::parts_wanted))]
pub fn want_parts(types: &Types, t: u16, stack: &mut [u32], s: usize) -> usize
    requires { (8 ≤ s) × (s ≤ length stack.old) }
    ensures { (result + length (part_types (says types.now t)) ≡ s) × (length stack.new ≡ length stack.old) × (dues stack.new result ≡ map wanted (part_types (says types.now t)) ++ dues stack.old s) }
{
    let mut j = s;
    for k in (0..types.parts_of(t)).rev() {
        j = want(stack, j, types.type_of(t, k));
    }
    j
}
