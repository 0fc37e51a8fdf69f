// The names in scope, each with its type: the innermost first, in chains by what a name leaves over 256.
ghost use Rattle.std.specs.Prelude.{◌≡◌, ◌∷◌, ◌++◌, ℕ, ◌+◌, ◌-◌, ◌*◌, ◌≤◌, ◌<◌, length};
ghost use Rattle.meaning.specs.Types.{find, parts};
ghost use Rattle.meaning.specs.Typing.{given};
ghost use Rattle.layout.specs.Forms.{says};
ghost use Rattle.quick.specs.Names.{packed, name_in, type_in, link_in, in_scope, NamesChained};

use layout::views::Types;

// An entry: the name, its type, and the entry that is next in its chain.
fn entry(name: u16, ty: u16, link: u16) -> u64
    ensures { result ≡ packed name ty link }
{
    name as u64 + 65536 * ty as u64 + 4294967296 * link as u64
}

fn name_in(e: u64) -> u16
    ensures { result ≡ name_in e }
{
    (e % 65536) as u16
}

fn type_in(e: u64) -> u16
    ensures { result ≡ type_in e }
{
    (e / 65536 % 65536) as u16
}

fn link_in(e: u64) -> u16
    ensures { result ≡ link_in e }
{
    (e / 4294967296 % 65536) as u16
}

// One name more, of type t; entry b was the innermost.
pub fn bind(bound: &mut [u64], heads: &mut [u16], b: usize, x: u16, t: u16) -> usize
    requires { NamesChained bound.old heads.old b × (0 < b) }
    ensures { (result + 1 ≡ b) × (length bound.new ≡ length bound.old) × NamesChained bound.new heads.new result × (in_scope bound.new result ≡ record { name = x; type = t } ∷ in_scope bound.old b) }
{
    let h = (x % 256) as usize;
    let j = b - 1;
    bound[j] = entry(x, t, heads[h]);
    heads[h] = j as u16;
    j
}

// The n innermost names fall out of scope.
pub fn unbind(bound: &[u64], heads: &mut [u16], b: usize, n: usize) -> usize
    requires { NamesChained bound.now heads.old b × (b + n ≤ length bound.now) }
    ensures { (result ≡ b + n) × NamesChained bound.now heads.new result }
{
    for j in b..b + n {
        let e = bound[j];
        heads[(name_in(e) % 256) as usize] = link_in(e);
    }
    b + n
}

// The names of the parts of type t, the first one innermost.
#[tactic(auto, using(crate::proofs::Chains::parts_bound))]
pub fn bind_parts(types: &Types, t: u16, bound: &mut [u64], heads: &mut [u16], b: usize) -> usize
    requires { NamesChained bound.old heads.old b × (8 ≤ b) }
    ensures { (result + length (parts (says types.now t)) ≡ b) × (length bound.new ≡ length bound.old) × NamesChained bound.new heads.new result × (in_scope bound.new result ≡ parts (says types.now t) ++ in_scope bound.old b) }
{
    let mut j = b;
    for k in (0..types.parts_of(t)).rev() {
        j = bind(bound, heads, j, types.name_of(t, k), types.type_of(t, k));
    }
    j
}

// Whether the name x has type t.
pub fn means(bound: &[u64], heads: &[u16], x: u32, t: u16) -> bool
    requires { (b : ℕ) × NamesChained bound.now heads.now b }
    ensures { (b : ℕ) → NamesChained bound.now heads.now b → result ≡ given (find (in_scope bound.now b) x) t }
{
    let all = bound.len();
    let mut j = layout::wide(heads[(x % 256) as usize]);
    // A while: each entry names the next one of its chain.
    while j < all {
        let e = bound[j];
        if layout::word_of(name_in(e)) == x {
            return type_in(e) == t;
        }
        j = layout::wide(link_in(e));
    }
    false
}
