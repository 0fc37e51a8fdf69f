// The names that a function's type binds.
ghost use Rattle.std.specs.Prelude.{◌≡◌};
ghost use Rattle.meaning.specs.Types.{find, params};
ghost use Rattle.rules.specs.Forms.{forms};

use crate::kinds;
use layout::views::Types;

// The type of the name x among those that a function of type t binds.
#[tactic(auto, using(crate::proofs::Finding::names_found))]
pub fn param_named(types: &Types, t: u16, x: u32) -> Option<u16>
    ensures { result ≡ find (params (forms types.now t)) x }
{
    if !types.is_function(t) {
        return None;
    }
    for k in 0..types.parts_of(t) {
        if layout::word_of(types.name_of(t, k)) == x {
            return Some(types.type_of(t, k));
        }
    }
    None
}
