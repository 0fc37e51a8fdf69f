// The bits of a mask.
ghost use Rattle.std.specs.Prelude.{◌≡◌};
ghost use Rattle.terms.specs.Masks.{bit};

// Bit i of a mask.
#[tactic(auto, using(crate::proofs::Rules::masks_mask_bit_laws))]
pub fn mask_bit(m: u8, i: usize) -> bool
    ensures { result ≡ bit m i }
{
    i < 8 && (m >> i) % 2 == 1
}
