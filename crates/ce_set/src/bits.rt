ghost use Rattle.std.specs.Prelude.{◌≡◌, ℕ, ◌^◌, ◌<◌};
ghost use Rattle.ce_model.specs.Limits.{greatest_dim};
ghost use Rattle.ce_model.specs.Subcubes.{deposit, extract, ones_of, IsPart};

use ce_model::GREATEST_DIMENSION;

/// The bits of `r`, put on the one bits of the mask from the lowest up. The mask is below
/// `GREATEST_NODES`. A number r below 2^d, for a mask of d one bits, comes back by `extract`; a
/// greater number loses its further bits.
pub fn deposit(r: u32, mask: u32) -> u32
    requires { mask < 2 ^ greatest_dim }
    ensures value { result ≡ deposit r mask }
    ensures inside { IsPart result mask }
    ensures back { r < 2 ^ ones_of greatest_dim mask → extract result mask ≡ r }
    ensures order { (s : ℕ) → s < r → r < 2 ^ ones_of greatest_dim mask → deposit s mask < result }
{
    let mut node = 0;
    let mut bits_left = r;
    let mut mask_left = mask;
    for place in 0..GREATEST_DIMENSION {
        if mask_left & 1 == 1 {
            node += (bits_left & 1) << place;
            bits_left >>= 1;
        }
        mask_left >>= 1;
    }
    node
}

/// The bits of `node` at the one bits of the mask, moved together from the lowest up. The mask is
/// below `GREATEST_NODES`. A number whose one bits are all in the mask comes back by `deposit`.
pub fn extract(node: u32, mask: u32) -> u32
    requires { mask < 2 ^ greatest_dim }
    ensures value { result ≡ extract node mask }
    ensures small { result < 2 ^ ones_of greatest_dim mask }
    ensures back { node < 2 ^ greatest_dim → IsPart node mask → deposit result mask ≡ node }
    ensures order { (other : ℕ) → other < node → node < 2 ^ greatest_dim
        → IsPart other mask → IsPart node mask → extract other mask < result }
{
    let mut r = 0;
    let mut bit_count = 0u32;
    let mut bits_left = node;
    let mut mask_left = mask;
    for place in 0..GREATEST_DIMENSION {
        if mask_left & 1 == 1 {
            r += (bits_left & 1) << bit_count;
            bit_count += 1;
        }
        bits_left >>= 1;
        mask_left >>= 1;
    }
    r
}
