ghost use Rattle.std.specs.Prelude.{◌≡◌, ℕ, ◌+◌, ◌/◌, ◌%◌, ◌^◌, ◌<◌, ◌≤◌, ◌==◌, ◌&&◌, find, IsTrue};
ghost use Rattle.ce_model.specs.Limits.{greatest_dim};
ghost use Rattle.ce_model.specs.Parcels.{is_member};
ghost use Rattle.ce_model.specs.Subcubes.{relative_number, node_of, is_inside, is_base, has_node, ones_of, first_free_subcube, are_all_nodes, subcube, subcubes_with_mask};

use crate::{deposit, extract};
use ce_model::{GREATEST_DIMENSION, GREATEST_NODES, HOST, NodeSet, Subcube};

/// The node that the subcube has as its relative node `r`. The mask and the base are below
/// `GREATEST_NODES` and have no bit in common, and r is below 2^d, where the mask has d one bits.
pub fn node_of(sub: &Subcube, r: u32) -> u32
    requires mask_within { sub.now.mask < 2 ^ greatest_dim }
    requires base_within { sub.now.base < 2 ^ greatest_dim }
    requires apart { IsTrue (is_base sub.now.mask sub.now.base) }
    requires relative { r < 2 ^ ones_of greatest_dim sub.now.mask }
    ensures { result ≡ node_of sub.now r }
{
    sub.base + deposit(r, sub.mask)
}

/// The number by which a cube on the subcube knows a node of the machine; the host keeps its own,
/// `HOST`. Of the mask only the bits of the greatest machine's dimensions count.
pub fn relative_number(sub: &Subcube, node: u32) -> u32
    ensures { result ≡ relative_number sub.now node }
{
    if node == HOST {
        HOST
    } else {
        extract(node, sub.mask % GREATEST_NODES)
    }
}

/// The nodes of the subcube. The mask and the base are below `GREATEST_NODES` and have no bit in
/// common.
pub fn nodes_of(sub: &Subcube) -> NodeSet
    requires mask_within { sub.now.mask < 2 ^ greatest_dim }
    requires base_within { sub.now.base < 2 ^ greatest_dim }
    requires apart { IsTrue (is_base sub.now.mask sub.now.base) }
    ensures { (node : ℕ) → has_node result node ≡ is_inside sub.now node }
{
    let mut nodes = 1u64 << sub.base;
    for place in (0..GREATEST_DIMENSION).rev() {
        if sub.mask >> place & 1 == 1 {
            nodes |= nodes << (1u32 << place);
        }
    }
    NodeSet(nodes)
}

/// The first subcube of dimension `d` whose nodes are all in the set, by rising mask and then by
/// rising base; None exactly where there is none, so wherever d is more than the machine's
/// dimension `dim`, which is at most `GREATEST_DIMENSION`. The set has nodes of the machine alone.
pub fn first_free(free_nodes: NodeSet, dim: u32, d: u32) -> Option<Subcube>
    requires dim_within { dim ≤ greatest_dim }
    requires nodes_within { free_nodes.0 < 2 ^ 2 ^ dim }
    ensures { result ≡ first_free_subcube (has_node free_nodes) dim d }
{
    for mask in 0..1u32 << dim {
        if mask.count_ones() == d
            && let Some(sub) = first_with(free_nodes, mask)
        {
            return Some(sub);
        }
    }
    None
}

// The first subcube with this mask whose nodes are all in the set.
fn first_with(free_nodes: NodeSet, mask: u32) -> Option<Subcube>
    requires { mask < 2 ^ greatest_dim }
    ensures { (dim : ℕ) → free_nodes.0 < 2 ^ 2 ^ dim → result
        ≡ find (are_all_nodes (has_node free_nodes) (ones_of greatest_dim mask))
        (subcubes_with_mask (2 ^ dim) mask) }
{
    let bases = bases_within(free_nodes.0, mask);
    if bases == 0 {
        return None;
    }
    let base = bases.trailing_zeros();
    Some(Subcube { mask, base })
}

// The bases of the subcubes with this mask whose nodes are all in the set.
fn bases_within(set: u64, mask: u32) -> u64
    requires { mask < 2 ^ greatest_dim }
    ensures { (n : ℕ) → is_member n result
        ≡ (is_base mask n && are_all_nodes (λ k. is_member k set) (ones_of greatest_dim mask)
        (subcube mask n)) }
{
    let mut bases = set;
    for place in (0..GREATEST_DIMENSION).rev() {
        if mask >> place & 1 == 1 {
            bases = lower_halves(bases, place);
        }
    }
    bases
}

// For each place the numbers that have a 0 there.
const CLEAR: [u64; GREATEST_DIMENSION as usize] = [
    0x5555_5555_5555_5555,
    0x3333_3333_3333_3333,
    0x0f0f_0f0f_0f0f_0f0f,
    0x00ff_00ff_00ff_00ff,
    0x0000_ffff_0000_ffff,
    0x0000_0000_ffff_ffff,
];

// Those numbers of the set that have a 0 at the place and are in the set with a 1 there too.
fn lower_halves(set: u64, place: u32) -> u64
    requires { place < greatest_dim }
    ensures { (n : ℕ) → is_member n result
        ≡ (n / 2 ^ place % 2 == 0 && is_member n set && is_member (n + 2 ^ place) set) }
{
    set & set >> (1u32 << place) & CLEAR[place as usize]
}
