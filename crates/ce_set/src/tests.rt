use crate::{deposit, extract, first_free, node_of, nodes_of, relative_number};
use ce_model::{HOST, NodeSet, Subcube};

#[test]
#[tactic(auto, using(ce_model::specs::Limits::greatest_dim_lem, ce_model::specs::Limits::greatest_nodes_lem))]
fn renaming(rt: HostRuntime) {
    assert_eq!(rt;
        first_free(NodeSet(204), 3, 2),
        Some(Subcube { mask: 5, base: 2 })
    );
    assert_eq!(rt; deposit(3, 5), 5);
    assert_eq!(rt; extract(7, 5), 3);
}

#[test]
#[tactic(auto, using(ce_model::specs::Limits::greatest_dim_lem, ce_model::specs::Limits::greatest_nodes_lem))]
fn greatest_machine(rt: HostRuntime) {
    assert_eq!(rt;
        first_free(NodeSet(u64::MAX), 6, 6),
        Some(Subcube { mask: 63, base: 0 })
    );
    assert_eq!(rt; first_free(NodeSet(u64::MAX - 1), 6, 6), None);
    assert_eq!(rt;
        first_free(NodeSet(u64::MAX - 1), 6, 5),
        Some(Subcube { mask: 31, base: 32 })
    );
    assert_eq!(rt; first_free(NodeSet(u64::MAX), 6, 7), None);
    assert_eq!(rt;
        first_free(NodeSet(1), 0, 0),
        Some(Subcube { mask: 0, base: 0 })
    );
    assert_eq!(rt; first_free(NodeSet(0), 0, 0), None);
}

// The nodes of the subcube whose numbers are `base` beside the mask are all in the set.
fn has_all(set: u64, mask: u32, base: u32) -> bool {
    for node in 0..8u32 {
        if node & !mask == base && set >> node & 1 == 0 {
            return false;
        }
    }
    true
}

// The first subcube by the plain definition, on a machine of dimension 3.
fn plain_first(set: u64, d: u32) -> Option<Subcube> {
    for mask in 0..8u32 {
        for base in 0..8u32 {
            if mask.count_ones() == d && base & mask == 0 && has_all(set, mask, base) {
                return Some(Subcube { mask, base });
            }
        }
    }
    None
}

#[test]
#[tactic(auto, using(ce_model::specs::Limits::greatest_dim_lem))]
fn every_set_of_eight_nodes(rt: HostRuntime) {
    for set in 0..256u64 {
        for d in 0..5u32 {
            assert_eq!(rt; first_free(NodeSet(set), 3, d), plain_first(set, d));
        }
    }
}

#[test]
#[tactic(auto, using(ce_model::specs::Limits::greatest_nodes_lem))]
fn nodes_of_a_subcube(rt: HostRuntime) {
    let sub = Subcube { mask: 5, base: 2 };
    assert_eq!(rt; nodes_of(&sub), NodeSet(204));
    assert_eq!(rt; node_of(&sub, 2), 6);
    assert_eq!(rt; relative_number(&sub, 6), 2);
    assert_eq!(rt; relative_number(&sub, HOST), HOST);
}
