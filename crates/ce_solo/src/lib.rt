//! The laws of a cube: what holds of every trace that a cube gives alone, and of every history of
//! the machine. The laws are definitions in `specs/`; each is the contract of a function of the
//! module `laws`.
#![tactic(auto)]

mod laws;

pub use laws::{
    blocks_have_one_owner_law, fresh_is_sound_law, lawful_is_legal_law, messages_are_in_order_law,
    queues_are_bounded_law, renamed_nodes_agree_law, requests_still_fit_law, states_stay_sound_law,
    traces_go_on_law, views_are_alone_law, views_are_same_law,
};
