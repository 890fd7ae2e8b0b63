//! The nodes of a cube in their boxes: what they say fits the machine that all users share, and
//! what they hear makes of each box the next node of the cube's own model. The laws are definitions
//! in `specs/`; each is the contract of a function of the module `laws`.
#![tactic(auto)]

mod crew;
mod exchange;
mod laws;
mod rehoming;
mod round;
mod turn;

pub use crew::SerialCrew;
pub use laws::{
    arms_allow_law, beside_keeps_law, blocks_are_whole_law, blocks_sort_law, boxes_can_hear_law,
    boxes_hear_law, boxes_in_step_end_turns_law, boxes_say_law, calls_add_law, drains_fit_law,
    entries_count_law, grants_begin_law, hosts_fit_law, hosts_send_law, hosts_take_law,
    idle_asks_law, looks_end_law, others_keep_law, rounds_are_made_law, rounds_rest_law,
    stores_are_home_law, turns_end_law,
};
pub use rehoming::rehome;
pub use round::round_serial;
