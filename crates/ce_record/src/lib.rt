//! What the record of a run must be, by what the machine answered each command. The laws are
//! definitions in `specs/`; each is the contract of a function of the module `laws`.
#![tactic(auto)]

mod laws;

pub use laws::{
    cube_begins_law, cube_stays_law, dump_law, freecube_law, hearings_are_replies_law,
    holdings_are_the_machines_law, holdings_follow_doings_law, message_law, no_cube_law,
    no_place_law, no_store_law, no_user_is_legal_law, others_stay_law, recv_law,
    refusal_of_holder_law, replies_begin_law, replies_go_on_law, requests_law, run_begins_law,
    run_goes_on_law, run_is_legal_law, run_law, script_has_machine_law, trace_goes_on_law,
    trace_law, user_begins_law, user_goes_on_law, user_waits_law, users_are_legal_law,
};
