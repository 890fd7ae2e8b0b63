//! The laws of the record that a run leaves. The functions do nothing: a contract is the law, which
//! proofs cite.
ghost use Rattle.ce_record.specs.Laws.{HoldingsAreTheMachines, HoldingsFollowDoings, RunBegins, RunGoesOn, RepliesBegin, RepliesGoOn, UserBegins, UserWaits, UserGoesOn, ScriptHasMachine, RunIsLegal, UsersAreLegal, NoUserIsLegal, NoCubeIsNext, RefusalOfHolderIsNext, NoPlaceIsNext, NoStoreIsNext, DumpIsNext, TraceIsNext, FreecubeIsNext, RequestsAreNext, HearingsAreReplies, OthersStay, CubeBegins, TraceGoesOn, CubeStays, RunIsNext, RecvIsNext, MessageIsSent};

/// What a user holds by its own entries of a lawful history is what the machine says.
pub fn holdings_are_the_machines_law()
    ensures law { HoldingsAreTheMachines }
{}

/// What a user holds by all that it did is what the machine says.
pub fn holdings_follow_doings_law()
    ensures law { HoldingsFollowDoings }
{}

/// A run begins with an empty history.
pub fn run_begins_law()
    ensures law { RunBegins }
{}

/// A run goes on by one command of one user.
pub fn run_goes_on_law()
    ensures law { RunGoesOn }
{}

/// At first no user was answered.
pub fn replies_begin_law()
    ensures law { RepliesBegin }
{}

/// The one that makes a command has one reply more.
pub fn replies_go_on_law()
    ensures law { RepliesGoOn }
{}

/// At first a user did nothing.
pub fn user_begins_law()
    ensures law { UserBegins }
{}

/// Entries of others leave what a user did.
pub fn user_waits_law()
    ensures law { UserWaits }
{}

/// A user goes on by one command, whose entries stand among others'.
pub fn user_goes_on_law()
    ensures law { UserGoesOn }
{}

/// The machine of a script with a user is within its limits.
pub fn script_has_machine_law()
    ensures law { ScriptHasMachine }
{}

/// The record of a run of all the script's commands is legal and serial.
pub fn run_is_legal_law()
    ensures law { RunIsLegal }
{}

/// The record of a script with a user is legal, where its history is lawful and each user did all
/// its commands in it and was answered so.
pub fn users_are_legal_law()
    ensures law { UsersAreLegal }
{}

/// The empty record of a script without users is legal and serial.
pub fn no_user_is_legal_law()
    ensures law { NoUserIsLegal }
{}

/// A command that wants a cube is told that its user holds none.
pub fn no_cube_law()
    ensures law { NoCubeIsNext }
{}

/// A getcube is told that its user holds a cube already.
pub fn refusal_of_holder_law()
    ensures law { RefusalOfHolderIsNext }
{}

/// A command is told that its cube has no such place.
pub fn no_place_law()
    ensures law { NoPlaceIsNext }
{}

/// A send is told that the host has no block.
pub fn no_store_law()
    ensures law { NoStoreIsNext }
{}

/// A dump is told what the process does.
pub fn dump_law()
    ensures law { DumpIsNext }
{}

/// A trace is told how long the cube's is.
pub fn trace_law()
    ensures law { TraceIsNext }
{}

/// A cube is drained and given back.
pub fn freecube_law()
    ensures law { FreecubeIsNext }
{}

/// A command that makes one entry is told what the machine answers.
pub fn requests_law()
    ensures law { RequestsAreNext }
{}

/// A send, a spawn or a kill is answered by what its host hears.
pub fn hearings_are_replies_law()
    ensures law { HearingsAreReplies }
{}

/// Entries of others leave what a user holds.
pub fn others_stay_law()
    ensures law { OthersStay }
{}

/// A cube that is granted has the next number and no trace.
pub fn cube_begins_law()
    ensures law { CubeBegins }
{}

/// Calls of a cube make its trace longer.
pub fn trace_goes_on_law()
    ensures law { TraceGoesOn }
{}

/// Behind calls of a cube it is held still.
pub fn cube_stays_law()
    ensures law { CubeStays }
{}

/// A run is answered by what its look finds.
pub fn run_law()
    ensures law { RunIsNext }
{}

/// A recv is answered with the message that it takes, or by what its look finds.
pub fn recv_law()
    ensures law { RecvIsNext }
{}

/// A message that waits for a host is one that was sent to it.
pub fn message_law()
    ensures law { MessageIsSent }
{}
