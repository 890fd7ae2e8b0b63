//! What is proved of the boxes of a cube that is held after a lawful history of a machine within
//! its limits. The functions do nothing: a contract is the law. The proofs of the code cite the
//! lemmas that prove it.
ghost use Rattle.ce_cube.specs.Laws.{BoxesSay, CallsAdd, BoxesHear, BoxesCanHear, TurnsEnd, OthersKeep, BesideKeeps, EntriesCount, IdleAsks, BoxesInStepEndTurns, RoundsRest, LooksEnd, BlocksAreWhole, GrantsBegin, HostsFit, HostsSend, HostsTake, ArmsAllow, DrainsFit};
ghost use Rattle.ce_cube.specs.Rehoming.{BlocksSort, StoresAreHome};
ghost use Rattle.ce_cube.specs.Rounds.{RoundsAreMade};

/// What a box says that stands for a node of the cube is the node's next call, and the machine
/// takes it.
pub fn boxes_say_law()
    ensures law { BoxesSay }
{}

/// A call of the cube that fits makes the next entry of the cube's trace, and leaves all nodes but
/// its own as they were.
pub fn calls_add_law()
    ensures law { CallsAdd }
{}

/// The box of a node that has made an entry stands for the node behind it, once it has heard the
/// answer.
pub fn boxes_hear_law()
    ensures law { BoxesHear }
{}

/// The box of a node that has made an entry can hear the answer, which is one to its call.
pub fn boxes_can_hear_law()
    ensures law { BoxesCanHear }
{}

/// By each call of a node that asks for no work its turn has fewer calls left, so each turn ends.
pub fn turns_end_law()
    ensures law { TurnsEnd }
{}

/// An entry of another user, or a look at the machine, leaves a cube that is held as it is.
pub fn others_keep_law()
    ensures law { OthersKeep }
{}

/// Behind entries of other users, calls of a cube and peeks of its host the cube is held still, and
/// what made none of them is what it was.
pub fn beside_keeps_law()
    ensures law { BesideKeeps }
{}

/// An entry of a node is a Take exactly where its call asked for work, and takes a dispatch exactly
/// where it gives work.
pub fn entries_count_law()
    ensures law { EntriesCount }
{}

/// Right behind a Take that gives it no work a node asks for work again.
pub fn idle_asks_law()
    ensures law { IdleAsks }
{}

/// Where all boxes of a cube are in step with its nodes, no turn is open.
pub fn boxes_in_step_end_turns_law()
    ensures law { BoxesInStepEndTurns }
{}

/// Turns, rounds and shares of rounds are made entry by entry.
pub fn rounds_are_made_law()
    ensures law { RoundsAreMade }
{}

/// Behind a round without work, of either kind, a cube is quiet, or its dispatches are used up.
pub fn rounds_rest_law()
    ensures law { RoundsRest }
{}

/// A look right behind a round without work never finds its cube busy.
pub fn looks_end_law()
    ensures law { LooksEnd }
{}

/// Where all boxes of a cube are in step, its blocks are in them, on the parcels that wait and in
/// the host's store, each once.
pub fn blocks_are_whole_law()
    ensures law { BlocksAreWhole }
{}

/// A store with each block of a home once, and no other, is the one that the home begins with.
pub fn stores_are_home_law()
    ensures law { StoresAreHome }
{}

/// All blocks of a cube, sorted by their homes, are the stores that the homes begin with.
pub fn blocks_sort_law()
    ensures law { BlocksSort }
{}

/// A getcube that was granted begins a cube whose nodes are fresh.
pub fn grants_begin_law()
    ensures law { GrantsBegin }
{}

/// What a user has its host do fits, where it names a place and an image of the cube and has a
/// block to send.
pub fn hosts_fit_law()
    ensures law { HostsFit }
{}

/// A message that the host sends takes the least block out of its store.
pub fn hosts_send_law()
    ensures law { HostsSend }
{}

/// A message that the host takes puts its block into its store, which has room for it.
pub fn hosts_take_law()
    ensures law { HostsTake }
{}

/// Right behind an Arm as many dispatches are left as it allows.
pub fn arms_allow_law()
    ensures law { ArmsAllow }
{}

/// A cube that is held can be drained, and is given back behind that.
pub fn drains_fit_law()
    ensures law { DrainsFit }
{}
