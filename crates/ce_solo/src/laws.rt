//! What is proved of each cube within the machine's limits and of each trace that it gives alone,
//! and of the machine's lawful histories. The functions do nothing: a contract is the law, which
//! proofs cite.
ghost use Rattle.ce_solo.specs.Laws.{FreshIsSound, StatesStaySound, BlocksHaveOneOwner, QueuesAreBounded, MessagesAreInOrder, TracesGoOn, RenamedNodesAgree, ViewsAreAlone, LawfulIsLegal, ViewsAreSame, RequestsStillFit};

/// A cube that has just been granted is sound.
pub fn fresh_is_sound_law()
    ensures law { FreshIsSound }
{}

/// What a trace leaves is sound again, if the cube was sound at its beginning.
pub fn states_stay_sound_law()
    ensures law { StatesStaySound }
{}

/// Each block of the cube has exactly one owner, after every front of the trace.
pub fn blocks_have_one_owner_law()
    ensures law { BlocksHaveOneOwner }
{}

/// At most one start and one kill are sent to an id, and a parcel that a node was given is for a
/// process that asks for one, or that has stopped.
pub fn queues_are_bounded_law()
    ensures law { QueuesAreBounded }
{}

/// For any two places, what the one got from the other is a front of what that one sent it, after
/// every front of the trace.
pub fn messages_are_in_order_law()
    ensures law { MessagesAreInOrder }
{}

/// A trace can be cut: what the cube gives alone from what the first part left, it gives behind
/// that part.
pub fn traces_go_on_law()
    ensures law { TracesGoOn }
{}

/// A node with the machine's names for its blocks says and hears what the node with the cube's
/// names does, renamed.
pub fn renamed_nodes_agree_law()
    ensures law { RenamedNodesAgree }
{}

/// Of every lawful history of a machine within its limits, the view of each grant is a trace that
/// its cube gives alone.
pub fn views_are_alone_law()
    ensures law { ViewsAreAlone }
{}

/// Of every lawful history of a machine within its limits, the view of each grant is a trace that
/// its cube gives alone, each block has one owner in it, and what any one got from another is a
/// front of what that one sent it.
pub fn lawful_is_legal_law()
    ensures law { LawfulIsLegal }
{}

/// Two views of one cube, of one lawful history or of two, are the same where its host was asked
/// the same and its actors acted in the same order, whatever others did and wherever on its machine
/// the cube lies.
pub fn views_are_same_law()
    ensures law { ViewsAreSame }
{}

/// What fits a lawful history fits still behind one more lawful entry of another user, and behind
/// one of another actor of the same user that is not made alone.
pub fn requests_still_fit_law()
    ensures law { RequestsStillFit }
{}
