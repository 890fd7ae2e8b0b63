//! Two machines with a wrong rule. Of each a history is named that it makes, and a grant whose view
//! is a trace that its cube gives alone up to the history's last entry, and none with it. The
//! functions do nothing: a contract is the law.
#![tactic(auto)]

ghost use Rattle.ce_wrong.specs.Histories.{DrainLeavesMail, RankIsAddedToBase};

/// A machine whose drain leaves the messages that wait at the nodes of a cube gives them to the
/// next owner of the nodes, and so a message to a cube to which none was sent.
pub fn drain_leaves_mail_law()
    ensures law { DrainLeavesMail }
{}

/// A machine that takes node r of a cube for the node at the cube's base and r more sends a start
/// past the cube's node, which alone would be given it.
pub fn rank_is_added_to_base_law()
    ensures law { RankIsAddedToBase }
{}
