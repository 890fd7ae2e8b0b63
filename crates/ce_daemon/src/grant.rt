ghost use Rattle.std.specs.Prelude.{◌≡◌, find};
ghost use Rattle.ce_daemon.specs.Holding.{is_grant_of};

use ce_model::Subcube;
use std::marker::Model;

/// A subcube that a user was granted.
#[derive(Clone, Copy, Debug, PartialEq, Eq)]
pub struct Grant {
    /// Grants are numbered from 0 in the order in which they were made.
    pub number: u64,
    /// The user.
    pub user: u32,
    /// The subcube's dimension.
    pub dim: u32,
    /// The subcube.
    pub sub: Subcube,
}

/// Some grants, in the order in which they were made. Contracts see it as their list.
#[derive(Debug, Drop)]
pub struct Grants {
    items: Vec<Grant>,
}

impl Model for Grants {
    ghost use Rattle.std.specs.Prelude.{List};
    ghost use Rattle.ce_daemon.specs.declared.grant.Grant.{Grant};

    ghost Value = { List Grant };

    ghost view = { λ grants. grants.items.items };
}

impl Grants {
    /// The grants of this `Vec`.
    pub fn from_vec(items: Vec<Grant>) -> Grants
        ensures { result ≡ items.items }
    {
        Grants { items }
    }

    /// The grants.
    pub fn as_slice(&self) -> &[Grant]
        ensures { result.now ≡ self.now }
    {
        self.items.as_slice()
    }
}

/// What a peek shows.
#[derive(Debug, Drop)]
pub struct PeekResult {
    /// How many nodes are free.
    pub free: u32,
    /// The grants that are held, in the order in which they were made.
    pub grants: Grants,
}

// The first of the grants that the user holds.
pub(crate) fn find_grant(grants: &[Grant], user: u32) -> Option<Grant>
    ensures { result ≡ find (is_grant_of user) grants.now }
{
    grants.iter().find(|grant| grant.user == user).copied()
}
