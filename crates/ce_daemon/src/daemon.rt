ghost use Rattle.std.specs.Prelude.{◌≡◌, ℕ, ◌+◌, ◌^◌, ◌<◌, ◌≤◌, ◌↔◌, None, Some, IsSome, IsNone, IfNone, IfSome, IfOk, OnErr, IsSomeAnd, option_map, [], length, if◌then◌else◌, count_by, not, true, false};
ghost use Rattle.std.specs.List.{range_with_len};
ghost use Rattle.ce_model.specs.Limits.{greatest_dim};
ghost use Rattle.ce_model.specs.Subcubes.{first_free_subcube, has_node};
ghost use Rattle.ce_daemon.specs.Boxes.{AreBoxes, AreGrantBoxes};
ghost use Rattle.ce_daemon.specs.Holding.{grant_held_by, is_ungranted, next_grant, table_with_grant, without_user, IsPartition, IfGranted};

use crate::boxes::{places_of, put_home, take_out};
use crate::grant::find_grant;
use crate::nodes::{difference, union};
use crate::{Grant, Grants, Homed, PeekResult};
use ce_model::{NoMemory, NodeSet};
use ce_set::{first_free, nodes_of};
use std::alloc::Global;
use std::marker::Model;

/// The daemon of a machine: it knows which subcubes are granted to whom, and keeps the clean box of
/// each free node. Contracts see the machine's dimension, how many grants were made so far, and the
/// grants that are held, in the order in which they were made.
#[derive(Drop)]
pub struct Daemon<N: Homed> {
    dim: u32,
    free_nodes: NodeSet,
    count: u64,
    grants: Vec<Grant>,
    places: Vec<Option<N>>,
}

impl<N: Homed> Model for Daemon<N> {
    ghost use Rattle.ce_daemon.specs.Holding.{GrantTable};
    ghost use Rattle.ce_daemon.specs.Sound.{IsSoundDaemon};

    ghost Value = { GrantTable };

    ghost view = { λ daemon. record {
      dim = daemon.dim;
      count = daemon.count;
      grants = daemon.grants.items;
    } };

    ghost invariant = { λ daemon. IsSoundDaemon N.home N.clean daemon.dim daemon.free_nodes
        daemon.grants.items daemon.places.items };
}

impl<N: Homed> Daemon<N> {
    /// The daemon of a machine of dimension `dim`, `GREATEST_DIMENSION` at most, with the clean box
    /// of each node, box i of home i. All nodes are free. `NoMemory` may come at any time.
    pub fn new(alloc: Global, dim: u32, boxes: Vec<N>) -> Result<Daemon<N>, NoMemory>
        requires small { dim ≤ greatest_dim }
        requires boxes { AreBoxes N.home N.clean (2 ^ dim) (λ node. node) boxes.items }
        ensures { IfOk result (λ daemon. daemon ≡ record { dim = dim; count = 0; grants = [] }) }
    {
        let nodes = 1u32 << dim;
        let free = NodeSet(u64::MAX >> (64 - nodes));
        let grants = Vec::new(alloc);
        let places = places_of(alloc, boxes)?;
        Ok(Daemon {
            dim,
            free_nodes: free,
            count: 0,
            grants,
            places,
        })
    }

    /// The nodes that are in no grant.
    pub fn free_nodes(&self) -> NodeSet
        ensures within { result.0 < 2 ^ 2 ^ self.now.dim }
        ensures free { (node : ℕ) → node < 2 ^ self.now.dim
            → has_node result node ≡ is_ungranted self.now node }
        ensures partition { IsPartition self.now.dim self.now.grants result }
    {
        self.free_nodes
    }

    /// The grant that the user holds; None exactly where none is held.
    pub fn grant_of(&self, user: u32) -> Option<Grant>
        ensures { result ≡ grant_held_by self.now user }
    {
        find_grant(&self.grants, user)
    }

    /// Grants the user, who holds none, the first subcube of dimension `cube_dim` whose nodes are
    /// all free, and hands out the boxes of its nodes in relative order. None exactly where no such
    /// subcube is free. `NoMemory` may come at any time, and always comes once 2^64 - 1 grants were
    /// made.
    pub fn getcube(
        &mut self,
        alloc: Global,
        user: u32,
        cube_dim: u32,
    ) -> Result<Option<(Grant, Vec<N>)>, NoMemory>
        requires none_held { grant_held_by self.old user ≡ None }
        ensures first { IfOk result (λ answer. option_map (λ pair. pair.0.sub) answer
            ≡ first_free_subcube (is_ungranted self.old) self.old.dim cube_dim) }
        ensures grant { IfGranted result (λ pair. pair.0
            ≡ next_grant self.old.count user cube_dim pair.0.sub) }
        ensures boxes { IfGranted result
            (λ pair. AreGrantBoxes N.home N.clean pair.0 pair.1.items) }
        ensures after { IfGranted result (λ pair. self.new ≡ table_with_grant pair.0 self.old) }
        ensures refused { IfOk result (λ answer. IfNone answer (self.new ≡ self.old)) }
        ensures unchanged { OnErr result (self.new ≡ self.old) }
    {
        let Some(sub) = first_free(self.free_nodes, self.dim, cube_dim) else {
            return Ok(None);
        };
        let count = self.count.checked_add(1).ok_or(NoMemory)?;
        let mut boxes = Vec::with_capacity(alloc, 1usize << cube_dim)?;
        let grant = Grant {
            number: self.count,
            user,
            dim: cube_dim,
            sub,
        };
        self.grants.push(grant)?;
        self.count = count;
        self.free_nodes = difference(self.free_nodes, nodes_of(&sub));
        take_out(&mut self.places, &sub, cube_dim, &mut boxes);
        Ok(Some((grant, boxes)))
    }

    /// Takes the user's grant back, with the clean boxes of its nodes in relative order. Its nodes
    /// are free again.
    pub fn freecube(&mut self, user: u32, boxes: Vec<N>)
        requires { IsSomeAnd (grant_held_by self.old user)
            (λ grant. AreGrantBoxes N.home N.clean grant boxes.items) }
        ensures { self.new ≡ without_user user self.old }
    {
        let Some(grant) = self.grant_of(user) else {
            unreachable!()
        };
        self.grants.retain(|other| other.user != user);
        self.free_nodes = union(self.free_nodes, nodes_of(&grant.sub));
        put_home(&mut self.places, boxes);
    }

    /// How many nodes are free, and the grants that are held. `NoMemory` may come at any time.
    pub fn peek(&self, alloc: Global) -> Result<PeekResult, NoMemory>
        ensures free { IfOk result (λ answer. answer.free
            ≡ count_by (is_ungranted self.now) (range_with_len 0 (2 ^ self.now.dim))) }
        ensures held { IfOk result (λ answer. answer.grants ≡ self.now.grants) }
    {
        let grants = self.grants.as_slice().to_vec(alloc)?;
        Ok(PeekResult {
            free: self.free_nodes.0.count_ones(),
            grants: Grants::from_vec(grants),
        })
    }
}
