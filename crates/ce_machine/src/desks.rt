ghost use Rattle.std.specs.Prelude.{◌≡◌, ◌⊎◌, ℕ, ◌+◌, ◌^◌, ◌<◌, ◌≤◌, ◌==◌, if◌then◌else◌, List, [], ◌∷◌, ◌++◌, length, map, vec_capacity};
ghost use Rattle.std.specs.List.{list_all, AllByRecursion, range_with_len};
ghost use Rattle.ce_model.specs.declared.topology.TheConstants.{HOST};
ghost use Rattle.ce_model.specs.Limits.{greatest_dim, process_count, node_room, mail_room};
ghost use Rattle.ce_model.specs.Parcels.{mail, item_parcels};
ghost use Rattle.ce_model.specs.Trace.{NodeRecord, blank_record};
ghost use Rattle.ce_model.specs.Answers.{is_quiet_node};
ghost use Rattle.ce_model.specs.Renaming.{number_outward, place_outward, renamed_targets};
ghost use Rattle.ce_model.specs.Subcubes.{node_of, IsSubcube};
ghost use Rattle.rk_mail.specs.Items.{parcel_of};
ghost use Rattle.rk_mail.specs.Targets.{targets_of};
ghost use Rattle.ce_machine.specs.Tables.{HostRecord, desk_at};
ghost use Rattle.ce_machine.specs.Desks.{AreChanged, change_at_node, change_at_nodes, with_busy_mark, with_items, without_items, cube_items, IsOnDesks, letters, IsInCube, HasMailRoom};
ghost use Rattle.ce_machine.specs.Orders.{HasOrderRoom, what_of_order, hearing_of_order, with_order};

use crate::desk::Desk;
use crate::host_desk::HostDesk;
use crate::order::Order;
use ce_daemon::Grant;
use ce_model::{BlockId, HOST, Place, Subcube, What};
use ce_set::node_of;
use rk_mail::{Batch, Hearing, Parcel, kill_hearing, spawn_hearing};
use xm_block::Block;

// A node has made an entry that isn't a Take; a host is no node.
pub(crate) fn mark_busy(desks: &mut Vec<Desk>, actor: u32)
    requires actor { (actor ≡ HOST) ⊎ (actor < length desks.old.items) }
    requires few { length desks.old.items ≤ HOST }
    ensures { AreChanged desks.old.items desks.new.items (change_at_node actor with_busy_mark) }
{
    if actor != HOST {
        let desk = &mut desks[actor as usize];
        desk.mark_busy();
    }
}

// Carries out an order of process `pid` at this place of the machine: its entry, and what is heard
// of it.
pub(crate) fn carry_out(
    desks: &mut Vec<Desk>,
    order: Order,
    pid: u32,
    place: Place,
) -> (What, Hearing)
    requires node { place.node < length desks.old.items }
    requires process { place.pid < process_count }
    requires room { HasOrderRoom order place.pid (desk_at desks.old.items place.node) }
    ensures entry { result.0 ≡ what_of_order order pid place (desk_at desks.old.items place.node) }
    ensures heard { result.1
        ≡ hearing_of_order order place.pid (desk_at desks.old.items place.node) }
    ensures desks { AreChanged desks.old.items desks.new.items
        (change_at_node place.node (with_order order place.pid)) }
{
    let desk = &mut desks[place.node as usize];
    match order {
        Order::Spawn { image } => {
            let fresh = desk.start(place.pid, image);
            let what = What::Spawn {
                pid,
                image,
                to: place,
                fresh,
            };
            (what, spawn_hearing(fresh))
        }
        Order::Kill => {
            let found = desk.kill(place.pid);
            let what = What::Kill {
                pid,
                to: place,
                found,
            };
            (what, kill_hearing(found))
        }
    }
}

// Whether all nodes of a cube are quiet.
pub(crate) fn is_quiet(desks: &Vec<Desk>, grant: &Grant) -> bool
    requires { IsOnDesks (length desks.now.items) grant.now.dim grant.now.sub }
    ensures { result ≡ list_all (λ node. is_quiet_node (desk_at desks.now.items node))
        (map (node_of grant.now.sub) (range_with_len 0 (2 ^ grant.now.dim))) }
{
    for r in 0..node_count(grant) {
        if !desk_of(desks, grant, r).is_quiet() {
            return false;
        }
    }
    true
}

// How many items wait at the nodes of a cube.
pub(crate) fn waiting_count(desks: &Vec<Desk>, grant: &Grant) -> usize
    requires { IsOnDesks (length desks.now.items) grant.now.dim grant.now.sub }
    ensures count { result ≡ length (cube_items desks.now.items grant.now.dim grant.now.sub) }
    ensures within { result < 2 ^ 32 }
{
    let mut count = 0;
    for r in 0..node_count(grant) {
        count += desk_of(desks, grant, r).count() as usize;
    }
    count
}

// Takes all that waits at the nodes of a cube out, in relative order, and puts the blocks of the
// messages behind one another.
pub(crate) fn drain_nodes(desks: &mut Vec<Desk>, grant: &Grant, blocks: &mut Vec<Block>)
    requires sub { IsOnDesks (length desks.old.items) grant.now.dim grant.now.sub }
    requires room { length blocks.old.items
        + length (cube_items desks.old.items grant.now.dim grant.now.sub)
        ≤ vec_capacity blocks.old }
    ensures desks { AreChanged desks.old.items desks.new.items
        (change_at_nodes grant.now.sub without_items) }
    ensures blocks { blocks.new.items ≡ blocks.old.items ++ map (λ parcel. parcel.block)
        (item_parcels (cube_items desks.old.items grant.now.dim grant.now.sub)) }
    ensures capacity { vec_capacity blocks.new ≡ vec_capacity blocks.old }
{
    for r in 0..node_count(grant) {
        let desk = &mut desks[node_at(grant, r)];
        desk.drain(blocks);
    }
}

// Nothing is known any longer of the nodes of a cube. Nothing waits there.
pub(crate) fn clear_nodes(desks: &mut Vec<Desk>, grant: &Grant)
    requires sub { IsOnDesks (length desks.old.items) grant.now.dim grant.now.sub }
    requires empty { (r : ℕ) → r < 2 ^ grant.now.dim
        → (desk_at desks.old.items (node_of grant.now.sub r)).waiting_items ≡ [] }
    ensures { AreChanged desks.old.items desks.new.items
        (change_at_nodes grant.now.sub (λ node_record. blank_record)) }
{
    for r in 0..node_count(grant) {
        let desk = &mut desks[node_at(grant, r)];
        desk.clear();
    }
}

// Posts a message to its place of the cube.
fn post(desks: &mut Vec<Desk>, host: &mut HostDesk, grant: &Grant, parcel: Parcel)
    requires sub { IsOnDesks (length desks.old.items) grant.now.dim grant.now.sub }
    requires place { IsInCube grant.now.dim parcel.to }
    requires at_node { parcel.to.node < 2 ^ grant.now.dim
        → length (desk_at desks.old.items (node_of grant.now.sub parcel.to.node)).waiting_items
        < node_room }
    requires at_host { parcel.to.node ≡ HOST → length host.old.mail < mail_room }
    ensures desks { AreChanged desks.old.items desks.new.items
        (change_at_node (number_outward grant.now.sub parcel.to.node)
        (with_items (mail (parcel_of parcel) ∷ []))) }
    ensures host { host.new ≡ record host.old {
      mail = host.old.mail
          ++ (if parcel.to.node == HOST then mail (parcel_of parcel) ∷ [] else []);
    } }
{
    if parcel.to.node == HOST {
        host.post(parcel);
    } else {
        let desk = &mut desks[node_at(grant, parcel.to.node)];
        desk.post(parcel);
    }
}

// Posts a message to each of its places, in order, with numbers from `first` on; the emptied batch.
// The places and the names of the blocks go behind `targets`, by the machine's numbers.
pub(crate) fn post_all(
    desks: &mut Vec<Desk>,
    host: &mut HostDesk,
    grant: &Grant,
    from: Place,
    first: u64,
    mut batch: Batch,
    targets: &mut Vec<(Place, BlockId)>,
) -> Batch
    requires sub { IsOnDesks (length desks.old.items) grant.now.dim grant.now.sub }
    requires places { AllByRecursion (λ target. IsInCube grant.now.dim target.0) batch }
    requires room { HasMailRoom grant.now.sub from first batch desks.old.items host.old }
    requires numbers { first + length batch < 2 ^ 64 }
    requires targets { length targets.old.items + length batch ≤ vec_capacity targets.old }
    ensures desks { AreChanged desks.old.items desks.new.items
        (λ node. with_items (letters grant.now.sub from first batch node)) }
    ensures host { host.new
        ≡ record host.old { mail = host.old.mail ++ letters grant.now.sub from first batch HOST } }
    ensures targets { targets.new.items
        ≡ targets.old.items
        ++ renamed_targets (place_outward grant.now.sub) (λ id. id) (targets_of batch) }
    ensures empty { result ≡ [] }
{
    let mut number = first;
    while let Some((to, block)) = batch.take_first() {
        targets.push_reserved((place_outward(grant, to), block.id()));
        let parcel = Parcel {
            from,
            to,
            number,
            block,
        };
        post(desks, host, grant, parcel);
        number += 1;
    }
    batch
}

// A place of the cube, by the machine's number for its node.
pub(crate) fn place_outward(grant: &Grant, to: Place) -> Place
    requires sub { IsSubcube greatest_dim grant.now.dim grant.now.sub }
    requires place { (to.node < 2 ^ grant.now.dim) ⊎ (to.node ≡ HOST) }
    ensures { result ≡ place_outward grant.now.sub to }
{
    if to.node == HOST {
        return to;
    }
    Place {
        node: node_of(&grant.sub, to.node),
        pid: to.pid,
    }
}

// How many nodes a cube has.
#[tactic(auto, using(ce_model::specs::Limits::greatest_dim_lem))]
fn node_count(grant: &Grant) -> u32
    requires { grant.now.dim ≤ greatest_dim }
    ensures { result ≡ 2 ^ grant.now.dim }
{
    1 << grant.dim
}

// The desk of a cube's node.
fn desk_of<'a>(desks: &'a Vec<Desk>, grant: &Grant, r: u32) -> &'a Desk
    requires sub { IsOnDesks (length desks.now.items) grant.now.dim grant.now.sub }
    requires node { r < 2 ^ grant.now.dim }
    ensures { result.now ≡ desk_at desks.now.items (node_of grant.now.sub r) }
{
    let desk = &desks[node_at(grant, r)];
    desk
}

// The place of the desk of a cube's node.
fn node_at(grant: &Grant, r: u32) -> usize
    requires sub { IsSubcube greatest_dim grant.now.dim grant.now.sub }
    requires node { r < 2 ^ grant.now.dim }
    ensures { result ≡ node_of grant.now.sub r }
{
    node_of(&grant.sub, r) as usize
}
