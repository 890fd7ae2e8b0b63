ghost use Rattle.std.specs.Prelude.{◌≡◌, [], IfOk};

use crate::{Daemon, node_numbers};
use ce_model::{NoMemory, NodeSet, Subcube};
use std::alloc::Global;
use std::test::Fail;

// The daemon of a machine of four nodes.
#[tactic(auto, using(ce_model::specs::Limits::greatest_dim_lem))]
fn four_nodes(alloc: Global) -> Result<Daemon<u32>, NoMemory>
    ensures { IfOk result (λ daemon. daemon ≡ record { dim = 2; count = 0; grants = [] }) }
{
    Daemon::new(alloc, 2, node_numbers(alloc, 4)?)
}

// The daemon of the greatest machine.
#[tactic(auto, using(ce_model::specs::Limits::greatest_dim_lem))]
fn most_nodes(alloc: Global) -> Result<Daemon<u32>, NoMemory>
    ensures { IfOk result (λ daemon. daemon ≡ record { dim = 6; count = 0; grants = [] }) }
{
    Daemon::new(alloc, 6, node_numbers(alloc, 64)?)
}

#[test]
fn no_fit(rt: HostRuntime) -> Result<(), Fail> {
    let alloc = rt.alloc();
    let mut daemon = four_nodes(alloc)?;
    let (a, of_a) = daemon.getcube(alloc, 0, 0)?.ok_or("no cube for a")?;
    let (b, _) = daemon.getcube(alloc, 1, 0)?.ok_or("no cube for b")?;
    let (c, _) = daemon.getcube(alloc, 2, 0)?.ok_or("no cube for c")?;
    assert_eq!(rt; a.sub, Subcube { mask: 0, base: 0 });
    assert_eq!(rt; b.sub, Subcube { mask: 0, base: 1 });
    assert_eq!(rt; c.sub, Subcube { mask: 0, base: 2 });
    daemon.freecube(0, of_a);
    assert!(rt; daemon.getcube(alloc, 3, 1)?.is_none());
    let peek_result = daemon.peek(alloc)?;
    assert_eq!(rt; peek_result.free, 2);
    assert_eq!(rt; peek_result.grants.as_slice(), [b, c].as_slice());
    assert_eq!(rt; daemon.free_nodes(), NodeSet(9));
    Ok(())
}

#[test]
fn not_contiguous(rt: HostRuntime) -> Result<(), Fail> {
    let alloc = rt.alloc();
    let mut daemon = four_nodes(alloc)?;
    let (a, _) = daemon.getcube(alloc, 0, 0)?.ok_or("no cube for a")?;
    let (_, of_b) = daemon.getcube(alloc, 1, 0)?.ok_or("no cube for b")?;
    let (c, _) = daemon.getcube(alloc, 2, 0)?.ok_or("no cube for c")?;
    daemon.freecube(1, of_b);
    let (d, of_d) = daemon.getcube(alloc, 3, 1)?.ok_or("no cube for d")?;
    assert_eq!(rt; d.sub, Subcube { mask: 2, base: 1 });
    assert_eq!(rt; d.number, 3);
    assert_eq!(rt; of_d.as_slice(), [1, 3].as_slice());
    assert_eq!(rt; daemon.peek(alloc)?.grants.as_slice(), [a, c, d].as_slice());
    assert_eq!(rt; daemon.grant_of(1), None);
    assert_eq!(rt; daemon.grant_of(3), Some(d));
    Ok(())
}

#[test]
fn greatest_machine(rt: HostRuntime) -> Result<(), Fail> {
    let alloc = rt.alloc();
    let mut daemon = most_nodes(alloc)?;
    assert_eq!(rt; daemon.free_nodes(), NodeSet(u64::MAX));
    let (whole, of_whole) = daemon.getcube(alloc, 7, 6)?.ok_or("no cube")?;
    assert_eq!(rt; whole.sub, Subcube { mask: 63, base: 0 });
    assert_eq!(rt; of_whole.len(), 64);
    assert_eq!(rt; daemon.peek(alloc)?.free, 0);
    daemon.freecube(7, of_whole);
    assert_eq!(rt; daemon.free_nodes(), NodeSet(u64::MAX));
    Ok(())
}

// As many grants as a long run makes take a small part of a second.
#[test]
fn many_grants(rt: HostRuntime) -> Result<(), Fail> {
    let alloc = rt.alloc();
    let mut daemon = most_nodes(alloc)?;
    for _ in 0..50_000u32 {
        let (_, of_cube) = daemon.getcube(alloc, 0, 3)?.ok_or("no cube")?;
        daemon.freecube(0, of_cube);
    }
    let (last, _) = daemon.getcube(alloc, 0, 6)?.ok_or("no cube")?;
    assert_eq!(rt; last.number, 50_000);
    Ok(())
}
