use super::*;
use ce_host::{Answer, Command};
use ce_model::{Entry, HOST, Subcube, What};
use sqlite_items::Items;
use std::test::Fail;

#[test]
fn a_record_keeps_replies_and_history(rt: HostRuntime) -> Result<(), Fail> {
    let alloc = rt.alloc();
    let name = Name::from_text(String::from_str(alloc, "alice")?);
    let name_copy = name.copy(alloc)?;
    let mut done = Items::new(alloc);
    done.push((
        Command::Getcube(0),
        Answer::Granted(Subcube { mask: 0, base: 0 }),
    ))?;
    let mut users = Items::new(alloc);
    users.push(UserRecord { name, done })?;
    let mut history = Items::new(alloc);
    history.push(Entry {
        user: 0,
        actor: HOST,
        what: What::Peek,
    })?;
    let run_record = Record { users, history };
    assert_eq!(rt; name_copy.as_str(), "alice");
    assert_eq!(rt; run_record.users.len(), 1);
    assert_eq!(rt; run_record.history.len(), 1);
    Ok(())
}
