use super::*;
use std::test::Fail;

// The messages that users have sent, in hexadecimal digits, in order.
fn messages(alloc: Global, script: &Script) -> Result<Vec<String>, Fail> {
    let mut sent_messages = Vec::new(alloc);
    for (_, command) in script.commands.as_slice() {
        if let Command::Send(_, bytes) = command {
            sent_messages.push(hex::encode(alloc, bytes.as_slice())?)?;
        }
    }
    Ok(sent_messages)
}

#[test]
fn the_load_of_a_seed(rt: HostRuntime) -> Result<(), Fail> {
    let alloc = rt.alloc();
    let script = make(alloc, 0)?.script;
    assert_eq!(rt; script.dim, Some(MACHINE_DIMENSION));
    assert_eq!(rt; script.commands.len(), 32);
    assert_eq!(rt; script.images.len(), 1);
    let names = script.users.as_slice().iter().map(|name| name.as_str());
    assert_eq!(rt;
        names.collect::<Vec<&str>>(alloc)?.as_slice(),
        ["u0", "u1", "u2", "u3"].as_slice()
    );
    Ok(())
}

#[test]
fn the_messages_of_a_seed(rt: HostRuntime) -> Result<(), Fail> {
    let alloc = rt.alloc();
    let sent_messages = messages(alloc, &make(alloc, 0)?.script)?;
    let expected = [
        "5ff36e3ca00f0000",
        "32295047a00f0000",
        "e9f6ccd1a00f0000",
        "3453f9aaa00f0000",
    ];
    assert_eq!(rt; sent_messages.len(), expected.len());
    for (bytes, digits) in sent_messages.iter().zip(expected) {
        assert_eq!(rt; bytes.as_str(), digits);
    }
    Ok(())
}
