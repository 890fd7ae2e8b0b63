use super::*;
use std::alloc::Global;
use std::test::Fail;

fn read(alloc: Global, words: &[&str]) -> Result<Result<CommandLine, CommandLineError>, Fail> {
    let mut line = Vec::new(alloc);
    for word in words {
        line.push(String::from_str(alloc, word)?)?;
    }
    Ok(read_line(alloc, line.as_slice()))
}

#[test]
fn the_flag_and_the_option_come_in_either_order(rt: HostRuntime) -> Result<(), Fail> {
    let alloc = rt.alloc();
    let neither = CommandLine {
        is_serial: false,
        load: None,
    };
    assert_eq!(rt; read(alloc, &[])?, Ok(neither));
    assert_eq!(rt;
        read(alloc, &["--serial"])?,
        Ok(CommandLine {
            is_serial: true,
            load: None
        })
    );
    assert_eq!(rt;
        read(alloc, &["--load", "0"])?,
        Ok(CommandLine {
            is_serial: false,
            load: Some(0)
        })
    );
    let both = CommandLine {
        is_serial: true,
        load: Some(4_294_967_295),
    };
    assert_eq!(rt;
        read(alloc, &["--load", "4294967295", "--serial"])?,
        Ok(both)
    );
    assert_eq!(rt;
        read(alloc, &["--serial", "--load", "4294967295"])?,
        Ok(both)
    );
    Ok(())
}

#[test]
fn usage(rt: HostRuntime) -> Result<(), Fail> {
    let alloc = rt.alloc();
    assert_eq!(rt; read(alloc, &["--fast"])?, Err(CommandLineError::Usage));
    assert_eq!(rt;
        read(alloc, &["--load", "4294967296"])?,
        Err(CommandLineError::Usage)
    );
    assert_eq!(rt; read(alloc, &["--load"])?, Err(CommandLineError::Usage));
    assert_eq!(rt;
        read(alloc, &["--load", "ten"])?,
        Err(CommandLineError::Usage)
    );
    assert_eq!(rt;
        read(alloc, &["--serial", "--serial"])?,
        Err(CommandLineError::Usage)
    );
    assert_eq!(rt; read(alloc, &["script.ce"])?, Err(CommandLineError::Usage));
    assert_eq!(rt; read(alloc, &["--help"])?, Err(CommandLineError::Usage));
    assert_eq!(rt; read(alloc, &["--version"])?, Err(CommandLineError::Usage));
    Ok(())
}
