use super::{Fault, Reading, read};
use std::test::Fail;

#[test]
fn reads_numbers_high_octet_first(rt: HostRuntime) -> Result<(), Fail> {
    let numbers = vec![in rt.alloc(); 1, 65534]?;
    assert_eq!(rt;
        read(rt.alloc(), &[0, 2, 0, 1, 0xFF, 0xFE])?,
        Reading::Numbers(numbers)
    );
    Ok(())
}

#[test]
fn reads_a_refusal(rt: HostRuntime) -> Result<(), Fail> {
    let fault = Fault {
        number: 2,
        layer: 4,
        place: 258,
    };
    assert_eq!(rt; read(rt.alloc(), &[2, 4, 1, 2])?, Reading::Refused(fault));
    Ok(())
}

#[test]
fn reads_that_it_is_done(rt: HostRuntime) -> Result<(), Fail> {
    assert_eq!(rt; read(rt.alloc(), &[0])?, Reading::Done);
    Ok(())
}

#[test]
fn reads_a_block_by_its_family(rt: HostRuntime) -> Result<(), Fail> {
    let block = [0, 0, 3, 1, 1, 1, 1, 80, 0, 1];
    assert_eq!(rt; read(rt.alloc(), &block)?, Reading::Block(3));
    Ok(())
}

#[test]
fn no_other_octets_are_a_reply(rt: HostRuntime) -> Result<(), Fail> {
    let replies: [&[u8]; 5] = [&[], &[0, 1], &[0, 2, 0, 1], &[6, 1, 0], &[6, 1, 0, 0, 0]];
    for reply in replies {
        assert_eq!(rt; read(rt.alloc(), reply)?, Reading::Unclear);
    }
    Ok(())
}

#[test]
fn tells_a_refusal_and_its_cause(rt: HostRuntime) -> Result<(), Fail> {
    let mut fault = Fault {
        number: 5,
        layer: 2,
        place: 0,
    };
    let told = format!(in rt.alloc(); "{fault}")?;
    assert_eq!(rt;
        told.as_str(),
        "5, layer 2, place 0: not taken in this mode"
    );
    fault.layer = 3;
    let told = format!(in rt.alloc(); "{fault}")?;
    assert_eq!(rt; told.as_str(), "5, layer 3, place 0");
    fault.number = 6;
    let told = format!(in rt.alloc(); "{fault}")?;
    assert_eq!(rt;
        told.as_str(),
        "6, layer 3, place 0: a count that is not that of the block's rows"
    );
    Ok(())
}
