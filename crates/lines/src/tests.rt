use super::buffer::LineBuffer;
use super::input::each_line;
use super::{LONGEST_LINE, octets_of_line, spell};
use arrayvec::ArrayVec;
use std::test::Fail;

fn octets(line: &[u8]) -> Result<ArrayVec<u8, LONGEST_LINE>, Fail> {
    octets_of_line(line).ok_or_else(|| Fail::new("a bad line"))
}

fn count(line: &[u8]) -> Option<usize> {
    octets_of_line(line).map(|octets| octets.len())
}

#[test]
fn reads_pairs(rt: HostRuntime) -> Result<(), Fail> {
    assert_eq!(rt; count(b""), Some(0));
    let one = octets(b"5A")?;
    assert_eq!(rt; one.as_slice(), [0x5A].as_slice());
    let three = octets(b"01 F0 FF")?;
    assert_eq!(rt; three.as_slice(), [0x01, 0xF0, 0xFF].as_slice());
    Ok(())
}

#[test]
fn refuses_bad_lines(rt: HostRuntime) {
    // Lower case, two spaces, a space at either end, a tab, a carriage return, an odd digit,
    // no space, another letter, no text.
    let lines: [&[u8]; 10] = [
        b"0a",
        b"01  02",
        b" 01",
        b"01 ",
        b"01\t02",
        b"01\r",
        b"01 2",
        b"0102",
        b"0G",
        b"\xFF\xC3",
    ];
    for line in lines {
        assert_eq!(rt; count(line), None, "{}", line.len());
    }
}

#[test]
fn reads_back_what_it_spells(rt: HostRuntime) -> Result<(), Fail> {
    let text = spell(rt.alloc(), &[0x00, 0x9A, 0xFF])?;
    assert_eq!(rt; text.as_str(), "00 9A FF");
    assert_eq!(rt; count(text.as_bytes()), Some(3));
    let longest = spell(rt.alloc(), &[0xB7; 1024])?;
    assert_eq!(rt; count(longest.as_bytes()), Some(1024));
    let longer = spell(rt.alloc(), &[0xB7; 1025])?;
    assert_eq!(rt; count(longer.as_bytes()), None);
    Ok(())
}

#[test]
fn buffers_a_line(rt: HostRuntime) -> Result<(), Fail> {
    let mut line = LineBuffer::new();
    assert!(rt; line.is_empty());
    line.push(b'0');
    line.push(b'7');
    assert!(rt; !line.is_empty());
    let octets = line.octets().ok_or_else(|| Fail::new("a bad line"))?;
    assert_eq!(rt; octets.as_slice(), [7].as_slice());
    line.clear();
    for _ in 0..100_000 {
        line.push(b'0');
    }
    assert!(rt; line.octets().is_none());
    Ok(())
}

#[test]
fn gives_each_line(rt: HostRuntime) -> Result<(), Fail> {
    let mut lengths = Vec::new(rt.alloc());
    each_line(
        b"0A 0B\n\nFF".as_slice(),
        |line| Ok(lengths.push(line.text().len())?),
    )?;
    assert_eq!(rt; lengths.as_slice(), [5, 0, 2].as_slice());
    each_line(
        b"0A\n".as_slice(),
        |line| Ok(lengths.push(line.text().len())?),
    )?;
    assert_eq!(rt; lengths.as_slice(), [5, 0, 2, 2].as_slice());
    Ok(())
}
