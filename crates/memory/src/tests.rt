use super::copy::{copy_cells, count_differing};
use super::packed::PackedMemory;
use super::{ParameterMemory, WordMemory};
use std::process::Abort;

#[test]
fn words_hold_narrow_and_wide_cells(rt: HostRuntime) {
    let mut words = [0x0700; 20];
    let mut memory = WordMemory { words: &mut words };
    assert!(rt; memory.write(0, 255).is_ok());
    assert!(rt; memory.write(0, 256).is_err());
    assert!(rt; memory.write(19, 65535).is_ok());
    assert!(rt; memory.write(20, 0).is_err());
    assert_eq!(rt; memory.read(0), Some(255));
    assert_eq!(rt; words[0], 0x07ff);
}

#[test]
fn wide_cells_take_two_octets_high_first(rt: HostRuntime) {
    let mut octets = [0; 2624];
    let mut memory = PackedMemory {
        octets: &mut octets,
    };
    assert!(rt; memory.write(19, 0x0102).is_ok());
    assert!(rt; memory.write(611, 0x0304).is_ok());
    assert!(rt; memory.write(2543, 5).is_ok());
    assert_eq!(rt; memory.read(611), Some(0x0304));
    assert_eq!(rt; &octets[19..21], [1, 2].as_slice());
    assert_eq!(rt; &octets[627..629], [3, 4].as_slice());
    assert_eq!(rt; octets[2623], 5);
}

// There is no cell to read or write.
fn check_no_cells<M: ParameterMemory>(rt: &impl Abort, memory: &mut M)
    requires { M.sound memory.old }
{
    assert_eq!(rt; memory.count(), 0);
    assert_eq!(rt; memory.read(0), None);
    assert!(rt; memory.write(0, 0).is_err());
}

#[test]
fn other_lengths_hold_no_cells(rt: HostRuntime) {
    check_no_cells(&rt, &mut WordMemory { words: &mut [] });
    check_no_cells(
        &rt,
        &mut PackedMemory {
            octets: &mut [0; 2623],
        },
    );
    check_no_cells(
        &rt,
        &mut PackedMemory {
            octets: &mut [0; 2625],
        },
    );
}

#[test]
fn words_are_copied_into_octets(rt: HostRuntime) {
    let mut words = [0x0703; 2544];
    let mut octets = [0; 2624];
    let mut from = WordMemory { words: &mut words };
    let mut to = PackedMemory {
        octets: &mut octets,
    };
    assert_eq!(rt; count_differing(&mut from, &mut to).ok(), Some(2544));
    assert!(rt; copy_cells(&mut from, &mut to).is_ok());
    assert_eq!(rt; to.read(0), Some(3));
    assert_eq!(rt; to.read(19), Some(0x0703));
}
