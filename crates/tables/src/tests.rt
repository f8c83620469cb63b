use super::address::Address;
use super::columns::COLUMNS;
use super::factory::factory_value;
use super::family::FamilyId;
use super::place::{Place, place_of};
use std::test::Fail;

// ID, column, first and second index, and the cell of the number there.
const NAMED: [(u8, u8, u8, u8, usize); 9] = [
    (0, 1, 1, 0, 0),
    (0, 21, 16, 0, 590),
    (1, 4, 64, 0, 1241),
    (2, 4, 8, 0, 1279),
    (3, 4, 32, 0, 1407),
    (4, 1, 2, 1, 1411),
    (4, 1, 1, 2, 1456),
    (4, 3, 16, 16, 2175),
    (5, 3, 32, 0, 2271),
];

// Addresses of a list, past the last row or column, with a second index too many or too few, or of no family.
const NAMELESS: [(u8, u8, u8, u8); 10] = [
    (0, 22, 16, 0),
    (0, 23, 1, 0),
    (0, 0, 1, 0),
    (0, 1, 17, 0),
    (0, 1, 0, 0),
    (0, 1, 1, 1),
    (4, 1, 2, 0),
    (4, 1, 2, 17),
    (6, 1, 1, 0),
    (7, 1, 1, 1),
];

#[test]
fn addresses_name_number_columns_alone(rt: HostRuntime) {
    for (id, column, first, second, cell) in NAMED {
        assert_eq!(rt;
            Address {
                id,
                column,
                first,
                second,
            }
            .cell(),
            Some(cell)
        );
    }
    for (id, column, first, second) in NAMELESS {
        assert_eq!(rt;
            Address {
                id,
                column,
                first,
                second,
            }
            .cell(),
            None
        );
    }
}

#[test]
fn every_cell_goes_to_its_place_and_back(rt: HostRuntime) -> Result<(), Fail> {
    for cell in 0..2544 {
        let Some(place) = place_of(cell) else {
            return Err(Fail::new("a cell without a place"));
        };
        assert_eq!(rt; place.cell(), Some(cell));
        assert!(rt; place.holds(factory_value(cell), 0));
    }
    assert!(rt; place_of(2544).is_none());
    Ok(())
}

// A column by its place among all, a sent value, and what is stored for it. Detector options lose bit 3 beside bit 2;
// startup is 1 to 6, a time base action's pattern 0 to 32, 254 or 255, and its auxiliary function 0 to 15.
const SENT: [(usize, u16, Option<u16>); 9] = [
    (22, 0x0C, Some(0x04)),
    (22, 0xB4, Some(0xB4)),
    (22, 0x010C, None),
    (18, 0, None),
    (18, 6, Some(6)),
    (43, 33, None),
    (43, 254, Some(254)),
    (44, 16, None),
    (19, 65535, Some(65535)),
];

#[test]
fn values_are_stored_as_the_table_says(rt: HostRuntime) {
    for (column, sent, stored) in SENT {
        if column < 47 {
            assert_eq!(rt; COLUMNS[column].stored(sent), stored);
        }
    }
}

// An octet of a list, its value, the list's length, and whether that is allowed.
const LISTED: [(u8, u16, u16, bool); 6] = [
    (3, 16, 3, true),
    (3, 0, 3, false),
    (3, 0, 2, true),
    (3, 1, 2, false),
    (0, 16, 0, true),
    (0, 17, 0, false),
];

#[test]
fn a_list_is_judged_by_its_length(rt: HostRuntime) {
    for (octet, value, length, allowed) in LISTED {
        let place = Place {
            family: FamilyId::Sequence,
            first: 4,
            second: 4,
            column: 1,
            octet,
        };
        assert_eq!(rt; place.holds(value, length), allowed);
    }
}
