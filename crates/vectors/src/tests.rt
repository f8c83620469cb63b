use super::desk::Desk;

// The length of ring 1's list in sequence 1.
const LENGTH: usize = 2272;

// A table that nobody checked: the length is 200, and the first octet is no phase.
#[test]
fn a_list_length_above_sixteen_is_written_as_sixteen(rt: HostRuntime) {
    let mut desk = Desk::at_factory();
    desk.table[LENGTH] = 200;
    desk.table[LENGTH + 1] = 99;
    let answer = desk.read(&[3, 0, 7, 1, 1, 1, 1]);
    assert_eq!(rt; (answer.number, answer.length), (0, 26));
    assert_eq!(rt;
        desk.reply(26),
        [
            0, 0, 7, 1, 1, 1, 1, 1, 1, 16, 99, 0, 0, 0, 0, 0, 0, 0, 0, 0, 0, 0, 0, 0, 0, 0,
        ]
        .as_slice()
    );
}
