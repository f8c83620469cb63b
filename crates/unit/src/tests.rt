use super::answer::Answer;
use super::request::request;
use super::start::{begin, factory_start};
use super::states::Unopened;
use memory::WordMemory;
use memory::packed::PackedMemory;
use tables::work::{Finding, StagedWrite};

// A get of the options of phase 1 and of the mode of split 16's phase 16.
const GET: [u8; 10] = [1, 2, 0, 20, 1, 0, 4, 2, 16, 16];

// Asks words, with work lists of these lengths.
fn ask(
    mode: u8,
    running: &mut [u16],
    draft: &mut [u16],
    octets: &[u8],
    reply: &mut [u8],
    writes: usize,
    findings: usize,
) -> Answer {
    let mut write_slots = [StagedWrite { cell: 0, value: 0 }; 1024];
    let mut finding_slots = [Finding {
        rule: 0,
        high: 0,
        low: 0,
    }; 64];
    let mut running = WordMemory { words: running };
    let mut draft = WordMemory { words: draft };
    request(
        mode,
        &mut running,
        &mut draft,
        octets,
        reply,
        &mut write_slots[0..writes.min(1024)],
        &mut finding_slots[0..findings.min(64)],
    )
}

// Lengths of reply memory and of the work lists, and the number that is returned.
const ROOMS: [(usize, usize, usize, u8); 6] = [
    (0, 1024, 64, 1),
    (1023, 1024, 64, 1),
    (1024, 1023, 64, 1),
    (1024, 1024, 63, 1),
    (1024, 1024, 64, 0),
    (1030, 1024, 64, 0),
];

#[test]
fn short_rooms_are_refused_and_left_alone(rt: HostRuntime) {
    for (size, writes, findings, number) in ROOMS {
        let mut running = [0x0500; 2544];
        let mut draft = [0x0600; 2544];
        let mut reply = [7; 1030];
        let a = ask(
            2,
            &mut running,
            &mut draft,
            &GET,
            &mut reply[0..size.min(1030)],
            writes,
            findings,
        );
        assert_eq!(rt; (a.number, a.mode), (number, 2));
        let (first, last, later) = if number == 1 { (7, 7, 7) } else { (0, 0, 7) };
        assert_eq!(rt; (reply[0], reply[1023], reply[1024]), (first, last, later));
    }
}

// Lengths of the running and of the draft words, the mode, and the number that is returned.
const COUNTS: [(usize, usize, u8, u8); 7] = [
    (2543, 2544, 0, 9),
    (2545, 2544, 0, 9),
    (2544, 2543, 0, 9),
    (2544, 2544, 3, 5),
    (2544, 2544, 255, 5),
    (2544, 2544, 1, 0),
    (2544, 2544, 2, 0),
];

#[test]
fn counts_are_tested_before_modes(rt: HostRuntime) {
    for (cells, draft_cells, mode, number) in COUNTS {
        let mut running = [0; 2545];
        let mut draft = [0; 2545];
        let mut reply = [7; 1024];
        let a = ask(
            mode,
            &mut running[0..cells.min(2545)],
            &mut draft[0..draft_cells.min(2545)],
            &GET,
            &mut reply,
            1024,
            64,
        );
        assert_eq!(rt; (a.number, a.mode), (number, mode));
        assert_eq!(rt; reply[0], if number == 9 { 7 } else { number });
    }
}

#[test]
fn a_get_reads_wide_and_narrow_words(rt: HostRuntime) {
    let mut running = [0xA5A5; 2544];
    let mut draft = [0; 2544];
    let mut reply = [7; 1024];
    assert_eq!(rt;
        factory_start(&mut WordMemory {
            words: &mut running,
        },)
        .number,
        0
    );
    running[19] = 0x0102;
    let a = ask(0, &mut running, &mut draft, &GET, &mut reply, 1024, 64);
    assert_eq!(rt; (a.number, a.length), (0, 6));
    assert_eq!(rt; &reply[0..7], [0, 2, 1, 2, 0, 2, 0].as_slice());
    assert_eq!(rt; (running[18], running[0]), (0xA501, 0xA500));
}

#[test]
fn a_get_reads_packed_octets(rt: HostRuntime) {
    let mut running = [0; 2624];
    let mut reply = [7; 1024];
    let mut write_slots = [StagedWrite { cell: 0, value: 0 }; 1024];
    let mut finding_slots = [Finding {
        rule: 0,
        high: 0,
        low: 0,
    }; 64];
    let mut memory = PackedMemory {
        octets: &mut running,
    };
    assert_eq!(rt; factory_start(&mut memory).number, 0);
    let mut draft = WordMemory {
        words: &mut [9; 2544],
    };
    let a = request(
        0,
        &mut memory,
        &mut draft,
        &GET,
        &mut reply,
        &mut write_slots,
        &mut finding_slots,
    );
    assert_eq!(rt; (a.number, a.length), (0, 6));
    assert_eq!(rt; &reply[0..7], [0, 2, 0, 0, 0, 2, 0].as_slice());
    assert_eq!(rt;
        factory_start(&mut PackedMemory {
            octets: &mut [1; 2623],
        },)
        .number,
        9
    );
}

// The options of phase 1 become 0x0102.
const ONE: [u8; 7] = [1, 0, 20, 1, 0, 1, 2];

// The options of phase 1 become 0x0304, and the mode of split 1's phase 1 becomes 250, which no mode may be.
const TWO: [u8; 13] = [2, 0, 20, 1, 0, 4, 2, 1, 1, 3, 4, 0, 250];

// Begins, opens an edit, sets twice and gives the edit up: whether each set was accepted, and the mode; none where the
// unit does not begin or open.
fn edit(running: &mut [u16], draft: &mut [u16]) -> Option<(bool, bool, u8)> {
    let mut writes = [StagedWrite { cell: 0, value: 0 }; 1024];
    let mut running = WordMemory { words: running };
    let mut draft = WordMemory { words: draft };
    let Ok(quiet) = begin(&mut running) else {
        return None;
    };
    match quiet.open(&mut running, &mut draft) {
        Ok(editing) => {
            let one = editing.set(&mut draft, &ONE, &mut writes).is_ok();
            let two = editing.set(&mut draft, &TWO, &mut writes).is_ok();
            Some((one, two, editing.abandon().into_mode()))
        }
        Err(Unopened { state, refusal: _ }) => {
            let _ = state.into_mode();
            None
        }
    }
}

#[test]
fn typed_calls_edit_the_draft(rt: HostRuntime) {
    let mut running = [0xA5A5; 2544];
    let mut draft = [0x6666; 2544];
    assert_eq!(rt; edit(&mut running, &mut draft), Some((true, false, 0)));
    assert_eq!(rt;
        (running[18], running[19], running[1409]),
        (0xA501, 0, 0xA502)
    );
    assert_eq!(rt;
        (draft[18], draft[19], draft[1409]),
        (0x6601, 0x0102, 0x6602)
    );
}
