use super::list::BoundedList;

#[derive(Clone, Copy, PartialEq)]
struct Entry {
    place: u16,
    value: u16,
}

#[test]
fn fourth_is_refused(rt: HostRuntime) {
    let mut slots = [0u8; 3];
    let mut list = BoundedList::new(&mut slots);
    for (x, fits) in [(7u8, true), (8, true), (9, true), (10, false)] {
        assert!(rt; list.push(x).is_ok() == fits);
    }
    assert!(rt; list.as_slice() == [7, 8, 9].as_slice());
}

#[test]
fn old_content_is_not_answered(rt: HostRuntime) {
    let mut slots = [Entry { place: 9, value: 9 }; 4];
    let pushed = [Entry { place: 1, value: 5 }, Entry { place: 2, value: 6 }];
    let mut list = BoundedList::new(&mut slots);
    assert!(rt; list.len() == 0 && list.get(0).is_none());
    for e in pushed {
        assert!(rt; list.push(e).is_ok());
    }
    assert!(rt;
        list.as_slice() == pushed.as_slice()
            && list.get(1) == Some(pushed[1])
            && list.get(2).is_none()
    );
}
