// Tables of 0, 1, 2, 3 and 7 slots.
use keys::{Fnv, Key, Pair};
use slots::{Probe, Slot, empty, insert, is_marked, lookup, mark_key, unmark};

const fn pair(level: u8, container: u8) -> Pair {
    Pair { level, container }
}

// Inserts the keys, and writes the answers as hex digits: the place where a key was found, 8 more where it was put, f for full.
fn insert_all<K: Key>(slots: &mut [Slot<K>], keys: &[K]) -> u64 {
    let mut digits = 0u64;
    for key in keys {
        let digit = match insert(slots, *key) {
            Probe::Found(place) => place as u64,
            Probe::Free(place) => (place as u64).wrapping_add(8),
            Probe::Full => 15,
        };
        digits = digits.wrapping_mul(16).wrapping_add(digit);
    }
    digits
}

// Looks the keys up (the crate of the sets' tests has the same over a closure; tests share no crate), and writes the answers as binary digits, the first key's first.
fn look_up_all<K: Key>(slots: &[Slot<K>], count: usize, keys: &[K]) -> u64 {
    let mut digits = 0u64;
    for key in keys {
        digits = digits
            .wrapping_mul(2)
            .wrapping_add(u64::from(lookup(slots, count, *key)));
    }
    digits
}

#[test]
fn no_slots(rt: HostRuntime) {
    let mut none: [Slot<Pair>; 0] = [];
    assert_eq!(rt; insert_all(&mut none, &[pair(1, 2), pair(1, 2)]), 0xff);
    mark_key(&mut none, pair(1, 2));
    assert!(rt; !lookup(&none, 5, pair(1, 2)));
    assert!(rt; !is_marked(&none, pair(1, 2)));
}

#[test]
fn one_slot(rt: HostRuntime) {
    let mut slots = [Slot::Empty; 1];
    let keys = [Fnv::from(5), Fnv::from(5), Fnv::from(6)];
    assert_eq!(rt; insert_all(&mut slots, &keys), 0x80f);
    assert_eq!(rt; look_up_all(&slots, 1, &keys), 0b110);
    assert_eq!(rt; look_up_all(&slots, 0, &keys), 0);
    empty(&mut slots);
    assert_eq!(rt; look_up_all(&slots, 1, &keys), 0);
}

#[test]
fn two_slots_with_one_home(rt: HostRuntime) {
    let mut slots = [Slot::Empty; 2];
    let keys = [pair(0, 0), pair(0, 2), pair(0, 0), pair(0, 4), pair(0, 2)];
    assert_eq!(rt; insert_all(&mut slots, &keys), 0x981f0);
    assert_eq!(rt; look_up_all(&slots, 2, &keys), 0b11101);
}

#[test]
fn seven_slots_of_pairs(rt: HostRuntime) {
    let mut slots = [Slot::Empty; 7];
    let keys = [
        pair(0, 4),
        pair(0, 2),
        pair(1, 0),
        pair(0, 5),
        pair(2, 3),
        pair(1, 3),
        pair(2, 4),
        pair(1, 0),
        pair(0, 1),
        pair(2, 4),
    ];
    assert_eq!(rt; insert_all(&mut slots, &keys), 0xeb8c9da0f2);
    assert_eq!(rt; look_up_all(&slots, 7, &keys), 0b1111111101);
}

#[test]
fn seven_slots_of_fingerprints(rt: HostRuntime) {
    let mut slots = [Slot::Empty; 7];
    let keys = [
        Fnv::from(0),
        Fnv::from(7),
        Fnv::from(11),
        Fnv::from(6),
        Fnv::from(10),
        Fnv::from(0),
        Fnv::from(4),
        Fnv::from(8),
        Fnv::from(15),
        Fnv::from(7),
        Fnv::from(10),
    ];
    assert_eq!(rt; insert_all(&mut slots, &keys), 0xabce829df30);
    assert_eq!(rt; look_up_all(&slots, 7, &keys), 0b11111111011);
    mark_key(&mut slots, Fnv::from(11));
    mark_key(&mut slots, Fnv::from(15));
    assert!(rt;
        is_marked(&slots, Fnv::from(11))
            && !is_marked(&slots, Fnv::from(15))
            && !is_marked(&slots, Fnv::from(7))
    );
    unmark(&mut slots);
    assert!(rt; !is_marked(&slots, Fnv::from(11)));
    assert_eq!(rt; look_up_all(&slots, 7, &keys), 0b11111111011);
}

// The slot that a digit below 3 stands for: none, a key whose home is 0 of 3, or one whose home is 1 of 3.
fn damaged(digit: u32) -> Slot<Pair> {
    match digit % 3 {
        0 => Slot::Empty,
        1 => Slot::Plain(pair(0, 3)),
        _ => Slot::Marked(pair(0, 1)),
    }
}

// A plain walk of its own, from a home that is told. It steps by index and compares part by part, so that it shares nothing with the walk that it checks.
fn plain_walk(slots: &[Slot<Pair>; 3], home: usize, key: Pair) -> bool {
    for step in 0..3usize {
        let met = slots[(home % 3 + step) % 3].key();
        if met.is_none_or(|other| other.level == key.level && other.container == key.container) {
            return met.is_some();
        }
    }
    false
}

// Looks the key up in all 27 tables of three such slots, and writes the answers as binary digits, the last table's first; none where a plain walk finds otherwise.
fn in_all_tables(key: Pair, home: usize) -> Option<u64> {
    let mut digits = 0u64;
    for t in 0..27u32 {
        let slots = [damaged(t), damaged(t / 3), damaged(t / 9)];
        let met = lookup(&slots, 3, key);
        if met != plain_walk(&slots, home, key) || lookup(&slots, 0, key) {
            return None;
        }
        digits |= u64::from(met) << t;
    }
    Some(digits)
}

#[test]
fn damaged_tables(rt: HostRuntime) {
    assert_eq!(rt; in_all_tables(pair(0, 3), 0), Some(0x2cb64b2));
    assert_eq!(rt; in_all_tables(pair(0, 1), 1), Some(0x7e3c1c0));
    assert_eq!(rt; in_all_tables(pair(9, 9), 2), Some(0));
}
