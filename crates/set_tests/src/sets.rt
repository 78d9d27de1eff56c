// Exact tables, and sets that are one of two.
use bloom::BloomFilter;
use exact::ExactTable;
use exact::remember::remember;
use keys::{Fnv, Key, Pair};
use live::{LiveSet, OneOf};
use slots::Slot;
use std::test::Fail;

// What is answered to each key, as binary digits, the first key's first.
fn digits<K: Copy, F: FnMut(K) -> bool>(keys: &[K], mut answer: F) -> u64
    requires { F.IsAlwaysCallable answer }
{
    let mut digits = 0u64;
    for key in keys {
        digits = digits.wrapping_mul(2).wrapping_add(u64::from(answer(*key)));
    }
    digits
}

// Learns the keys, and tells which were learned.
fn learn_each<K: Key, L: LiveSet<K>>(set: &mut L, keys: &[K]) -> u64 {
    digits(keys, |key| set.learn(key))
}

// Marks the keys.
fn mark_each<K: Key, L: LiveSet<K>>(set: &mut L, keys: &[K]) {
    for key in keys {
        set.mark(*key);
    }
}

// What the set says of the keys.
fn says_of<K: Key, L: LiveSet<K>>(set: &L, keys: &[K]) -> u64 {
    digits(keys, |key| set.says(key))
}

#[test]
fn marked_keys_alone(rt: HostRuntime) -> Result<(), Fail> {
    let mut set = ExactTable::over(vec![in rt.alloc(); Slot::Empty; 4]?);
    let keys = [
        Fnv::from(5),
        Fnv::from(6),
        Fnv::from(5),
        Fnv::from(7),
        Fnv::from(8),
    ];
    assert_eq!(rt; set.capacity(), 4);
    assert_eq!(rt; learn_each(&mut set, &keys), 0b11110);
    mark_each(&mut set, &[Fnv::from(5)]);
    assert_eq!(rt; says_of(&set, &keys), 0b11111);
    set.seal();
    assert_eq!(rt; says_of(&set, &keys), 0);
    mark_each(&mut set, &[Fnv::from(8), Fnv::from(5)]);
    assert_eq!(rt; says_of(&set, &keys), 0b10100);
    assert!(rt; !set.learn(Fnv::from(6)));
    Ok(())
}

#[test]
fn sealed_again_and_started_again(rt: HostRuntime) -> Result<(), Fail> {
    let mut set = ExactTable::over(vec![in rt.alloc(); Slot::Marked(Pair {
        level: 1,
        container: 1
    }); 2]?);
    let keys = [
        Pair {
            level: 1,
            container: 1,
        },
        Pair {
            level: 1,
            container: 2,
        },
    ];
    assert_eq!(rt; learn_each(&mut set, &keys), 0b11);
    set.seal();
    mark_each(&mut set, &keys);
    assert_eq!(rt; says_of(&set, &keys), 0b11);
    set.seal();
    assert_eq!(rt; says_of(&set, &keys), 0);
    set.start();
    assert_eq!(rt; says_of(&set, &keys), 0b11);
    set.seal();
    mark_each(&mut set, &keys);
    assert_eq!(rt; says_of(&set, &keys), 0);
    set.start();
    assert_eq!(rt; learn_each(&mut set, &[keys[1], keys[1], keys[0]]), 0b110);
    set.seal();
    mark_each(&mut set, &keys);
    assert_eq!(rt; says_of(&set, &keys), 0b01);
    Ok(())
}

#[test]
fn remembers_what_is_in_both_lists(rt: HostRuntime) -> Result<(), Fail> {
    let learned = [Fnv::from(1), Fnv::from(2), Fnv::from(3)];
    let marked = [Fnv::from(4), Fnv::from(3), Fnv::from(2)];
    let asked = [Fnv::from(1), Fnv::from(2), Fnv::from(3), Fnv::from(4)];
    let set = remember(vec![in rt.alloc(); Slot::Empty; 7]?, &learned, &marked);
    assert_eq!(rt; says_of(&set, &asked), 0b0110);
    let short = remember(vec![in rt.alloc(); Slot::Empty; 2]?, &learned, &marked);
    assert_eq!(rt; says_of(&short, &asked), 0b0100);
    let none = remember(vec![in rt.alloc(); Slot::Empty; 0]?, &learned, &marked);
    assert_eq!(rt; says_of(&none, &asked), 0);
    Ok(())
}

#[test]
fn one_of_two(rt: HostRuntime) -> Result<(), Fail> {
    let keys = [Fnv::from(1), Fnv::from(2), Fnv::from(3), Fnv::from(57)];
    let exact = ExactTable::over(vec![in rt.alloc(); Slot::Empty; 3]?);
    let mut first: OneOf<ExactTable<Fnv>, BloomFilter> = OneOf::First(exact);
    assert_eq!(rt; learn_each(&mut first, &keys), 0b1110);
    first.seal();
    mark_each(&mut first, &keys);
    assert_eq!(rt; says_of(&first, &keys), 0b1110);
    let filter = BloomFilter::over(vec![in rt.alloc(); 0u8; 3]?);
    let mut second: OneOf<ExactTable<Fnv>, BloomFilter> = OneOf::Second(filter);
    assert_eq!(rt; learn_each(&mut second, &keys), 0b1111);
    second.seal();
    mark_each(&mut second, &[Fnv::from(1), Fnv::from(2), Fnv::from(3)]);
    assert_eq!(rt; says_of(&second, &keys), 0b1111);
    Ok(())
}
