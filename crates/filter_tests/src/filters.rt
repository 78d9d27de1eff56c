// Filters over 0, 1, 3, 65,536 and 65,537 bytes, and up to one key more than they learn.
use bloom::BloomFilter;
use keys::{Fnv, Pair};
use live::LiveSet;
use std::alloc::Global;
use std::test::Fail;

// A sealed filter over so many bytes, each 0xaa before, with two keys of two kinds marked.
fn with_two_marks(heap: Global, long: usize) -> Result<BloomFilter, Fail> {
    let mut filter = BloomFilter::over(vec![in heap; 0xaau8; long]?);
    <BloomFilter as LiveSet<Fnv>>::seal(&mut filter);
    filter.mark(Fnv { number: 77 });
    filter.mark(Pair {
        level: 3,
        container: 9,
    });
    Ok(filter)
}

// The sum of each byte times one more than its place, which tells where the set bits are.
fn weighed(filter: BloomFilter) -> u64 {
    let bytes = filter.into_bytes();
    let mut sum = 0u64;
    // A byte's weight is one more than its place.
    for (i, byte) in bytes.iter().enumerate() {
        sum = sum.wrapping_add((i as u64).wrapping_add(1).wrapping_mul(u64::from(*byte)));
    }
    sum
}

// What the filter says of the numbers 0 to 63, as binary digits, the last number's first.
fn says_of(filter: &BloomFilter) -> u64 {
    let mut digits = 0u64;
    // A loop, since a shift in a closure would not know that it is below 64.
    for n in 0..64u64 {
        digits |= u64::from(filter.says(Fnv { number: n })) << n;
    }
    digits
}

#[test]
fn no_bytes(rt: HostRuntime) -> Result<(), Fail> {
    let filter = with_two_marks(rt.alloc(), 0)?;
    assert_eq!(rt; says_of(&filter), 0xffff_ffff_ffff_ffff);
    Ok(())
}

#[test]
fn one_byte(rt: HostRuntime) -> Result<(), Fail> {
    assert_eq!(rt; weighed(with_two_marks(rt.alloc(), 1)?), 215);
    let mut filter = BloomFilter::over(vec![in rt.alloc(); 0u8; 1]?);
    assert_eq!(rt; says_of(&filter), 0xffff_ffff_ffff_ffff);
    <BloomFilter as LiveSet<Fnv>>::seal(&mut filter);
    assert_eq!(rt; says_of(&filter), 0);
    filter.mark(Fnv { number: 77 });
    assert_eq!(rt; says_of(&filter), 0x2020_2020_2020_2020);
    Ok(())
}

#[test]
fn three_bytes_say_yes_to_a_fourth_key(rt: HostRuntime) -> Result<(), Fail> {
    let mut filter = BloomFilter::over(vec![in rt.alloc(); 0u8; 3]?);
    <BloomFilter as LiveSet<Fnv>>::seal(&mut filter);
    for n in 1..4u64 {
        filter.mark(Fnv { number: n });
    }
    assert_eq!(rt; says_of(&filter), 0x0200_0000_0000_000e);
    Ok(())
}

#[test]
fn as_many_bytes_as_serve(rt: HostRuntime) -> Result<(), Fail> {
    assert_eq!(rt; weighed(with_two_marks(rt.alloc(), 65536)?), 15_231_858);
    Ok(())
}

#[test]
fn a_byte_beyond_stays(rt: HostRuntime) -> Result<(), Fail> {
    assert_eq!(rt; weighed(with_two_marks(rt.alloc(), 65537)?), 26_373_148);
    Ok(())
}

#[test]
fn learns_2016_keys(rt: HostRuntime) -> Result<(), Fail> {
    let mut filter = BloomFilter::over(vec![in rt.alloc(); 0u8; 8]?);
    for n in 0..2016u64 {
        assert!(rt; filter.learn(Fnv { number: n % 1000 }));
    }
    assert!(rt; !filter.learn(Fnv { number: 3 }));
    <BloomFilter as LiveSet<Fnv>>::start(&mut filter);
    assert!(rt; filter.learn(Fnv { number: 3 }));
    <BloomFilter as LiveSet<Fnv>>::seal(&mut filter);
    assert!(rt; !filter.learn(Fnv { number: 3 }));
    assert_eq!(rt; <BloomFilter as LiveSet<Fnv>>::capacity(&filter), 2016);
    Ok(())
}
