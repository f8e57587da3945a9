//! Bit lists at the borders of words.
use crate::{Bits, OutOfMemory};
use std::alloc::Global;
use std::cmp::Ordering;
use std::test::Fail;

// So many zeros, and then a tail.
fn zeros_then(alloc: Global, zeros: usize, tail: &[bool]) -> Result<Bits, OutOfMemory> {
    let mut list = Bits::empty(alloc);
    for _ in 0..zeros {
        list.push(false)?;
    }
    for bit in tail {
        list.push(*bit)?;
    }
    Ok(list)
}

// The list as digits.
fn digits(alloc: Global, list: &Bits) -> Result<String, OutOfMemory> {
    let mut text = String::new(alloc);
    for i in 0..list.len() {
        text.push(if list.bit(i) { '1' } else { '0' })?;
    }
    Ok(text)
}

// Lists on both sides of the borders of words, with their order and what they have in common.
#[test]
fn compares_across_word_borders(rt: HostRuntime) -> Result<(), Fail> {
    let alloc = rt.alloc();
    for n in [0, 1, 62, 63, 64, 65, 127, 128, 129] {
        let short = zeros_then(alloc, n, &[])?;
        let zero = zeros_then(alloc, n, &[false])?;
        let one = zeros_then(alloc, n, &[true])?;
        let long = zeros_then(alloc, n, &[true, false])?;
        let table = [
            (&short, &short, Ordering::Equal, true, n),
            (&short, &zero, Ordering::Less, true, n),
            (&zero, &short, Ordering::Greater, false, n),
            (&short, &long, Ordering::Less, true, n),
            (&zero, &one, Ordering::Less, false, n),
            (&one, &zero, Ordering::Greater, false, n),
            (&zero, &long, Ordering::Less, false, n),
            (&one, &long, Ordering::Less, true, n + 1),
            (&long, &one, Ordering::Greater, false, n + 1),
        ];
        for (first, second, order, begins, common) in table {
            assert_eq!(rt; first.cmp(second), order, "order at {n}");
            assert_eq!(rt; first.is_prefix_of(second), begins, "prefix at {n}");
            assert_eq!(rt; first.common_len(second), common, "common bits at {n}");
        }
    }
    Ok(())
}

// Bits from bytes, numbers and other lists, as digits.
#[test]
fn makes_lists_of_bytes_and_numbers(rt: HostRuntime) -> Result<(), Fail> {
    let alloc = rt.alloc();
    let mut list = Bits::from_bytes(alloc, &[0b1011_0001, 0b1000_0000], 9)?;
    assert_eq!(rt; digits(alloc, &list)?.as_str(), "101100011");
    list.push_bits(0b101, 3)?;
    list.push_bytes(&[0b0000_1111])?;
    assert_eq!(rt; digits(alloc, &list)?.as_str(), "10110001110100001111");
    let front = list.prefix(list.len().min(4))?;
    assert_eq!(rt; digits(alloc, &front)?.as_str(), "1011");
    let copy = list.copy_of()?;
    assert!(rt; copy == list);
    assert!(rt; !copy.is_empty());
    Ok(())
}

// A list that is cut short keeps nothing of what it was, and takes no memory.
#[test]
fn cuts_a_list_to_another(rt: HostRuntime) -> Result<(), Fail> {
    let alloc = rt.alloc();
    let mut list = Bits::from_bytes(alloc, &[255; 9], 70)?;
    list.make_room(130)?;
    let other = Bits::from_bytes(alloc, &[0b0101_1111], 8)?;
    list.set_prefix(&other, other.len().min(3));
    list.push_bits(0, 2)?;
    assert_eq!(rt; digits(alloc, &list)?.as_str(), "01000");
    Ok(())
}

// The places of two codes in turn, for the codes of 0 and 2 and for those of 1 and 0: they differ
// first at place 125, where the first has a 1.
#[test]
fn orders_interleaved_codes(rt: HostRuntime) -> Result<(), Fail> {
    let alloc = rt.alloc();
    let first = interleaved(alloc, 0x6000_0000_0000_0000, 0x6000_0000_0000_0002)?;
    let second = interleaved(alloc, 0x6000_0000_0000_0001, 0x6000_0000_0000_0000)?;
    assert_eq!(rt; first.len(), 128);
    assert_eq!(rt; first.common_len(&second), 125);
    assert_eq!(rt; first.cmp(&second), Ordering::Greater);
    Ok(())
}

fn interleaved(alloc: Global, a: u64, b: u64) -> Result<Bits, OutOfMemory> {
    let mut list = Bits::empty(alloc);
    for place in 0..64u64 {
        list.push(a >> (63 - place) & 1 == 1)?;
        list.push(b >> (63 - place) & 1 == 1)?;
    }
    Ok(list)
}

// Lists may be sent to threads and shared by them.
#[test]
fn may_be_shared(rt: HostRuntime) {
    shared(&Bits::empty(rt.alloc()));
}

fn shared<T: Send + Sync>(_list: &T) {}
