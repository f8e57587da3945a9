//! Canonical bytes both ways: each defect with its place, and what is read back.
use ml_term::{BadBytes, BytesStop, compare, from_bytes, to_bytes};
use std::alloc::{AllocError, Global};
use std::cmp::Ordering;
use std::process::Abort;
use std::test::Fail;

// f(_0,g(-1,a),_1,_0), its bytes.
const NESTED: [u8; 40] = [
    3, 4, 1, 102, 0, 0, 0, 0, 0, 3, 2, 1, 103, 1, 0x1f, 255, 255, 255, 255, 255, 255, 255, 2, 1,
    97, 0, 0, 0, 0, 1, 0, 0, 0, 0, 0, 9, 9, 9, 9, 9,
];

// How many of them are the term's.
const NESTED_LEN: usize = 35;

// The place of the first defect from a place on, or the place after the term that stands there.
fn read(rt: &impl Abort, alloc: Global, bytes: &[u8], at: usize) -> Result<usize, Option<usize>> {
    assert!(rt; at <= bytes.len());
    match from_bytes(alloc, bytes, at) {
        Ok((_, after)) => Ok(after),
        Err(BytesStop::Bad(BadBytes { place })) => Err(Some(place)),
        Err(BytesStop::OutOfMemory) => Err(None),
    }
}

#[test]
fn each_defect_is_told_with_its_place(rt: HostRuntime) {
    let rows: [(&[u8], usize, Result<usize, usize>); 33] = [
        // sound
        (&[3, 1, 1, 0x70, 1, 0x20, 0, 0, 0, 0, 0, 0, 1], 0, Ok(13)),
        (&[1, 0x1f, 255, 255, 255, 255, 255, 255, 255], 0, Ok(9)),
        (&[1, 0x3f, 255, 255, 255, 255, 255, 255, 255], 0, Ok(9)),
        (&[0, 0, 0, 0, 0], 0, Ok(5)),
        (&[2, 0], 0, Ok(2)),
        (&[7, 7, 2, 0, 7], 2, Ok(4)),
        (&[2, 4, 7, 13, 32, 126], 0, Ok(6)),
        (&[3, 2, 1, 102, 0, 0, 0, 0, 0, 0, 0, 0, 0, 1], 0, Ok(14)),
        // another tag
        (&[4], 0, Err(0)),
        (&[255, 0], 0, Err(0)),
        (&[3, 2, 1, 102, 2, 0, 4], 0, Err(6)),
        // the end
        (&[], 0, Err(0)),
        (&[2, 0], 2, Err(2)),
        (&[0, 255, 255, 255], 0, Err(4)),
        (&[1, 255, 0, 0, 0, 0, 0, 0], 0, Err(8)),
        (&[2], 0, Err(1)),
        (&[3], 0, Err(1)),
        (&[3, 1], 0, Err(2)),
        (&[2, 3, 97, 97], 0, Err(4)),
        // a variable's number that leaves one out
        (&[0, 0, 0, 0, 1], 0, Err(0)),
        (&[3, 2, 1, 102, 0, 0, 0, 0, 0, 0, 0, 0, 0, 2], 0, Err(9)),
        (&[3, 2, 1, 102, 2, 0, 0, 1, 0, 0, 0], 0, Err(6)),
        // an integer out of range
        (&[1, 0x40, 0, 0, 0, 0, 0, 0, 0], 0, Err(0)),
        (&[2, 0, 1, 255, 0, 0, 0, 0, 0, 0, 0], 2, Err(2)),
        // bytes that no name has, before the end
        (&[2, 1, 6], 0, Err(2)),
        (&[2, 2, 97, 14], 0, Err(3)),
        (&[3, 1, 1, 31], 0, Err(3)),
        (&[3, 1, 3, 97, 127], 0, Err(4)),
        (&[2, 255, 97, 128, 97], 0, Err(3)),
        // the arity 0
        (&[3, 0], 0, Err(1)),
        (&[3, 0, 1, 6], 0, Err(1)),
        (&[2, 0, 3, 0, 0], 2, Err(3)),
        (&[3, 1, 0, 3, 0, 0], 0, Err(4)),
    ];
    let alloc = rt.alloc();
    for (i, (bytes, at, want)) in rows.iter().enumerate() {
        assert_eq!(rt; read(&rt, alloc, bytes, *at), want.map_err(Some), "row {i}");
    }
}

#[test]
fn bytes_that_are_cut_end_too_early(rt: HostRuntime) {
    let alloc = rt.alloc();
    for len in 0..NESTED_LEN {
        assert_eq!(rt;
            read(&rt, alloc, &NESTED[..len], 0),
            Err(Some(len)),
            "{len} bytes"
        );
    }
    assert_eq!(rt; read(&rt, alloc, &NESTED, 0), Ok(NESTED_LEN));
}

// The bytes that are read as a term are those that the term is written as.
fn written_again(rt: &impl Abort, alloc: Global, bytes: &[u8]) -> Result<bool, AllocError> {
    let (term, after) = from_bytes(alloc, bytes, 0).expect(rt, "the bytes are a term's");
    let again = to_bytes(alloc, &term)?;
    let (copy, _) = from_bytes(alloc, again.as_slice(), 0).expect(rt, "a term was written");
    Ok(again.as_slice() == &bytes[..after] && compare(&term, &copy) == Ordering::Equal)
}

#[test]
fn a_term_is_written_as_it_was_read(rt: HostRuntime) -> Result<(), Fail> {
    let alloc = rt.alloc();
    let rows: [&[u8]; 4] = [
        &[3, 1, 1, 0x70, 1, 0x20, 0, 0, 0, 0, 0, 0, 1],
        &[1, 0x1f, 255, 255, 255, 255, 255, 255, 255],
        &[2, 0],
        &NESTED,
    ];
    for bytes in rows {
        assert!(rt; written_again(&rt, alloc, bytes)?);
    }
    Ok(())
}

// The bytes of f(f(..)) of some levels round the atom without a name.
fn nested(alloc: Global, levels: usize) -> Result<Vec<u8>, AllocError> {
    let mut bytes = Vec::new(alloc);
    for _ in 0..levels {
        bytes.extend_from_slice(&[3, 1, 1, 102])?;
    }
    bytes.extend_from_slice(&[2, 0])?;
    Ok(bytes)
}

// The bytes of f(f(0,..),..) with 17 compounds of 255 arguments in turn.
fn wide(alloc: Global) -> Result<Vec<u8>, AllocError> {
    let mut bytes = Vec::new(alloc);
    for _ in 0..17 {
        bytes.extend_from_slice(&[3, 255, 0])?;
    }
    for _ in 0..17 * 254 + 1 {
        bytes.extend_from_slice(&[2, 0])?;
    }
    Ok(bytes)
}

#[test]
fn a_term_has_at_most_4096_nodes(rt: HostRuntime) -> Result<(), Fail> {
    let alloc = rt.alloc();
    assert_eq!(rt;
        read(&rt, alloc, nested(alloc, 4095)?.as_slice(), 0),
        Ok(4 * 4095 + 2)
    );
    assert_eq!(rt;
        read(&rt, alloc, nested(alloc, 4096)?.as_slice(), 0),
        Err(Some(4 * 4096))
    );
    assert_eq!(rt;
        read(&rt, alloc, nested(alloc, 9000)?.as_slice(), 0),
        Err(Some(4 * 4096))
    );
    assert_eq!(rt;
        read(&rt, alloc, wide(alloc)?.as_slice(), 0),
        Err(Some(17 * 3 + 2 * 4079))
    );
    assert!(rt; written_again(&rt, alloc, nested(alloc, 4095)?.as_slice())?);
    Ok(())
}
