use d_values::{Key, KeyPart, Text, compare_text, join_text};
use std::alloc::{AllocError, Global};
use std::cmp::Ordering;
use std::test::Fail;

#[derive(Clone, Copy)]
enum Part {
    N(i64),
    T(&'static [u8]),
    Absent,
}

// Adds the part to a key, unless it is absent.
fn add_part(alloc: Global, key: &mut Key, part: Part) -> Result<(), AllocError> {
    match part {
        Part::N(number) => key.push(KeyPart::Number(number)),
        Part::T(bytes) => {
            let text = Text::from_slice(alloc, bytes)?;
            key.push(KeyPart::Name(text))
        }
        Part::Absent => Ok(()),
    }
}

fn key_of(alloc: Global, parts: [Part; 2]) -> Result<Key, AllocError> {
    let mut key = Key::new(alloc);
    for part in parts {
        add_part(alloc, &mut key, part)?;
    }
    Ok(key)
}

// How keys of these parts compare, and whether they are equal.
fn compare(
    alloc: Global,
    left: [Part; 2],
    right: [Part; 2],
) -> Result<(Ordering, bool), AllocError> {
    let left = key_of(alloc, left)?;
    let right = key_of(alloc, right)?;
    Ok((left.cmp(&right), left == right))
}

#[test]
fn keys_ascend(rt: HostRuntime) -> Result<(), Fail> {
    let ascending = [
        [Part::Absent, Part::Absent],
        [Part::N(i64::MIN), Part::Absent],
        [Part::N(-1), Part::Absent],
        [Part::N(0), Part::Absent],
        [Part::N(9), Part::T(b"z")],
        [Part::N(10), Part::Absent],
        [Part::N(10), Part::N(-5)],
        [Part::N(10), Part::T(b"")],
        [Part::T(b""), Part::Absent],
        [Part::T(b"10"), Part::Absent],
        [Part::T(b"9"), Part::Absent],
        [Part::T(b"a"), Part::Absent],
        [Part::T(b"a"), Part::N(0)],
        [Part::T(b"ab"), Part::Absent],
        [Part::T(b"b"), Part::Absent],
        [Part::T(b"b\x7f"), Part::Absent],
        [Part::T(b"b\x80"), Part::Absent],
    ];
    for i in 0..ascending.len() {
        for j in 0..ascending.len() {
            let (order, is_same) = compare(rt.alloc(), ascending[i], ascending[j])?;
            assert!(rt; order == i.cmp(&j) && is_same == (i == j), "{i} {j}");
        }
    }
    Ok(())
}

// Whether a key has these parts.
fn has_parts(alloc: Global, key: &Key, parts: [Part; 2]) -> Result<bool, AllocError> {
    let other = key_of(alloc, parts)?;
    Ok(*key == other)
}

// Overwrites the two parts of a key, and says whether it has the others then.
fn overwrite(
    alloc: Global,
    key: &mut Key,
    number: i64,
    name: &'static [u8],
) -> Result<bool, AllocError> {
    if key.parts().len() != 2 {
        return Ok(false);
    }
    key.set_number(0, number);
    key.set_name(1, name)?;
    has_parts(alloc, key, [Part::N(number), Part::T(name)])
}

// Overwrites the first part, a number, by a text, and says whether the key has that then.
fn overwrite_number(
    alloc: Global,
    key: &mut Key,
    name: &'static [u8],
    second: &'static [u8],
) -> Result<bool, AllocError> {
    if key.parts().len() != 2 {
        return Ok(false);
    }
    key.set_name(0, name)?;
    has_parts(alloc, key, [Part::T(name), Part::T(second)])
}

// Whether a key of two parts has each of those that it is given.
fn is_overwritten(alloc: Global, key: &mut Key) -> Result<bool, AllocError> {
    let by_longer = overwrite(alloc, key, -7, b"a longer name")?;
    let by_empty = overwrite(alloc, key, 3, b"")?;
    let by_shorter = overwrite(alloc, key, 0, b"ab")?;
    let by_text = overwrite_number(alloc, key, b"x", b"ab")?;
    Ok(by_longer && by_empty && by_shorter && by_text)
}

#[test]
fn parts_are_overwritten(rt: HostRuntime) -> Result<(), Fail> {
    let mut key = key_of(rt.alloc(), [Part::N(1), Part::T(b"first")])?;
    let copy = key.clone()?;
    let is_overwritten = is_overwritten(rt.alloc(), &mut key)?;
    assert!(rt; is_overwritten);
    let is_kept = has_parts(rt.alloc(), &copy, [Part::N(1), Part::T(b"first")])?;
    assert!(rt; is_kept);
    Ok(())
}

#[test]
fn texts_keep_their_bytes(rt: HostRuntime) -> Result<(), Fail> {
    let bytes = Vec::from_slice(rt.alloc(), b"read")?;
    let text = Text::from(bytes);
    let copy = text.clone()?;
    assert!(rt; copy.as_bytes() == b"read".as_slice());
    assert!(rt; text.into_bytes().as_slice() == b"read".as_slice());
    Ok(())
}

const LONG: [u8; 254] = [b'x'; 254];

// The length, the first and the last byte of two texts that are joined.
fn joined(
    alloc: Global,
    one: &[u8],
    other: &[u8],
) -> Result<(usize, Option<u8>, Option<u8>), AllocError> {
    let text = join_text(alloc, one, other)?;
    let bytes = text.as_bytes();
    Ok((bytes.len(), bytes.first().copied(), bytes.last().copied()))
}

#[test]
fn texts_join(rt: HostRuntime) -> Result<(), Fail> {
    let rows: [(&[u8], &[u8], (usize, Option<u8>, Option<u8>)); 4] = [
        (b"ab", b"cat", (5, Some(b'a'), Some(b't'))),
        (&LONG, b"yz", (255, Some(b'x'), Some(b'y'))),
        (b"", b"", (0, None, None)),
        (b"z", &LONG, (255, Some(b'z'), Some(b'x'))),
    ];
    for (one, other, wanted) in rows {
        let found = joined(rt.alloc(), one, other)?;
        assert!(rt; found == wanted, "{wanted:?}");
    }
    Ok(())
}

#[test]
fn texts_ascend_by_their_bytes(rt: HostRuntime) {
    assert_eq!(rt; compare_text(b"a", b"ab"), Ordering::Less);
    assert_eq!(rt; compare_text(b"b\x80", b"b\x7f"), Ordering::Greater);
    assert_eq!(rt; compare_text(b"", b""), Ordering::Equal);
}
