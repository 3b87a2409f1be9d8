//! Keys of a source that gives bytes and of one that fails, and hashes that differ.

use keyed_hash::HashKey;
use std::hash::{BuildHasher, Hasher};
use std::io;
use std::io::ErrorKind;
use std::random::RandomSource;

// Gives the same byte each time, or fails.
struct Source(Option<u8>);

impl RandomSource for Source {
    fn fill_bytes(&self, buf: &mut [u8]) -> io::Result<()> {
        let Some(byte) = self.0 else {
            return Err(ErrorKind::Unsupported.into());
        };
        buf.fill(byte);
        Ok(())
    }
}

// The hash of these writes.
fn hash_of(key: HashKey, writes: &[&[u8]]) -> u64 {
    let mut hasher = key.build_hasher();
    for bytes in writes {
        hasher.write(bytes);
    }
    hasher.finish()
}

// The hash of a text.
fn text_hash(key: HashKey) -> u64 {
    hash_of(key, &[b"a text of more than two words"])
}

#[test]
fn sources_give_keys(rt: HostRuntime) {
    let failed = text_hash(HashKey::random(&Source(None)));
    assert_eq!(rt; failed, text_hash(HashKey::of_seed(&[0; 8])));
    let given = text_hash(HashKey::random(&Source(Some(7))));
    assert_eq!(rt; given, text_hash(HashKey::of_seed(&[7; 8])));
    assert!(rt; given != failed);
    let drawn = text_hash(HashKey::random(&rt));
    assert!(rt; given != drawn);
}

// The same bytes, divided into two writes at different positions or written at once, and others.
const DIFFERENT: [&[&[u8]]; 7] = [
    &[b"", b"sixteen bytes or"],
    &[b"sixteen ", b"bytes or"],
    &[b"sixteen bytes or", b""],
    &[b"sixteen bytes ", b"or"],
    &[b"sixteen ", b"bytes on"],
    &[b"fifteen ", b"bytes or"],
    &[b"sixteen bytes or"],
];

#[test]
fn hashes_differ(rt: HostRuntime) {
    let key = HashKey::random(&rt);
    for (at, one) in DIFFERENT.iter().enumerate() {
        for other in &DIFFERENT[..at] {
            assert!(rt; hash_of(key, one) != hash_of(key, other));
        }
    }
}
