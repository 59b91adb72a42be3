// The vector of FIPS 197, appendix C.1, as a local key, and the ring's refusals.

use crate::{LocalCache, Ring, RingFault};
use std::test::Fail;

const KEY: [u8; 16] = [0, 1, 2, 3, 4, 5, 6, 7, 8, 9, 10, 11, 12, 13, 14, 15];

const SALT: [u8; 16] = [
    0x00, 0x11, 0x22, 0x33, 0x44, 0x55, 0x66, 0x77, 0x88, 0x99, 0xaa, 0xbb, 0xcc, 0xdd, 0xee, 0xff,
];

const LOCAL: [u8; 16] = [
    0x69, 0xc4, 0xe0, 0xd8, 0x6a, 0x7b, 0x04, 0x30, 0xd8, 0xcd, 0xb7, 0x80, 0x70, 0xb4, 0xc5, 0x5a,
];

#[test]
fn local_keys_are_enciphered_salts(rt: HostRuntime) -> Result<(), Fail> {
    let mut ring = Ring::new(rt.alloc());
    ring.add(1, 1, &KEY)?;
    ring.add(1, 2, &[7; 32])?;
    assert_eq!(rt; ring.local(1, 1, &SALT), Some(LOCAL));
    assert_eq!(rt; ring.local(1, 3, &SALT), None);

    let mut cache = LocalCache::new(rt.alloc(), 1)?;
    assert_eq!(rt; cache.local(&ring, 1, 1, &SALT), Some(LOCAL));
    assert_eq!(rt; cache.local(&ring, 1, 1, &SALT), Some(LOCAL));
    assert_eq!(rt; cache.local(&ring, 1, 2, &SALT), ring.local(1, 2, &SALT));
    assert_eq!(rt; cache.local(&ring, 1, 3, &SALT), None);
    assert_eq!(rt; cache.local(&ring, 1, 1, &SALT), Some(LOCAL));
    Ok(())
}

#[test]
fn a_ring_is_a_map_by_id_and_version(rt: HostRuntime) -> Result<(), Fail> {
    let mut ring = Ring::new(rt.alloc());
    ring.add(4294967295, 1, &[9; 24])?;
    ring.add(1, 2, &[7; 32])?;
    ring.add(1, 1, &KEY)?;
    assert_eq!(rt; ring.add(1, 1, &KEY), Err(RingFault::Twice(1, 1)));
    assert_eq!(rt; ring.add(1, 1, &KEY[..15]), Err(RingFault::BadLength(15)));
    assert_eq!(rt; ring.latest(1), Some(2));
    assert_eq!(rt; ring.latest(2), None);

    let copy = ring.copy()?;
    assert_eq!(rt; copy.len(), 3);
    assert_eq!(rt; copy.pair(0), (1, 1));
    assert_eq!(rt; copy.pair(2), (4294967295, 1));
    assert!(rt; copy.get(1, 1) == Some(KEY.as_slice()));
    assert!(rt; copy.get(2, 1).is_none());
    Ok(())
}
