use crate::fields::{
    be16_at, be32_at, be64_at, le16_at, le32_at, le64_at, put, put_be16, put_be32, put_be64,
    put_le16, put_le32, put_le64,
};
use crate::{copy_with, zero_bytes};
use std::test::Fail;

#[test]
fn numbers_are_read_and_written_at_their_places(rt: HostRuntime) {
    let bytes = [0x00, 0x01, 0x02, 0x03, 0x04, 0x05, 0x06, 0x07, 0x08, 0x00];
    assert_eq!(rt; be16_at(&bytes, 1), 0x0102);
    assert_eq!(rt; be32_at(&bytes, 1), 0x0102_0304);
    assert_eq!(rt; be64_at(&bytes, 1), 0x0102_0304_0506_0708);
    assert_eq!(rt; le16_at(&bytes, 1), 0x0201);
    assert_eq!(rt; le32_at(&bytes, 1), 0x0403_0201);
    assert_eq!(rt; le64_at(&bytes, 1), 0x0807_0605_0403_0201);

    let mut made = [0u8; 30];
    put_be16(&mut made, 1, 0x0102);
    put_be32(&mut made, 3, 0x0304_0506);
    put_be64(&mut made, 7, 0x0708_090a_0b0c_0d0e);
    put_le16(&mut made, 15, 0x100f);
    put_le32(&mut made, 17, 0x1413_1211);
    put_le64(&mut made, 21, 0x1c1b_1a19_1817_1615);
    put(&mut made, 28, &[0x1c, 0x1d]);
    for i in 0..30usize {
        assert_eq!(rt; made[i], i as u8, "byte {i}");
    }
}

#[test]
fn bytes_are_made(rt: HostRuntime) -> Result<(), Fail> {
    assert_eq!(rt; zero_bytes(rt.alloc(), 3)?.as_slice(), &[0u8, 0, 0][..]);
    for (at, expected) in [
        (0usize, &[8u8, 9, 3][..]),
        (1, &[1, 8, 9]),
        (2, &[1, 2, 8, 9]),
        (3, &[1, 2, 3, 8, 9]),
        (7, &[1, 2, 3, 8, 9]),
        (usize::MAX, &[1, 2, 3, 8, 9]),
    ] {
        let made = copy_with(rt.alloc(), &[1, 2, 3], at, &[8, 9])?;
        assert_eq!(rt; made.as_slice(), expected, "at {at}");
    }
    Ok(())
}
