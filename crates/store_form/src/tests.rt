// Headers by their bytes. The checksums are those of a CRC-32C bit by bit.
use crate::header_block::fill_header;
use crate::{HomeList, Homes, SpacePlan, SpacePlans, Spaces, read_header};
use aes_core::Algorithm;
use byte_list::fields::{put, put_be32};
use space_head::{Home, SpaceInfo};
use std::process::Abort;
use std::test::Fail;

// The header of a store of 256 ring blocks and one space, 5, of 4 pages under key 1, salts of bytes 11 hex.
fn block_of(algorithm: u32, pages: u32, sum: u32) -> [u8; 4096] {
    let mut block = [0; 4096];
    put(&mut block, 0, b"KEYSTOR1");
    put_be32(&mut block, 8, 2);
    put_be32(&mut block, 12, 16384);
    put_be32(&mut block, 16, 256);
    put_be32(&mut block, 20, 1);
    put(&mut block, 24, &[0x11; 16]);
    put_be32(&mut block, 40, 5);
    put_be32(&mut block, 44, pages);
    put_be32(&mut block, 48, 1);
    put_be32(&mut block, 240, algorithm);
    put_be32(&mut block, 4092, sum);
    block
}

#[test]
fn a_header_is_read(rt: HostRuntime) -> Result<(), Fail> {
    let Some(header) = read_header(&block_of(1, 4, 0xf721_fcef)) else {
        return Err(Fail::new("no header"));
    };
    assert!(rt; header.format == 2 && header.algorithm == Algorithm::Cbc);
    assert!(rt; header.blocks == 256 && header.salt == [0x11; 16]);
    assert!(rt; header.count == 1 && header.spaces[0].space == 5);
    assert!(rt; header.spaces[0].pages == 4 && header.spaces[0].key_id == 1);
    let Some(header) = read_header(&block_of(2, 16384, 0x6e5e_9b3e)) else {
        return Err(Fail::new("no header"));
    };
    assert!(rt; header.algorithm == Algorithm::Ctr);
    Ok(())
}

// Each has a right checksum but the last two.
#[test]
fn another_header_is_not_read(rt: HostRuntime) {
    assert!(rt; read_header(&block_of(3, 4, 0x53bc_2cd9)).is_none());
    assert!(rt; read_header(&block_of(0, 4, 0xa56f_14f4)).is_none());
    assert!(rt; read_header(&block_of(1, 16385, 0x9388_2b02)).is_none());
    assert!(rt; read_header(&block_of(1, 1, 0xd032_54ba)).is_none());
    assert!(rt; read_header(&block_of(1, 5, 0xf721_fcef)).is_none());
    assert!(rt; read_header(&[0; 4096]).is_none());
}

#[test]
fn lists_have_their_items(rt: HostRuntime) -> Result<(), Fail> {
    let mut homes = Vec::new(rt.alloc());
    homes.push(Home::Clean(0))?;
    homes.push(Home::Unused)?;
    let homes = HomeList::of(homes);
    assert!(rt; homes.len() == 2 && *homes.get(1) == Home::Unused);
    assert!(rt; homes.as_slice()[0] == Home::Clean(0));
    let mut lists = Vec::new(rt.alloc());
    lists.push(homes)?;
    let lists = Homes::of(lists);
    assert!(rt; lists.len() == 1 && lists.get(0).len() == 2);
    Ok(())
}

#[test]
fn plans_and_spaces_have_their_items(rt: HostRuntime) -> Result<(), Fail> {
    let mut plans = Vec::new(rt.alloc());
    plans.push(SpacePlan {
        space: 5,
        pages: 4,
        key_id: 1,
        ciphered: true,
    })?;
    let plans = SpacePlans::of(plans);
    assert!(rt; plans.len() == 1 && plans.get(0).space == 5);
    let mut spaces = Vec::new(rt.alloc());
    spaces.push(SpaceInfo {
        space: 5,
        pages: 4,
        key_id: 1,
        salt: [0x11; 16],
        ciphered: true,
        floor: 1,
    })?;
    let spaces = Spaces::of(spaces);
    assert!(rt; spaces.len() == 1 && spaces.get(0).floor == 1);
    assert!(rt; spaces.as_slice()[0].space == 5);
    Ok(())
}

// The bytes of the two headers whose checksums were found bit by bit.
#[test]
fn a_header_has_the_bytes_of_the_format(rt: HostRuntime) -> Result<(), Fail> {
    let wanted = block_of(1, 4, 0xf721_fcef);
    let Some(mut header) = read_header(&wanted) else {
        return Err(Fail::new("no header"));
    };
    let mut block = [0xaa; 4096];
    assert!(rt; header.blocks <= 4096);
    fill_header(&mut block, &header);
    assert!(rt; block.as_slice() == wanted.as_slice());
    header.algorithm = Algorithm::Ctr;
    header.spaces[0].pages = 16384;
    fill_header(&mut block, &header);
    assert!(rt; block.as_slice() == block_of(2, 16384, 0x6e5e_9b3e).as_slice());
    Ok(())
}
