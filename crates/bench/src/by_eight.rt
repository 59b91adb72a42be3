// CRC-32C by eight bytes at a time and eight tables in one stream, in which each step waits for the
// one before it: what three lanes side by side are measured against.
use crate::by_one;
use byte_list::fields::le64_at;

/// The tables of [`by_one::table`] for eight bytes: table k moves a byte on by k bytes more.
fn tables() -> [[u32; 256]; 8] {
    let first = by_one::table();
    let mut tables = [first; 8];
    let mut last = first;
    for k in 1..8usize {
        let mut next = [0u32; 256];
        for value in 0..256usize {
            let entry = last[value];
            next[value] = (entry >> 8) ^ first[(entry & 0xff) as usize];
        }
        tables[k] = next;
        last = next;
    }
    tables
}

/// The CRC-32C of `bytes`. It is compared with that of `bytes_core`, and not proved.
pub fn crc32c(bytes: &[u8]) -> u32 {
    let tables = tables();
    let [t0, t1, t2, t3, t4, t5, t6, t7] = &tables;
    let mut register = 0xffff_ffffu32;
    let whole = bytes.len() / 8;
    for i in 0..whole {
        let word = le64_at(bytes, 8 * i) ^ register as u64;
        register = t7[(word & 0xff) as usize]
            ^ t6[((word >> 8) & 0xff) as usize]
            ^ t5[((word >> 16) & 0xff) as usize]
            ^ t4[((word >> 24) & 0xff) as usize]
            ^ t3[((word >> 32) & 0xff) as usize]
            ^ t2[((word >> 40) & 0xff) as usize]
            ^ t1[((word >> 48) & 0xff) as usize]
            ^ t0[((word >> 56) & 0xff) as usize];
    }
    by_one::add_bytes(t0, register, &bytes[8 * whole..]) ^ 0xffff_ffff
}
