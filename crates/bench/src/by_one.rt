// CRC-32C by one byte at a time and one table, the plain way that taking more bytes at a time is
// measured against.

/// The polynomial 1edc6f41 with its lowest bit highest.
const REFLECTED: u32 = 0x82f6_3b78;

/// For each value of a byte, the register eight bits on.
pub fn table() -> [u32; 256] {
    let mut table = [0u32; 256];
    for (value, entry) in table.iter_mut().enumerate() {
        let mut register = value as u32;
        for _ in 0..8 {
            register = (register >> 1) ^ if register & 1 == 1 { REFLECTED } else { 0 };
        }
        *entry = register;
    }
    table
}

/// The register after more bytes.
pub fn add_bytes(table: &[u32; 256], start: u32, bytes: &[u8]) -> u32 {
    let mut register = start;
    for byte in bytes {
        register = table[((register ^ *byte as u32) & 0xff) as usize] ^ (register >> 8);
    }
    register
}

/// The CRC-32C of `bytes`. It is compared with that of `bytes_core`, and not proved.
pub fn crc32c(bytes: &[u8]) -> u32 {
    add_bytes(&table(), 0xffff_ffff, bytes) ^ 0xffff_ffff
}
