// A plain event, lent from a reader's buffer.

ghost use Rattle.std.specs.Prelude.{◌≡◌, ◌+◌, ◌-◌, ◌^◌, ◌<◌, ◌≤◌, length, take, drop, if◌then◌else◌};
ghost use Rattle.binlog_text.specs.Header.{event_body, event_flags, kind_of, length_of, next_of, server_of, time_of};

use byte_list::fields::{le16_at, le32_at};

/// Where an event stands, and how.
#[derive(Clone, Copy)]
pub(crate) struct EventMark {
    /// Where it begins, in bytes from the file's beginning.
    pub place: u64,
    /// The version of key 1 under which it was ciphered, None in clear.
    pub key: Option<u32>,
    /// Whether it ends with a checksum.
    pub has_sum: bool,
}

/// A plain event, lent from a reader's buffer.
#[derive(Clone, Copy)]
pub struct EventView<'a> {
    pub(crate) mark: EventMark,
    pub(crate) bytes: &'a [u8],
    ghost long: { 19 + (if mark.has_sum then 4 else 0) ≤ length bytes.now },
    ghost fits: { mark.place + length bytes.now < 2 ^ 64 },
}

impl<'a> EventView<'a> {
    /// The time in seconds since 1970.
    pub fn time(&self) -> u32
        ensures { result ≡ time_of self.now.bytes.now }
    {
        le32_at(self.bytes, 0)
    }

    /// The type.
    pub fn kind(&self) -> u8
        ensures { result ≡ kind_of self.now.bytes.now }
    {
        self.bytes[4]
    }

    /// The id of the server that wrote it.
    pub fn server(&self) -> u32
        ensures { result ≡ server_of self.now.bytes.now }
    {
        le32_at(self.bytes, 5)
    }

    /// The length in bytes, as the header says it.
    pub fn length(&self) -> u32
        ensures { result ≡ length_of self.now.bytes.now }
    {
        le32_at(self.bytes, 9)
    }

    /// Where the next event begins, as the header says it.
    pub fn next(&self) -> u32
        ensures { result ≡ next_of self.now.bytes.now }
    {
        le32_at(self.bytes, 13)
    }

    /// The flags.
    pub fn flags(&self) -> u16
        ensures { result ≡ event_flags self.now.bytes.now }
    {
        le16_at(self.bytes, 17)
    }

    /// Where the event begins in the file, in bytes.
    pub fn place(&self) -> u64
        ensures { result ≡ self.now.mark.place }
    {
        self.mark.place
    }

    /// Where the event ends in the file, in bytes.
    pub fn end(&self) -> u64
        ensures { result ≡ self.now.mark.place + length self.now.bytes.now }
    {
        self.mark.place + self.bytes.len() as u64
    }

    /// The version of key 1 under which the event was ciphered, None in clear.
    pub fn key(&self) -> Option<u32>
        ensures { result ≡ self.now.mark.key }
    {
        self.mark.key
    }

    /// The whole plain event.
    pub fn bytes(&self) -> &'a [u8]
        ensures { result.now ≡ self.now.bytes.now }
    {
        self.bytes
    }

    /// The event's bytes after the header, without the checksum where it ends with one.
    pub fn body(&self) -> &'a [u8]
        ensures { result.now ≡ event_body self.now.mark.has_sum self.now.bytes.now }
    {
        let end = self.bytes.len() - if self.mark.has_sum { 4 } else { 0 };
        &self.bytes[19..end]
    }
}
