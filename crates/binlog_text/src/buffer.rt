// The bytes of the file that a reader holds: the event that it lends, and what of the file follows it.

ghost use Rattle.std.specs.Prelude.{◌≡◌, ◌+◌, ◌^◌, ◌<◌, ◌≤◌, [], length, take, drop, max, false, true, IfOk, IfErr, IsErrOf, OnErr, OnOk};
ghost use Rattle.io_core.specs.Told.{Told};
ghost use Rattle.io_core.specs.Files.{bytes_from};
ghost use Rattle.binlog_text.specs.Faults.{HasBinlogCauses, IsBinlogRefusal, is_outside, is_outside_fault};
ghost use Rattle.binlog_text.specs.Header.{kind_of, least_stored, sum_length};
ghost use Rattle.binlog_text.specs.Events.{judged_event, opened, opened_event};
ghost use Rattle.binlog_text.specs.Sealed.{IsStoredEvent};

use crate::BinlogFault;
use crate::format::LogFormat;
use crate::piece::read_on;
use crate::reading::read_within;
use crate::stage::Position;
use io_core::Library;
use key_ring::Ring;
use std::alloc::Global;
use std::marker::Model;

/// As many bytes of the file are read at a time, where an event isn't longer.
const PIECE: usize = 65_536;

/// The event that was read last, and the bytes of the file after it that are here already. Contracts
/// see these two, and the length of the buffer.
#[derive(Drop)]
pub struct EventBuffer {
    bytes: Vec<u8>,
    // Where the event, the rest, and what lies behind it begin.
    event: usize,
    rest: usize,
    end: usize,
}

impl Model for EventBuffer {
    ghost use Rattle.std.specs.Prelude.{ℕ, ◌≤◌, vec_len};
    ghost use Rattle.byte_list.specs.Bytes.{part_of};
    ghost use Rattle.binlog_text.specs.Held.{HeldEvent};

    ghost Value = { HeldEvent };

    ghost view = { λ b. record { event = part_of b.bytes.items b.event b.rest; rest = part_of b.bytes.items b.rest b.end; room = vec_len b.bytes } };

    ghost invariant = { λ b. (b.event ≤ b.rest) × (b.rest ≤ b.end) × (b.end ≤ vec_len b.bytes) };
}

impl EventBuffer {
    ghost use Rattle.binlog_text.specs.Held.{HeldEvent, IsFront, IsReadOn};

    /// No bytes.
    pub(crate) fn new(alloc: Global) -> EventBuffer
        ensures event { result.event ≡ [] }
        ensures rest { result.rest ≡ [] }
        ensures room { result.room ≡ 0 }
    {
        EventBuffer {
            bytes: Vec::new(alloc),
            event: 0,
            rest: 0,
            end: 0,
        }
    }

    /// The event.
    pub(crate) fn event(&self) -> &[u8]
        ensures { result.now ≡ self.now.event }
    {
        &self.bytes[self.event..self.rest]
    }

    /// The bytes of the file after it.
    pub(crate) fn rest(&self) -> &[u8]
        ensures { result.now ≡ self.now.rest }
    {
        &self.bytes[self.rest..self.end]
    }

    /// Takes the next bytes as the event.
    pub(crate) fn take(&mut self, count: usize)
        requires { count ≤ length self.old.rest }
        ensures event { self.new.event ≡ take count self.old.rest }
        ensures rest { self.new.rest ≡ drop count self.old.rest }
        ensures room { self.new.room ≡ self.old.room }
    {
        self.event = self.rest;
        self.rest += count;
    }

    /// Deciphers and judges the event in place, which stood at a position.
    ///
    /// # Errors
    /// The refusals of a whole event, in their order.
    pub(crate) fn read(
        &mut self,
        ring: &Ring,
        position: &Position,
    ) -> Result<LogFormat, BinlogFault>
        requires long { 19 ≤ length self.old.event }
        requires least { least_stored position.now.format (kind_of self.old.event) ≤ length self.old.event }
        ensures refusal { IfErr result IsBinlogRefusal }
        ensures sum { IfOk result (λ after. 19 + sum_length after.checksum ≤ length self.old.event) }
        ensures value { opened_event position.now (opened ring.now position.now.format position.now.place self.old.event) ≡ judged_event position.now self.new.event result }
        ensures sealed { OnOk result (IsStoredEvent ring.now position.now.format position.now.place self.new.event self.old.event) }
        ensures long { length self.new.event ≡ length self.old.event }
        ensures rest { self.new.rest ≡ self.old.rest }
        ensures room { self.new.room ≡ self.old.room }
    {
        read_within(ring, position, &mut self.bytes, self.event, self.rest)
    }

    /// Forgets all bytes.
    pub(crate) fn clear(&mut self)
        ensures event { self.new.event ≡ [] }
        ensures rest { self.new.rest ≡ [] }
        ensures room { self.new.room ≡ self.old.room }
    {
        self.event = 0;
        self.rest = 0;
        self.end = 0;
    }

    /// Forgets the bytes after the event but for the first ones.
    pub(crate) fn shorten(&mut self, count: usize)
        requires { count ≤ length self.old.rest }
        ensures event { self.new.event ≡ self.old.event }
        ensures rest { self.new.rest ≡ take count self.old.rest }
        ensures room { self.new.room ≡ self.old.room }
    {
        self.end = self.rest + count;
    }

    // Reads on in the file from a place on, behind the bytes that are here, until `want` are here. After
    // an error the same are here as before.
    fn load<L: Library>(
        &mut self,
        files: &mut L,
        name: &str,
        place: u64,
        want: usize,
    ) -> Result<(), BinlogFault>
        requires order { length self.old.rest ≤ want }
        ensures more { OnOk result (Told (λ fs. IsReadOn self.old.rest self.new.rest (bytes_from place name.now fs) want) (L.files files.old)) }
        ensures kept { OnErr result (self.new.rest ≡ self.old.rest) }
        ensures front_kept { take (length self.old.rest) self.new.rest ≡ self.old.rest }
        ensures bounded { length self.new.rest ≤ want }
        ensures room { self.new.room ≤ max self.old.room want }
        ensures same { L.files files.new ≡ L.files files.old }
        ensures causes { HasBinlogCauses (L.faults files.old) (L.faults files.new) (L.absences files.old) (L.absences files.new) result }
        ensures no_fault { is_outside_fault result ≡ false → L.faults files.new ≡ L.faults files.old }
        ensures no_fault_at_want { IsErrOf result BinlogFault.OutOfMemory → L.faults files.new ≡ L.faults files.old }
        ensures absences { L.absences files.new ≡ L.absences files.old }
        ensures refusals_later { L.memory_refusals files.old ≤ L.memory_refusals files.new }
        ensures no_refusal { is_outside_fault result ≡ false → L.memory_refusals files.new ≡ L.memory_refusals files.old }
        ensures failed { IsErrOf result BinlogFault.FileFault → L.failed_last files.new name.now }
        ensures outside { IfErr result (λ fault. is_outside fault ≡ true) }
    {
        let held = self.end - self.rest;
        let count = read_on(
            files,
            name,
            place,
            &mut self.bytes,
            self.rest,
            self.end,
            want,
        );
        self.event = 0;
        self.rest = 0;
        self.end = held;
        self.end += count?;
        Ok(())
    }

    /// Reads on in the file until at least `need` bytes are here, of which the file has `left` from
    /// `place` on. After an error the same bytes are here as before.
    ///
    /// # Errors
    /// `FileFault`, `OutOfMemory`.
    pub(crate) fn fill<L: Library>(
        &mut self,
        files: &mut L,
        name: &str,
        place: u64,
        left: u64,
        need: usize,
    ) -> Result<(), BinlogFault>
        requires need { need ≤ left }
        requires within { length self.old.rest ≤ left }
        requires fits { place + left < 2 ^ 64 }
        ensures front { Told (λ fs. IsFront self.old.rest (bytes_from place name.now fs) → IsFront self.new.rest (bytes_from place name.now fs)) (L.files files.old) }
        ensures enough { OnOk result (Told (λ fs. length (bytes_from place name.now fs) ≡ left → need ≤ length self.new.rest) (L.files files.old)) }
        ensures bounded { length self.new.rest ≤ left }
        ensures kept { OnErr result (self.new.rest ≡ self.old.rest) }
        ensures front_kept { take (length self.old.rest) self.new.rest ≡ self.old.rest }
        ensures held { need ≤ length self.old.rest → self.new.rest ≡ self.old.rest }
        ensures room { self.new.room ≤ max self.old.room (max need PIECE) }
        ensures same { L.files files.new ≡ L.files files.old }
        ensures causes { HasBinlogCauses (L.faults files.old) (L.faults files.new) (L.absences files.old) (L.absences files.new) result }
        ensures no_fault { is_outside_fault result ≡ false → L.faults files.new ≡ L.faults files.old }
        ensures no_fault_at_want { IsErrOf result BinlogFault.OutOfMemory → L.faults files.new ≡ L.faults files.old }
        ensures absences { L.absences files.new ≡ L.absences files.old }
        ensures refusals_later { L.memory_refusals files.old ≤ L.memory_refusals files.new }
        ensures no_refusal { is_outside_fault result ≡ false → L.memory_refusals files.new ≡ L.memory_refusals files.old }
        ensures failed { IsErrOf result BinlogFault.FileFault → L.failed_last files.new name.now }
        ensures outside { IfErr result (λ fault. is_outside fault ≡ true) }
        ensures wanted { IsErrOf result BinlogFault.FileFault → length self.old.rest < need }
    {
        let held = self.rest().len();
        if held >= need {
            return Ok(());
        }
        let want = (need.max(PIECE) as u64).min(left) as usize;
        self.load(files, name, place + held as u64, want)
    }
}
