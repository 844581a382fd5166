//! Sources and sinks over memory.

ghost use Rattle.std.specs.Prelude.{◌≡◌, ◌+◌, ◌-◌, ◌≤◌, ◌<◌, ◌⊎◌, ◌↔◌, ◌^◌, [], Contains, IfOk, IsErr, Ok, Some, drop, length, min, take, true};
ghost use Rattle.std.specs.Io.{ReadsAtMost};
ghost use Rattle.std.specs.Io.KnownBytes.{ReadConsumes};
ghost use Rattle.bh_outside.specs.Outside.{HasCause, KeepsSure, WriteTakes};
ghost use Rattle.bh_outside.specs.Memory.{faults_after, is_empty_list, told_after};

use crate::{Failed, Sink, Source};
use octant_code::OutOfMemory;
use std::alloc::Global;
use std::marker::Model;

// Whether the call of this number is one that is to fail.
fn is_listed(fail: &[u32], call: u64) -> bool
    ensures { (result ≡ true) ↔ Contains fail.now call }
{
    fail.iter().any(|number| u64::from(*number) == call)
}

// Copies bytes from the place `at` on, at most `give` and as many as fit.
fn give_front(bytes: &[u8], at: usize, give: usize, into: &mut [u8]) -> usize
    requires place { at ≤ length bytes.now }
    requires some { 1 ≤ give }
    ensures count { result ≡ min give (min (length into.old) (length bytes.now - at)) }
    ensures copied { take result into.new ≡ take result (drop at bytes.now) }
    ensures end { result ≡ 0 → 0 < length into.new → drop (at + result) bytes.now ≡ [] }
{
    let rest = &bytes[at..];
    let count = give.min(into.len().min(rest.len()));
    into[..count].copy_from_slice(&rest[..count]);
    count
}

/// Gives bytes from memory, so many at a call, and fails at the calls whose numbers are listed.
/// Contracts see it as what it has still to give, with its plan and its counts.
#[derive(Drop)]
pub struct MemorySource {
    bytes: Vec<u8>,
    at: usize,
    give: usize,
    fail: Vec<u32>,
    calls: u64,
    faults: u64,
}

impl Model for MemorySource {
    ghost use Rattle.std.specs.Prelude.{◌≤◌, drop, vec_len};
    ghost use Rattle.bh_outside.specs.Memory.{Giving};

    ghost Value = { Giving };

    ghost view = { λ s. record { left = drop s.at s.bytes.items; give = s.give; failing = s.fail.items; calls = s.calls; faults = s.faults } };

    ghost invariant = { λ s. (s.at ≤ vec_len s.bytes) × (1 ≤ s.give) };
}

impl MemorySource {
    /// A source that gives at most `give` of these bytes at a call, and fails at the calls whose
    /// numbers, counted from 1, are in `fail`.
    pub fn new(bytes: Vec<u8>, give: usize, fail: Vec<u32>) -> MemorySource
        requires { 1 ≤ give }
        ensures bytes { result.left ≡ bytes.items }
        ensures give { result.give ≡ give }
        ensures fail { result.failing ≡ fail.items }
        ensures calls { result.calls ≡ 0 }
        ensures faults { result.faults ≡ 0 }
    {
        MemorySource {
            bytes,
            at: 0,
            give,
            fail,
            calls: 0,
            faults: 0,
        }
    }
}

impl Source for MemorySource {
    ghost left = { λ s. Some s.left };

    ghost faults = { λ s. s.faults };

    ghost sure = { λ s. is_empty_list s.failing };

    ghost calls = { λ s. s.calls };

    fn read_some(&mut self, into: &mut [u8]) -> Result<usize, Failed>
        ensures bound { ReadsAtMost result into.new }
        ensures bytes { ReadConsumes (Some self.old.left) (Some self.new.left) result into.new }
        ensures cause { HasCause self.old.faults self.new.faults result }
        ensures sure { KeepsSure (is_empty_list self.old.failing) (is_empty_list self.new.failing) self.old.faults self.new.faults }
        ensures calls { self.new.calls ≤ self.old.calls + 1 }

        // The number of this call, which stays at its type's end.
        ensures number { self.new.calls ≡ min (self.old.calls + 1) (2 ^ 64 - 1) }
        ensures fails { IsErr result ↔ Contains self.old.failing self.new.calls }
        ensures counted { self.new.faults ≡ faults_after result self.old.faults }
        ensures gives { IfOk result (λ n. n ≡ min self.old.give (min (length into.old) (length self.old.left))) }
        ensures stays { (self.new.give ≡ self.old.give) × (self.new.failing ≡ self.old.failing) }
    {
        self.calls = self.calls.saturating_add(1);
        let call = self.calls;
        if is_listed(&self.fail, call) {
            self.faults = self.faults.saturating_add(1);
            return Err(Failed);
        }
        let count = give_front(&self.bytes, self.at, self.give, into);
        self.at += count;
        Ok(count)
    }
}

/// Takes bytes into memory, so many at a call, while room is left, and fails at the calls whose
/// numbers are listed. Contracts see it as what it took, with its plan and its counts.
#[derive(Drop)]
pub struct MemorySink {
    bytes: Vec<u8>,
    room: usize,
    take: usize,
    fail: Vec<u32>,
    calls: u64,
    faults: u64,
}

impl Model for MemorySink {
    ghost use Rattle.std.specs.Prelude.{◌≤◌, vec_capacity, vec_len};
    ghost use Rattle.bh_outside.specs.Memory.{Taking};

    ghost Value = { Taking };

    ghost view = { λ s. record { kept = s.bytes.items; room = s.room; most = s.take; failing = s.fail.items; calls = s.calls; faults = s.faults } };

    ghost invariant = { λ s. (s.room ≤ vec_capacity s.bytes) × (vec_len s.bytes ≤ s.room) × (1 ≤ s.take) };
}

impl MemorySink {
    /// A sink with this room that takes at most `take` bytes at a call, and fails at the calls whose
    /// numbers, counted from 1, are in `fail`. The memory of the room is taken here.
    ///
    /// # Errors
    ///
    /// `OutOfMemory` where the room can't be had.
    pub fn new(
        alloc: Global,
        room: usize,
        take: usize,
        fail: Vec<u32>,
    ) -> Result<MemorySink, OutOfMemory>
        requires { 1 ≤ take }
        ensures bytes { IfOk result (λ sink. sink.kept ≡ []) }
        ensures room { IfOk result (λ sink. sink.room ≡ room) }
        ensures take { IfOk result (λ sink. sink.most ≡ take) }
        ensures fail { IfOk result (λ sink. sink.failing ≡ fail.items) }
        ensures calls { IfOk result (λ sink. sink.calls ≡ 0) }
        ensures faults { IfOk result (λ sink. sink.faults ≡ 0) }
    {
        Ok(MemorySink {
            bytes: Vec::with_capacity(alloc, room)?,
            room,
            take,
            fail,
            calls: 0,
            faults: 0,
        })
    }

    /// The bytes that it took.
    pub fn bytes(&self) -> &[u8]
        ensures { result.now ≡ self.now.kept }
    {
        &self.bytes
    }
}

impl Sink for MemorySink {
    ghost written = { λ s. Some s.kept };

    ghost faults = { λ s. s.faults };

    fn write_some(&mut self, from: &[u8]) -> Result<usize, Failed>
        ensures bytes { WriteTakes (Some self.old.kept) (Some self.new.kept) result from.now }
        ensures cause { HasCause self.old.faults self.new.faults result }

        // The number of this call, which stays at its type's end.
        ensures number { self.new.calls ≡ min (self.old.calls + 1) (2 ^ 64 - 1) }
        ensures fails { IsErr result ↔ (Contains self.old.failing self.new.calls
            ⊎ ((self.old.room ≤ length self.old.kept) × (0 < length from.now))) }
        ensures counted { self.new.faults ≡ faults_after result self.old.faults }
        ensures takes { IfOk result (λ n. n ≡ min self.old.most (min (self.old.room - length self.old.kept) (length from.now))) }
        ensures stays { (self.new.room ≡ self.old.room) × (self.new.most ≡ self.old.most) × (self.new.failing ≡ self.old.failing) }
    {
        self.calls = self.calls.saturating_add(1);
        let call = self.calls;
        let left = self.room - self.bytes.len();
        if is_listed(&self.fail, call) || (left == 0 && !from.is_empty()) {
            self.faults = self.faults.saturating_add(1);
            return Err(Failed);
        }
        let count = self.take.min(left.min(from.len()));
        self.bytes.extend_from_slice(&from[..count]).unwrap();
        Ok(count)
    }
}

/// Takes all bytes and never fails. It keeps bytes while room is left, and drops what comes past it.
/// Contracts see it as what it tells of the bytes, and its room.
#[derive(Drop)]
pub struct SureSink {
    bytes: Vec<u8>,
    room: usize,
    over: bool,
}

impl Model for SureSink {
    ghost use Rattle.std.specs.Prelude.{◌≤◌, None, Some, if◌then◌else◌, vec_capacity, vec_len};
    ghost use Rattle.bh_outside.specs.Memory.{Telling};

    ghost Value = { Telling };

    ghost view = { λ s. record { told = if s.over then None else Some s.bytes.items; room = s.room } };

    ghost invariant = { λ s. (s.room ≤ vec_capacity s.bytes) × (vec_len s.bytes ≤ s.room) };
}

impl SureSink {
    /// A sink with this room, which is reserved here.
    ///
    /// # Errors
    ///
    /// `OutOfMemory` where the room can't be had.
    pub fn new(alloc: Global, room: usize) -> Result<SureSink, OutOfMemory>
        ensures bytes { IfOk result (λ sink. sink.told ≡ Some []) }
        ensures room { IfOk result (λ sink. sink.room ≡ room) }
    {
        Ok(SureSink {
            bytes: Vec::with_capacity(alloc, room)?,
            room,
            over: false,
        })
    }
}

impl Sink for SureSink {
    ghost written = { λ s. s.told };

    ghost faults = { λ s. 0 };

    fn write_some(&mut self, from: &[u8]) -> Result<usize, Failed>
        ensures bytes { WriteTakes self.old.told self.new.told result from.now }
        ensures cause { HasCause 0 0 result }
        ensures all { result ≡ Ok (length from.now) }
        ensures tells { self.new.told ≡ told_after self.old.room self.old.told from.now }
        ensures stays { self.new.room ≡ self.old.room }
    {
        let left = self.room - self.bytes.len();
        let count = left.min(from.len());
        self.bytes.extend_from_slice(&from[..count]).unwrap();
        if count < from.len() {
            self.over = true;
        }
        Ok(from.len())
    }
}
