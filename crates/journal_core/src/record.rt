// One record, put together in room that was taken before.
ghost use Rattle.std.specs.Prelude.{◌≡◌, ◌≤◌, length};
ghost use Rattle.journal_core.specs.Records.{spelled, greatest};

use lists::Memory;
use std::alloc::Global;
use std::marker::Model;

/// The greatest length of a payload, in bytes.
const GREATEST: usize = 8_388_608;

/// Room for one record of the greatest length, in which each write is put together.
#[derive(Drop)]
pub(crate) struct Record {
    bytes: Vec<u8>,
}

impl Model for Record {
    ghost use Rattle.std.specs.Prelude.{List, ℕ, ◌≤◌, vec_capacity};

    ghost Value = { List ℕ };

    ghost view = { λ r. r.bytes.items };

    ghost invariant = { λ r. 8388612 ≤ vec_capacity r.bytes };
}

impl Record {
    /// Takes the room.
    pub(crate) fn with_room(alloc: Global) -> Result<Self, Memory> {
        Ok(Record {
            bytes: Vec::with_capacity(alloc, 4 + GREATEST)?,
        })
    }

    /// Puts the record of a payload into the room, in the place of what was there.
    pub(crate) fn spell(&mut self, payload: &[u8])
        requires { length payload.now ≤ greatest }
        ensures { self.new ≡ spelled payload.now }
    {
        let length = (payload.len() as u32).to_be_bytes();
        self.bytes.clear();
        let _ = self.bytes.extend_from_slice(&length);
        let _ = self.bytes.extend_from_slice(payload);
    }

    /// The record that was put into the room.
    pub(crate) fn as_slice(&self) -> &[u8]
        ensures { result.now ≡ self.now }
    {
        self.bytes.as_slice()
    }
}
