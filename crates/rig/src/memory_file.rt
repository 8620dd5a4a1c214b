// A file in memory, and what a crash leaves of it.
ghost use Rattle.std.specs.Prelude.{◌≡◌, ◌+◌, ◌≤◌, ◌<◌, ℕ, IfOk, OnOk, OnErr, length, take, drop, vec_len};
ghost use Rattle.rig.specs.Disk.{overwritten};
ghost use Rattle.rig.specs.MemoryFile.{settled_file, wrote, was_cut, undo, undone, put_at, halved, image_of, IsKept};

use lists::{Bytes, Memory};
use std::alloc::Global;
use std::marker::Model;
use std::mem;

/// What a crash leaves of the writes and cuts that no sync has brought to the disk.
#[derive(Clone, Copy, Debug, PartialEq, Eq)]
pub enum Image {
    /// None of them.
    Kept,
    /// All, in order.
    Whole,
    /// Of each write the first half of its bytes, rounded down, and no cut.
    Half,
}

/// A change of a file since its last sync, with what it takes to undo it.
#[derive(Drop)]
pub enum Change {
    /// A write of `count` bytes has begun at this offset, and put these there in the place of others.
    Wrote {
        at: usize,
        count: usize,
        bytes: Bytes,
        before: Bytes,
    },
    /// The end of the file was cut off.
    Cut {
        removed: Tail,
    },
}

/// Bytes that were cut off the end of a file.
#[derive(Drop)]
pub struct Tail {
    bytes: Vec<u8>,
}

impl Model for Tail {
    ghost use Rattle.std.specs.Prelude.{List, ℕ};

    ghost Value = { List ℕ };

    ghost view = { λ t. t.bytes.items };
}

impl Tail {
    // Cuts the file to this length. A whole file is moved, and not copied.
    fn cut_off(alloc: Global, file: &mut Vec<u8>, len: usize) -> Result<Self, Memory>
        requires { len ≤ vec_len file.old }
        ensures tail { IfOk result (λ tail. tail ≡ drop len file.old.items) }
        ensures ok { OnOk result (file.new.items ≡ take len file.old.items) }
        ensures err { OnErr result (file.new.items ≡ file.old.items) }
    {
        if len == 0 {
            return Ok(Tail {
                bytes: mem::replace(file, Vec::new(alloc)),
            });
        }
        let bytes = Vec::from_slice(alloc, &file[len..])?;
        file.truncate(len);
        Ok(Tail { bytes })
    }

    fn as_slice(&self) -> &[u8]
        ensures { result.now ≡ self.now }
    {
        self.bytes.as_slice()
    }
}

/// A file in memory, with the changes since its last sync, the oldest first.
#[derive(Drop)]
pub struct MemFile {
    bytes: Vec<u8>,
    changes: Vec<Change>,
    least: usize,
    most: usize,
}

impl Model for MemFile {
    ghost use Rattle.rig.specs.MemoryFile.{MemoryFile};

    ghost Value = { MemoryFile };

    ghost view = { λ f. record {
      bytes = f.bytes.items;
      changes = f.changes.items;
      least = f.least;
      most = f.most;
    } };
}

impl MemFile {
    /// A file that is on the disk.
    pub fn new(alloc: Global, bytes: Vec<u8>) -> Self
        ensures settled { result ≡ settled_file bytes.items }
        ensures kept { IsKept result }
    {
        let len = bytes.len();
        MemFile {
            bytes,
            changes: Vec::new(alloc),
            least: len,
            most: len,
        }
    }

    /// What a read of it gives.
    pub fn bytes(&self) -> &[u8]
        ensures value { result.now ≡ self.now.bytes }
    {
        self.bytes.as_slice()
    }

    /// Puts bytes at an offset, as part of a write of `count` bytes.
    pub fn write(
        &mut self,
        alloc: Global,
        at: usize,
        count: usize,
        bytes: &[u8],
    ) -> Result<(), Memory>
        requires inside { at ≤ length self.old.bytes }
        requires fits { at + count < 9223372036854775808 }
        ensures ok { OnOk result (self.new ≡ wrote at count bytes.now self.old) }
        ensures err { OnErr result (self.new ≡ self.old) }
    {
        let end = bytes.len().min(self.bytes.len() - at);
        let change = Change::Wrote {
            at,
            count,
            bytes: Bytes::from_slice(alloc, bytes)?,
            before: Bytes::from_slice(alloc, &self.bytes[at..at + end])?,
        };
        self.changes.reserve(1)?;
        overwrite(&mut self.bytes, at, bytes)?;
        self.changes.push_reserved(change);
        self.most = self.most.max(at + count);
        Ok(())
    }

    /// Cuts the file.
    pub fn cut(&mut self, alloc: Global, len: usize) -> Result<(), Memory>
        requires { len ≤ length self.old.bytes }
        ensures ok { OnOk result (self.new ≡ was_cut len self.old) }
        ensures err { OnErr result (self.new ≡ self.old) }
    {
        self.changes.reserve(1)?;
        let removed = Tail::cut_off(alloc, &mut self.bytes, len)?;
        self.changes.push_reserved(Change::Cut { removed });
        self.least = self.least.min(len);
        Ok(())
    }

    /// All of it is on the disk.
    pub fn settle(&mut self)
        ensures settled { self.new ≡ settled_file self.old.bytes }
        ensures kept { IsKept self.old → IsKept self.new }
    {
        self.changes.clear();
        self.least = self.bytes.len();
        self.most = self.bytes.len();
    }

    /// What a crash leaves of it.
    pub fn into_image(self, image: Image) -> Result<Vec<u8>, Memory>
        ensures { IfOk result (λ bytes. bytes.items ≡ image_of image self) }
    {
        let MemFile {
            mut bytes,
            changes,
            ..
        } = self;
        match image {
            Image::Kept => undo_all(&mut bytes, changes.as_slice())?,
            Image::Whole => (),
            Image::Half => {
                undo_all(&mut bytes, changes.as_slice())?;
                put_halves(&mut bytes, changes.as_slice())?;
            }
        }
        Ok(bytes)
    }
}

// Puts bytes in the place of those at this offset, and behind the end where there is no more.
fn overwrite(file: &mut Vec<u8>, at: usize, bytes: &[u8]) -> Result<(), Memory>
    requires { at ≤ vec_len file.old }
    ensures ok { OnOk result (file.new.items ≡ overwritten at bytes.now file.old.items) }
    ensures err { OnErr result (file.new.items ≡ file.old.items) }
{
    let inside = bytes.len().min(file.len() - at);
    let (front, back) = bytes.split_at(inside);
    file.extend_from_slice(back)?;
    file[at..at + inside].copy_from_slice(front);
    Ok(())
}

// Takes back the newest change.
fn undo_change(file: &mut Vec<u8>, change: &Change) -> Result<(), Memory>
    ensures { OnOk result (file.new.items ≡ undo change.now file.old.items) }
{
    match change {
        Change::Wrote {
            at,
            bytes,
            before,
            ..
        } => {
            let start = (*at).min(file.len());
            let end = bytes.len().min(file.len() - start);
            let tail = Vec::from_slice(*file.allocator(), &file[start + end..])?;
            file.truncate(start);
            file.extend_from_slice(before.as_slice())?;
            file.extend_from_slice(tail.as_slice())?;
        }
        Change::Cut { removed } => file.extend_from_slice(removed.as_slice())?,
    }
    Ok(())
}

// Takes back all of the changes, the newest first.
fn undo_all(file: &mut Vec<u8>, changes: &[Change]) -> Result<(), Memory>
    ensures { OnOk result (file.new.items ≡ undone changes.now file.old.items) }
{
    let mut left = changes;
    while let Some((change, older)) = left.split_last() {
        undo_change(file, change)?;
        left = older;
    }
    Ok(())
}

// Puts bytes at an offset that may lie past the end. Between the end and the offset come zeros.
fn put(file: &mut Vec<u8>, at: usize, bytes: &[u8]) -> Result<(), Memory>
    ensures { OnOk result (file.new.items ≡ put_at at bytes.now file.old.items) }
{
    if bytes.is_empty() {
        return Ok(());
    }
    if file.len() < at {
        file.resize(at, 0)?;
    }
    overwrite(file, at, bytes)
}

// Puts the first half of each write.
fn put_halves(file: &mut Vec<u8>, changes: &[Change]) -> Result<(), Memory>
    ensures { OnOk result (file.new.items ≡ halved changes.now file.old.items) }
{
    for change in changes {
        if let Change::Wrote { at, bytes, .. } = change {
            let (half, _) = bytes.as_slice().split_at(bytes.len() / 2);
            put(file, *at, half)?;
        }
    }
    Ok(())
}
