// The rig in memory.
ghost use Rattle.std.specs.Prelude.{◌≡◌, ◌≢◌, ◌≤◌, ◌<◌, ◌+◌, ◌-◌, ◌==◌, [], false, Some};
ghost use Rattle.std.specs.Prelude.{IfOk, OnOk, OnErr, find, length, take, drop, min};
ghost use Rattle.rig.specs.Disk.{IsSoundDisk};
ghost use Rattle.rig.specs.Faults.{CountsDisk};
ghost use Rattle.rig.specs.MemoryFile.{IsKept};
ghost use Rattle.rig.specs.MemoryRig.{MemoryRig, IsSteady, disk_of, memory_file, rig_tells, RigCall};
ghost use Rattle.rig.specs.MemoryRig.{fresh_rig, restarted, LeavesImage, with_failing, next_reading, after_now};
ghost use Rattle.rig.specs.MemoryRig.{look_fault, after_look, change_fault, after_change, IsPlaced};
ghost use Rattle.rig.specs.MemoryRig.{answer_of, counted, starved, asked_for, wrote_on, cut_on, settled_on};
ghost use Rattle.rig.specs.MemoryRig.{write_fault, after_write, cut_fault, after_cut};
ghost use Rattle.rig.specs.MemoryRig.{Attaches, Measures, Reads, Writes, Cuts, Syncs};
ghost use Rattle.rig.specs.MemoryRigLaws.{one_now_lem, sound_lem};
ghost use Rattle.rig.specs.Told.{StillTells, Stays, NotesReading, AsksAttach, IsSize, IsRead};
ghost use Rattle.rig.specs.Told.{WritesFile, CutsFile, SyncsFile};

use crate::faults::next_count;
use crate::memory_file::MemFile;
use crate::memory_source::copy_front;
use crate::{AskedEntry, DiskFailed, FailForm, FailedCall, Image, Rig, Side};
use lists::{Bytes, Items, Memory};
use std::alloc::Global;
use std::marker::Model;

// No file is longer.
const MOST: u64 = 9223372036854775807;

/// A rig in memory, for tests and for scripts. It can fail chosen calls on the disk, and be stopped
/// within a chosen write, cut or sync, as by a crash: that call and each later one on the disk fail, and
/// `restart` gives the rig that begins anew with what the crash leaves.
#[derive(Drop)]
pub struct MemRig {
    alloc: Global,
    a: MemFile,
    b: MemFile,
    moments: Vec<u64>,
    asked: Items<AskedEntry>,
    telling: bool,
    readings: Items<u64>,
    given: usize,
    last: u64,
    calls: u64,
    failing: Items<FailedCall>,
    stop: Option<u64>,
    stopped: bool,
    disk_faults: u64,
    net_faults: u64,
    starved: u64,
}

impl Model for MemRig {
    ghost use Rattle.std.specs.Prelude.{◌-◌, ◌≤◌, length, drop, vec_capacity, vec_len};
    ghost use Rattle.rig.specs.MemoryFile.{IsKept};
    ghost use Rattle.rig.specs.MemoryRig.{MemoryRig};

    ghost Value = { MemoryRig };

    ghost view = { λ r. record {
      a = r.a;
      b = r.b;
      moments = r.moments.items;
      asked = r.asked;
      telling = r.telling;
      room = vec_capacity r.moments - vec_len r.moments;
      readings = drop r.given r.readings;
      last = r.last;
      calls = r.calls;
      failing = r.failing;
      stop = r.stop;
      stopped = r.stopped;
      counts = record { disk_faults = r.disk_faults; net_faults = r.net_faults; starved = r.starved };
    } };

    ghost invariant = { λ r. (r.given ≤ length r.readings) × IsKept r.a × IsKept r.b };
}

impl MemRig {
    /// A rig with two empty files and a clock that gives 0. It takes the room to record so many
    /// readings of its clock; past them it tells its counts alone.
    pub fn new(alloc: Global, room: usize) -> Result<Self, Memory>
        ensures value { IfOk result (λ rig. rig ≡ fresh_rig [] [] room) }
        ensures sound { IfOk result (λ rig. IsSoundDisk (disk_of rig)) }
    {
        MemRig::with_files(alloc, Vec::new(alloc), Vec::new(alloc), room)
    }

    /// The same with these two files, both on the disk.
    pub fn from_files(alloc: Global, a: &[u8], b: &[u8], room: usize) -> Result<Self, Memory>
        ensures value { IfOk result (λ rig. rig ≡ fresh_rig a.now b.now room) }
        ensures sound { IfOk result (λ rig. IsSoundDisk (disk_of rig)) }
    {
        let a = Vec::from_slice(alloc, a)?;
        let b = Vec::from_slice(alloc, b)?;
        MemRig::with_files(alloc, a, b, room)
    }

    fn with_files(alloc: Global, a: Vec<u8>, b: Vec<u8>, room: usize) -> Result<Self, Memory>
        ensures value { IfOk result (λ rig. rig ≡ fresh_rig a.items b.items room) }
        ensures sound { IfOk result (λ rig. IsSoundDisk (disk_of rig)) }
    {
        Ok(MemRig {
            alloc,
            a: MemFile::new(alloc, a),
            b: MemFile::new(alloc, b),
            moments: Vec::with_capacity(alloc, room)?,
            asked: Items::new(alloc),
            telling: true,
            readings: Items::new(alloc),
            given: 0,
            last: 0,
            calls: 0,
            failing: Items::new(alloc),
            stop: None,
            stopped: false,
            disk_faults: 0,
            net_faults: 0,
            starved: 0,
        })
    }

    /// The rig that begins anew, with nothing but the two files that a crash now leaves.
    pub fn restart(self, alloc: Global, image: Image, room: usize) -> Result<Self, Memory>
        ensures value { IfOk result (λ rig. rig ≡ restarted image room self) }
        ensures sound { IfOk result (λ rig. IsSoundDisk (disk_of rig)) }
        ensures allowed { LeavesImage image self }
    {
        let MemRig { a, b, .. } = self;
        let a = a.into_image(image)?;
        let b = b.into_image(image)?;
        MemRig::with_files(alloc, a, b, room)
    }

    /// From now on the rig tells its counts alone.
    pub fn fall_silent(&mut self)
        ensures { self.new ≡ record self.old { telling = false } }
    {
        self.telling = false;
    }

    /// Sets what the clock gives from now on, in order. After these it gives the last again.
    pub fn set_readings(&mut self, readings: Items<u64>)
        ensures { self.new ≡ record self.old { readings = readings } }
    {
        self.readings = readings;
        self.given = 0;
    }

    /// Lets the call on the disk of this number fail, counted from 1 over all of the rig's.
    pub fn fail_at(&mut self, call: u64, form: FailForm) -> Result<(), Memory>
        ensures ok { OnOk result
            (self.new ≡ with_failing (record { call = call; form = form }) self.old) }
        ensures err { OnErr result (self.new ≡ self.old) }
    {
        self.failing.push(FailedCall { call, form })?;
        Ok(())
    }

    /// Lets the rig be stopped within the write, cut or sync of this number, counted from 1 over
    /// those from now on.
    pub fn stop_at(&mut self, change: u64)
        requires runs { self.old.stopped ≡ false }
        requires counts { 0 < change }
        ensures { self.new ≡ record self.old { stop = Some change } }
    {
        self.stop = Some(change);
    }

    /// Whether the rig tells all that it holds, and not its counts alone.
    pub fn is_telling(&self) -> bool
        ensures value { result ≡ self.now.telling }
        ensures sound { IsSoundDisk (disk_of self.now) }
    {
        self.telling
    }

    /// Whether the rig was stopped.
    pub fn is_stopped(&self) -> bool
        ensures { result ≡ self.now.stopped }
    {
        self.stopped
    }

    /// What a read of the whole file gives.
    pub fn file(&self, file: Side) -> &[u8]
        ensures { result.now ≡ (memory_file file self.now).bytes }
    {
        match file {
            Side::A => self.a.bytes(),
            Side::B => self.b.bytes(),
        }
    }

    /// What the rig was asked for.
    pub fn asked(&self) -> &[AskedEntry]
        ensures { result.now ≡ self.now.asked }
    {
        self.asked.as_slice()
    }

    /// How many calls on the disk there were, failed ones too.
    pub fn disk_calls(&self) -> u64
        ensures { result ≡ self.now.calls }
    {
        self.calls
    }

    /// How many calls on the disk failed.
    pub fn disk_fault_count(&self) -> u64
        ensures { result ≡ self.now.counts.disk_faults }
    {
        self.disk_faults
    }

    /// How many calls failed because the rig itself was out of memory.
    pub fn starved_count(&self) -> u64
        ensures { result ≡ self.now.counts.starved }
    {
        self.starved
    }

    // What a call answers that fails so, or not at all.
    fn answer<T: Drop>(&mut self, fault: Option<FailForm>, value: T) -> Result<T, DiskFailed>
        ensures answer { result ≡ answer_of fault value }
        ensures left { self.new ≡ counted fault self.old }
    {
        if fault.is_some() {
            self.disk_faults = next_count(self.disk_faults);
            return Err(DiskFailed);
        }
        Ok(value)
    }

    // A call found no memory, and its fault is counted.
    fn starve(&mut self) -> DiskFailed
        ensures { self.new ≡ starved self.old }
    {
        self.disk_faults = next_count(self.disk_faults);
        self.starved = next_count(self.starved);
        DiskFailed
    }

    // Counts a call on the disk, and says how it is set to fail.
    fn count_look(&mut self) -> Option<FailForm>
        ensures form { result ≡ look_fault self.old }
        ensures counted { self.new ≡ after_look self.old }
    {
        self.calls = next_count(self.calls);
        if self.stopped {
            return Some(FailForm::Nothing);
        }
        find_call(self.failing.as_slice(), self.calls).map(|failed| failed.form)
    }

    // The same of a write, a cut or a sync, which may be the one that is stopped.
    fn count_change(&mut self) -> Option<FailForm>
        ensures form { result ≡ change_fault self.old }
        ensures counted { self.new ≡ after_change self.old }
        ensures sound { IsSoundDisk (disk_of self.old) }
    {
        let set = self.count_look();
        let Some(left) = self.stop else {
            return set;
        };
        if left > 1 {
            self.stop = Some(left - 1);
            return set;
        }
        self.stop = None;
        self.stopped = true;
        Some(FailForm::All)
    }

    // Records that a directory was asked for.
    fn note_attach(&mut self, dir: &[u8]) -> Result<(), Memory>
        ensures ok { OnOk result (self.new ≡ asked_for dir.now self.old) }
        ensures err { OnErr result (self.new ≡ self.old) }
    {
        let dir = Bytes::from_slice(self.alloc, dir)?;
        self.asked.push(AskedEntry::Attach { dir })?;
        Ok(())
    }

    // How long the file is.
    fn len_of(&mut self, file: Side) -> u64
        ensures len { result ≡ length (memory_file file self.old).bytes }
        ensures fits { result < 9223372036854775808 }
        ensures kept { IsKept (memory_file file self.old) }
        ensures sound { IsSoundDisk (disk_of self.old) }
        ensures same { self.new ≡ self.old }
    {
        match file {
            Side::A => self.a.bytes().len() as u64,
            Side::B => self.b.bytes().len() as u64,
        }
    }

    // Puts the file's bytes from an offset on at the front of the buffer, and says how many.
    fn copy_from(&self, file: Side, at: u64, buf: &mut [u8]) -> usize
        ensures count { result ≡ min (length (memory_file file self.now).bytes - at) (length buf.old) }
        ensures front { take result buf.new ≡ take result (drop at (memory_file file self.now).bytes) }
    {
        let bytes = self.file(file);
        let (_, left) = bytes.split_at((at as usize).min(bytes.len()));
        copy_front(buf, left, usize::MAX)
    }

    // Puts a part of a write into the file.
    fn write_file(&mut self, file: Side, at: usize, count: usize, part: &[u8]) -> Result<(), Memory>
        requires inside { at ≤ length (memory_file file self.old).bytes }
        requires part { length part.now ≤ count }
        requires fits { at + count < 9223372036854775808 }
        ensures ok { OnOk result (self.new ≡ wrote_on file at count part.now self.old) }
        ensures err { OnErr result (self.new ≡ self.old) }
        ensures sound { IsSoundDisk (disk_of self.new) }
    {
        match file {
            Side::A => self.a.write(self.alloc, at, count, part)?,
            Side::B => self.b.write(self.alloc, at, count, part)?,
        }
        Ok(())
    }

    // Cuts the file.
    fn cut_file(&mut self, file: Side, len: usize) -> Result<(), Memory>
        requires { len ≤ length (memory_file file self.old).bytes }
        ensures ok { OnOk result (self.new ≡ cut_on file len self.old) }
        ensures err { OnErr result (self.new ≡ self.old) }
        ensures sound { IsSoundDisk (disk_of self.new) }
    {
        match file {
            Side::A => self.a.cut(self.alloc, len)?,
            Side::B => self.b.cut(self.alloc, len)?,
        }
        Ok(())
    }

    // Brings the file to the disk.
    fn settle_file(&mut self, file: Side)
        ensures settled { self.new ≡ settled_on file self.old }
        ensures sound_before { IsSoundDisk (disk_of self.old) }
        ensures sound_after { IsSoundDisk (disk_of self.new) }
    {
        match file {
            Side::A => self.a.settle(),
            Side::B => self.b.settle(),
        }
    }

    // Counts a write of so many bytes, and says how it fails.
    fn count_write(&mut self, file: Side, at: u64, count: usize) -> Option<FailForm>
        ensures form { result ≡ write_fault file at count self.old }
        ensures counted { self.new ≡ after_change self.old }
        ensures sound { IsSoundDisk (disk_of self.old) }
    {
        let fault = self.count_change();
        let len = self.len_of(file);
        if at <= len && (count as u64) <= MOST - at {
            return fault;
        }
        Some(FailForm::Nothing)
    }

    // Puts a write into its file, or the part of it that is done where it fails so.
    fn put_write(
        &mut self,
        file: Side,
        at: u64,
        bytes: &[u8],
        fault: Option<FailForm>,
    ) -> Result<(), Memory>
        requires place { IsPlaced fault at (length bytes.now) (memory_file file self.old) }
        ensures ok { OnOk result (self.new ≡ after_write file fault at bytes.now self.old) }
        ensures err { OnErr result (self.new ≡ self.old) }
    {
        let part = match fault {
            Some(FailForm::Nothing) => return Ok(()),
            Some(FailForm::Half) => bytes.split_at(bytes.len() / 2).0,
            Some(FailForm::All) | None => bytes,
        };
        self.write_file(file, at as usize, bytes.len(), part)
    }

    // Counts a cut, and says how it fails.
    fn count_cut(&mut self, file: Side, len: u64) -> Option<FailForm>
        ensures form { result ≡ cut_fault file len self.old }
        ensures counted { self.new ≡ after_change self.old }
        ensures sound { IsSoundDisk (disk_of self.old) }
    {
        let fault = self.count_change();
        if len <= self.len_of(file) {
            return fault;
        }
        Some(FailForm::Nothing)
    }

    // Cuts the file, where a cut that fails so does.
    fn put_cut(&mut self, file: Side, len: u64, fault: Option<FailForm>) -> Result<(), Memory>
        requires place { fault ≢ Some FailForm.Nothing → len ≤ length (memory_file file self.old).bytes }
        ensures ok { OnOk result (self.new ≡ after_cut file fault len self.old) }
        ensures err { OnErr result (self.new ≡ self.old) }
    {
        match fault {
            Some(FailForm::Nothing | FailForm::Half) => Ok(()),
            Some(FailForm::All) | None => self.cut_file(file, len as usize),
        }
    }

    fn do_attach(&mut self, dir: &str) -> Result<(), DiskFailed>
        ensures { Attaches dir.now result self.old self.new }
    {
        let fault = self.count_look();
        if self.note_attach(dir.as_bytes()).is_err() {
            return Err(self.starve());
        }
        self.answer(fault, ())
    }

    fn do_size(&mut self, file: Side) -> Result<u64, DiskFailed>
        ensures does { Measures file result self.old self.new }
        ensures sound { IsSoundDisk (disk_of self.old) }
    {
        let fault = self.count_look();
        let len = self.len_of(file);
        self.answer(fault, len)
    }

    fn do_read(&mut self, file: Side, at: u64, buf: &mut [u8]) -> Result<usize, DiskFailed>
        ensures { Reads file at (length buf.old) buf.new result self.old self.new }
    {
        let fault = self.count_look();
        let count = self.copy_from(file, at, buf);
        if count == 0 {
            return self.answer(Some(FailForm::Nothing), 0);
        }
        self.answer(fault, count)
    }

    fn do_write(&mut self, file: Side, at: u64, bytes: &[u8]) -> Result<(), DiskFailed>
        ensures does { Writes file at bytes.now result self.old self.new }
        ensures sound { IsSoundDisk (disk_of self.old) }
    {
        let fault = self.count_write(file, at, bytes.len());
        if self.put_write(file, at, bytes, fault).is_err() {
            return Err(self.starve());
        }
        self.answer(fault, ())
    }

    fn do_cut(&mut self, file: Side, len: u64) -> Result<(), DiskFailed>
        ensures does { Cuts file len result self.old self.new }
        ensures sound { IsSoundDisk (disk_of self.old) }
    {
        let fault = self.count_cut(file, len);
        if self.put_cut(file, len, fault).is_err() {
            return Err(self.starve());
        }
        self.answer(fault, ())
    }

    fn do_sync(&mut self, file: Side) -> Result<(), DiskFailed>
        ensures does { Syncs file result self.old self.new }
        ensures sound { IsSoundDisk (disk_of self.old) }
    {
        let fault = self.count_change();
        if fault.is_none() {
            self.settle_file(file);
        }
        self.answer(fault, ())
    }

    // Gives the next reading, and records it where there is room.
    fn read_clock(&mut self) -> u64
        ensures reading { result ≡ next_reading self.old.readings self.old.last }
        ensures left { self.new ≡ after_now self.old }
    {
        if let Some(reading) = self.readings.as_slice().get(self.given) {
            self.last = *reading;
            self.given += 1;
        }
        if self.moments.len() < self.moments.capacity() {
            self.moments.push_reserved(self.last);
        } else {
            self.telling = false;
        }
        self.last
    }
}

// The call of this number, where it is set to fail.
fn find_call(failing: &[FailedCall], call: u64) -> Option<FailedCall>
    ensures { result ≡ find (λ (f : FailedCall). f.call == call) failing.now }
{
    failing.iter().copied().find(|f| f.call == call)
}

impl Rig for MemRig {
    ghost tells = { rig_tells };

    ghost counts = { λ rig. rig.counts };

    ghost steady = { IsSteady };

    ghost one_now = { one_now_lem };

    ghost sound = { sound_lem };

    fn attach(&mut self, dir: &str) -> Result<(), DiskFailed>
        ensures told { RigCall (AsksAttach dir.now self.old.counts self.new.counts) self.old self.new }
        ensures tells { StillTells rig_tells self.old self.new }
        ensures steady { IsSteady self.old → IsSteady self.new }
        ensures counts { CountsDisk result self.old.counts self.new.counts }
        ensures does { Attaches dir.now result self.old self.new }
    {
        self.do_attach(dir)
    }

    fn size(&mut self, file: Side) -> Result<u64, DiskFailed>
        ensures told { RigCall (IsSize file result) self.old self.new }
        ensures tells { StillTells rig_tells self.old self.new }
        ensures steady { IsSteady self.old → IsSteady self.new }
        ensures fits { IfOk result (λ len. len < 9223372036854775808) }
        ensures counts { CountsDisk result self.old.counts self.new.counts }
        ensures does { Measures file result self.old self.new }
    {
        self.do_size(file)
    }

    fn read(&mut self, file: Side, at: u64, buf: &mut [u8]) -> Result<usize, DiskFailed>
        ensures told { RigCall (IsRead file at buf.new result) self.old self.new }
        ensures tells { StillTells rig_tells self.old self.new }
        ensures steady { IsSteady self.old → IsSteady self.new }
        ensures some { IfOk result (λ count. 0 < count) }
        ensures count { IfOk result (λ count. count ≤ length buf.old) }
        ensures counts { CountsDisk result self.old.counts self.new.counts }
        ensures does { Reads file at (length buf.old) buf.new result self.old self.new }
    {
        self.do_read(file, at, buf)
    }

    fn write(&mut self, file: Side, at: u64, bytes: &[u8]) -> Result<(), DiskFailed>
        ensures told { RigCall
            (WritesFile file (IsSteady self.old) at bytes.now result) self.old self.new }
        ensures tells { StillTells rig_tells self.old self.new }
        ensures steady { IsSteady self.old → IsSteady self.new }
        ensures fits { OnOk result (at + length bytes.now < 9223372036854775808) }
        ensures counts { CountsDisk result self.old.counts self.new.counts }
        ensures does { Writes file at bytes.now result self.old self.new }
    {
        self.do_write(file, at, bytes)
    }

    fn cut(&mut self, file: Side, len: u64) -> Result<(), DiskFailed>
        ensures told { RigCall (CutsFile file (IsSteady self.old) len result) self.old self.new }
        ensures tells { StillTells rig_tells self.old self.new }
        ensures steady { IsSteady self.old → IsSteady self.new }
        ensures fits { OnOk result (len < 9223372036854775808) }
        ensures counts { CountsDisk result self.old.counts self.new.counts }
        ensures does { Cuts file len result self.old self.new }
    {
        self.do_cut(file, len)
    }

    fn sync(&mut self, file: Side) -> Result<(), DiskFailed>
        ensures told { RigCall (SyncsFile file (IsSteady self.old) result) self.old self.new }
        ensures tells { StillTells rig_tells self.old self.new }
        ensures steady { IsSteady self.old → IsSteady self.new }
        ensures counts { CountsDisk result self.old.counts self.new.counts }
        ensures does { Syncs file result self.old self.new }
    {
        self.do_sync(file)
    }

    fn now(&mut self) -> u64
        ensures told { RigCall (NotesReading result) self.old self.new }
        ensures steady { IsSteady self.old → IsSteady self.new }
        ensures counts { self.new.counts ≡ self.old.counts }

        // the readings in order, and then the last again
        ensures reading { result ≡ next_reading self.old.readings self.old.last }
        ensures left { self.new ≡ after_now self.old }
    {
        self.read_clock()
    }

    fn rest(&mut self, ms: u64)
        ensures told { RigCall Stays self.old self.new }
        ensures tells { StillTells rig_tells self.old self.new }
        ensures steady { IsSteady self.old → IsSteady self.new }
        ensures counts { self.new.counts ≡ self.old.counts }

        // it waits for nobody
        ensures same { self.new ≡ self.old }
    {
        let _ = ms;
    }
}
