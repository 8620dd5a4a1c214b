// A rig that tells its counts alone.
ghost use Rattle.std.specs.Prelude.{◌≡◌, false};
ghost use Rattle.rig.specs.MemoryRig.{MemoryRig, IsSteady};
ghost use Rattle.rig.specs.SilentRig.{tells_nothing, silent_one_now, silent_sound};

use crate::{DiskFailed, MemRig, Rig, Side};
use std::marker::Model;

/// A rig in memory that tells nothing but its counts, as a rig over a real machine does.
#[derive(Drop)]
pub struct SilentRig {
    rig: MemRig,
}

impl Model for SilentRig {
    ghost use Rattle.std.specs.Prelude.{◌≡◌, false};
    ghost use Rattle.rig.specs.MemoryRig.{MemoryRig};

    ghost Value = { MemoryRig };

    ghost view = { λ s. s.rig };

    ghost invariant = { λ s. s.rig.telling ≡ false };
}

impl SilentRig {
    /// This rig, which from now on tells its counts alone.
    pub fn new(rig: MemRig) -> Self
        ensures { result ≡ record rig { telling = false } }
    {
        let mut rig = rig;
        rig.fall_silent();
        SilentRig { rig }
    }

    /// The rig, which goes on telling nothing.
    pub fn into_inner(self) -> MemRig
        ensures { result ≡ self }
    {
        self.rig
    }
}

impl Rig for SilentRig {
    ghost tells = { tells_nothing };

    ghost counts = { λ rig. rig.counts };

    ghost steady = { IsSteady };

    ghost one_now = { silent_one_now };

    ghost sound = { silent_sound };

    fn attach(&mut self, dir: &str) -> Result<(), DiskFailed> {
        self.rig.attach(dir)
    }

    fn size(&mut self, file: Side) -> Result<u64, DiskFailed> {
        self.rig.size(file)
    }

    fn read(&mut self, file: Side, at: u64, buf: &mut [u8]) -> Result<usize, DiskFailed> {
        self.rig.read(file, at, buf)
    }

    fn write(&mut self, file: Side, at: u64, bytes: &[u8]) -> Result<(), DiskFailed> {
        self.rig.write(file, at, bytes)
    }

    fn cut(&mut self, file: Side, len: u64) -> Result<(), DiskFailed> {
        self.rig.cut(file, len)
    }

    fn sync(&mut self, file: Side) -> Result<(), DiskFailed> {
        self.rig.sync(file)
    }

    fn now(&mut self) -> u64 {
        self.rig.now()
    }

    fn rest(&mut self, ms: u64) {
        self.rig.rest(ms);
    }
}
