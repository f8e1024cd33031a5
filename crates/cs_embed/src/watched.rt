//! A disk that notes whether a call of it failed that writes.

ghost use Rattle.std.specs.Prelude.{◌≡◌, false};

use sqlite_disk::{Disk, Tally};
use std::io;

/// A disk that tells whether a write failed. The engine tells all failures of a disk alike. Of a file in memory a write fails for
/// want of memory alone, and is to be told so.
#[derive(Drop)]
pub struct Watched<D: Disk> {
    inner: D,
    has_failed: bool,
}

impl<D: Disk> Watched<D> {
    ghost use Rattle.cs_embed.specs.Watched.{inner_of};

    /// This disk, of which no write failed.
    pub fn new(inner: D) -> Watched<D>
        ensures { inner_of result ≡ inner }
    {
        Watched {
            inner,
            has_failed: false,
        }
    }

    /// The disk.
    pub fn inner(&self) -> &D
        ensures { result.now ≡ inner_of self.now }
    {
        &self.inner
    }

    /// Whether a write failed.
    pub fn has_failed(&self) -> bool {
        self.has_failed
    }
}

impl<D: Disk> Disk for Watched<D> {
    ghost seen = { λ w. D.Disk.seen w.inner };

    ghost may_leave = { λ w. D.Disk.may_leave w.inner };

    ghost is_usable = { λ w. D.Disk.is_usable w.inner };

    ghost faults = { λ w. D.Disk.faults w.inner };

    ghost tally_of = { λ w. D.Disk.tally_of w.inner };

    ghost is_rotten = { λ w. D.Disk.is_rotten w.inner };

    ghost key_of = { λ w. D.Disk.key_of w.inner };

    ghost is_clean = { λ w. D.Disk.is_clean w.inner };

    ghost is_fair = { λ w. D.Disk.is_fair w.inner };

    ghost fair_if_clean = { λ w. D.Disk.fair_if_clean w.inner };

    ghost seen_may_stay = { λ w. D.Disk.seen_may_stay w.inner };

    ghost is_mixing = { λ w. D.Disk.is_mixing w.inner };

    fn mixes(&self) -> bool {
        self.inner.mixes()
    }

    fn key(&self) -> u64 {
        self.inner.key()
    }

    fn tally(&self) -> Tally {
        self.inner.tally()
    }

    fn may_be_used(&self) -> bool {
        self.inner.may_be_used()
    }

    fn len(&mut self) -> io::Result<usize> {
        self.inner.len()
    }

    fn read_at(&mut self, at: usize, buf: &mut [u8]) -> io::Result<()> {
        self.inner.read_at(at, buf)
    }

    fn read_checked(&mut self, key: u64, want: u64, at: usize, buf: &mut [u8]) -> io::Result<()> {
        self.inner.read_checked(key, want, at, buf)
    }

    fn write_at(&mut self, at: usize, bytes: &[u8]) -> io::Result<()> {
        match self.inner.write_at(at, bytes) {
            Ok(()) => Ok(()),
            Err(error) => {
                self.has_failed = true;
                Err(error)
            }
        }
    }

    fn set_len(&mut self, len: usize) -> io::Result<()> {
        match self.inner.set_len(len) {
            Ok(()) => Ok(()),
            Err(error) => {
                self.has_failed = true;
                Err(error)
            }
        }
    }

    fn sync(&mut self) -> io::Result<()> {
        match self.inner.sync() {
            Ok(()) => Ok(()),
            Err(error) => {
                self.has_failed = true;
                Err(error)
            }
        }
    }
}
