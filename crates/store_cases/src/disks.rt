//! A disk for tests, of which calls fail.
ghost use Rattle.std.specs.Prelude.{◌≡◌, ◌+◌, ◌&&◌, false, not};
ghost use Rattle.sqlite_disk.specs.Disk.{CountsFault};
ghost use Rattle.sqlite_disk.specs.Refusal.{finds_no_room};

use sqlite_disk::{Crash, Disk, Tally};
use std::io;

/// A disk that passes so many calls on. The next one fails and does nothing; behind it so many are passed
/// on again: none where the machine has stopped, as many as come where it alone fails.
#[derive(Drop)]
pub(crate) struct Failing<D: Disk> {
    inner: D,
    before: u64,
    behind: u64,
    refused: u64,
    sync_refused: bool,
}

impl<D: Disk> Failing<D> {
    pub(crate) fn new(inner: D, before: u64, behind: u64) -> Failing<D> {
        Failing {
            inner,
            before,
            behind,
            refused: 0,
            sync_refused: false,
        }
    }
}

fn pass(before: &mut u64, behind: u64, refused: &mut u64) -> io::Result<()>
    ensures faults { CountsFault result refused.old refused.new }
    ensures kind { finds_no_room result ≡ false }
{
    if *before == 0 {
        *before = behind;
        *refused = refused.saturating_add(1);
        return Err(io::Error::other("this call fails"));
    }
    *before -= 1;
    Ok(())
}

impl<D: Disk> Disk for Failing<D> {
    ghost seen = { λ f. D.Disk.seen f.inner };

    ghost may_leave = { λ f. D.Disk.may_leave f.inner };

    ghost is_usable = { λ f. D.Disk.is_usable f.inner && not f.sync_refused };

    ghost faults = { λ f. D.Disk.faults f.inner + f.refused };

    ghost tally_of = { λ f. D.Disk.tally_of f.inner };

    ghost is_rotten = { λ f. D.Disk.is_rotten f.inner };

    ghost key_of = { λ f. D.Disk.key_of f.inner };

    ghost is_clean = { λ f. D.Disk.is_clean f.inner };

    ghost is_fair = { λ f. D.Disk.is_fair f.inner };

    ghost fair_if_clean = { λ f. D.Disk.fair_if_clean f.inner };

    ghost seen_may_stay = { λ f. D.Disk.seen_may_stay f.inner };

    ghost is_mixing = { λ f. D.Disk.is_mixing f.inner };

    fn mixes(&self) -> bool {
        self.inner.mixes()
    }

    fn key(&self) -> u64 {
        self.inner.key()
    }

    fn tally(&self) -> Tally {
        self.inner.tally()
    }

    fn may_be_used(&self) -> bool {
        self.inner.may_be_used() && !self.sync_refused
    }

    fn len(&mut self) -> io::Result<usize> {
        match pass(&mut self.before, self.behind, &mut self.refused) {
            Ok(()) => self.inner.len(),
            Err(error) => Err(error),
        }
    }

    fn read_at(&mut self, at: usize, buf: &mut [u8]) -> io::Result<()> {
        match pass(&mut self.before, self.behind, &mut self.refused) {
            Ok(()) => self.inner.read_at(at, buf),
            Err(error) => Err(error),
        }
    }

    fn read_checked(&mut self, key: u64, want: u64, at: usize, buf: &mut [u8]) -> io::Result<()> {
        match pass(&mut self.before, self.behind, &mut self.refused) {
            Ok(()) => self.inner.read_checked(key, want, at, buf),
            Err(error) => Err(error),
        }
    }

    fn write_at(&mut self, at: usize, bytes: &[u8]) -> io::Result<()> {
        match pass(&mut self.before, self.behind, &mut self.refused) {
            Ok(()) => self.inner.write_at(at, bytes),
            Err(error) => Err(error),
        }
    }

    fn set_len(&mut self, len: usize) -> io::Result<()> {
        match pass(&mut self.before, self.behind, &mut self.refused) {
            Ok(()) => self.inner.set_len(len),
            Err(error) => Err(error),
        }
    }

    fn sync(&mut self) -> io::Result<()> {
        if let Err(error) = pass(&mut self.before, self.behind, &mut self.refused) {
            self.sync_refused = true;
            return Err(error);
        }
        self.inner.sync()
    }
}

/// The machine comes back, and no call fails any more.
impl<D: Crash> Crash for Failing<D> {
    fn crash(&mut self) {
        self.inner.crash();
        self.before = u64::MAX;
        self.sync_refused = false;
    }
}
