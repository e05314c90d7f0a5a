// A journal over a disk of its own.
ghost use Rattle.std.specs.Prelude.{◌≡◌, ℕ, ◌++◌, [], ◌∷◌, List, length, replicate};
ghost use Rattle.geometry.specs.Places.{data_start};
ghost use Rattle.journal.specs.Books.{Event, recovered, opened, Lawful};
ghost use Rattle.journal.specs.Calls.{ChangeDoes, ForceDoes, ShutDoes, RecoverDoes, DataDoes, ImageIs};
ghost use Rattle.journal.specs.Decisions.{Decides};
ghost use Rattle.journal.specs.Formats.{FormatDoes};
ghost use Rattle.journal.specs.Runs.{Run, given};
ghost use Rattle.journal.specs.declared.inner.State.TheVariants as state;

use crate::change::change_up;
use crate::data::write_data_up;
use crate::force::{force_up, shut_up};
use crate::format::format_down;
use crate::inner::{Inner, State};
use crate::recover::recover_down;
use disk::disks::Disk;
use refusal::Refusal;
use working::guard::Working;

/// A call whose right depends on whether the journal is down or up.
#[derive(Clone, Copy)]
pub enum Call<'a> {
    Change(u32, &'a [u8; 512]),
    Force,
    Shut,
    Recover,
    Data(u32, &'a [u8; 512]),
    Format(u32, &'a [[u8; 512]]),
}

/// A journal over a disk of its own.
// Its parts are public, since contracts of other crates name them: whoever writes to the disk between two calls answers for it.
#[derive(Drop)]
pub struct Journal<D> {
    pub disk: D,
    pub inner: Inner,
}

impl<D: Disk> Journal<D> {
    /// A down journal over a disk.
    pub fn new(disk: D) -> Journal<D>
        ensures disk { result.disk ≡ disk }
        ensures down { result.inner.state ≡ state.Down }
    {
        Journal {
            disk,
            inner: Inner::down(),
        }
    }

    /// The image of a page now.
    pub fn image(&self, page: u32) -> Result<[u8; 512], Refusal>
        ensures { ImageIs page self.now.inner result }
    {
        let State::Up(standing) = self.inner.state else {
            return Err(Refusal::VolumeDown);
        };
        if page >= standing.geometry.pages {
            return Err(Refusal::RegisterBroken(page));
        }
        Ok(self.inner.frames[page as usize].now)
    }

    /// Formats the disk as a volume with these images and thirds of so many sectors; the journal stays down.
    pub fn format(
        &mut self,
        third: u32,
        images: &[[u8; 512]],
        work: &mut [u8; 512],
    ) -> Result<(), Refusal>
        ensures rule { FormatDoes third images.now self.old.inner (D.state self.old.disk) result self.new.inner (D.state self.new.disk) }
        ensures same { D.layers self.new.disk ≡ D.layers self.old.disk }
        ensures work { work.new ≡ replicate 512 0 }
    {
        let work = Working(work);
        self.decide(Call::Format(third, images), work.0)?;
        Ok(())
    }

    /// Changes the image of a page, in memory.
    pub fn change(
        &mut self,
        page: u32,
        image: &[u8; 512],
        work: &mut [u8; 512],
    ) -> Result<(), Refusal>
        ensures rule { ChangeDoes page image.now self.old.inner (D.state self.old.disk) result self.new.inner (D.state self.new.disk) }
        ensures same { D.layers self.new.disk ≡ D.layers self.old.disk }
        ensures work { work.new ≡ replicate 512 0 }
    {
        let work = Working(work);
        self.decide(Call::Change(page, image), work.0)?;
        Ok(())
    }

    /// Forces what changed, and answers the last group forced since the recovery, or 0.
    pub fn force(&mut self, work: &mut [u8; 512]) -> Result<u32, Refusal>
        ensures rule { ForceDoes self.old.inner (D.state self.old.disk) result self.new.inner (D.state self.new.disk) }
        ensures same { D.layers self.new.disk ≡ D.layers self.old.disk }
        ensures work { work.new ≡ replicate 512 0 }
    {
        let work = Working(work);
        self.decide(Call::Force, work.0)
    }

    /// Forces what changed, and goes down.
    pub fn shut(&mut self, work: &mut [u8; 512]) -> Result<(), Refusal>
        ensures rule { ShutDoes self.old.inner (D.state self.old.disk) result self.new.inner (D.state self.new.disk) }
        ensures same { D.layers self.new.disk ≡ D.layers self.old.disk }
        ensures work { work.new ≡ replicate 512 0 }
    {
        let work = Working(work);
        self.decide(Call::Shut, work.0)?;
        Ok(())
    }

    /// Brings the journal up from its disk alone.
    pub fn recover(&mut self, work: &mut [u8; 512]) -> Result<(), Refusal>
        ensures rule { RecoverDoes self.old.inner (D.state self.old.disk) result self.new.inner (D.state self.new.disk) }
        ensures law { (third : ℕ) (images : List (List ℕ)) (h : List Event) → Run third images h self.old.inner (D.state self.old.disk) → Lawful (data_start (length images) third) (opened images) (h ++ recovered (D.state self.new.disk).power (given (length images) self.new.inner result) ∷ []) }
        ensures same { D.layers self.new.disk ≡ D.layers self.old.disk }
        ensures work { work.new ≡ replicate 512 0 }
    {
        let work = Working(work);
        self.decide(Call::Recover, work.0)?;
        Ok(())
    }

    /// Writes to a sector of the data.
    pub fn write_data(
        &mut self,
        sector: u32,
        bytes: &[u8; 512],
        work: &mut [u8; 512],
    ) -> Result<(), Refusal>
        ensures rule { DataDoes sector bytes.now self.old.inner (D.state self.old.disk) result self.new.inner (D.state self.new.disk) }
        ensures same { D.layers self.new.disk ≡ D.layers self.old.disk }
        ensures work { work.new ≡ replicate 512 0 }
    {
        let work = Working(work);
        self.decide(Call::Data(sector, bytes), work.0)?;
        Ok(())
    }

    // Down or up together with the call decides what is done. The answer is the last group forced, where the call is a force.
    fn decide(&mut self, call: Call<'_>, work: &mut [u8; 512]) -> Result<u32, Refusal>
        ensures rule { Decides call.entry self.old.inner (D.state self.old.disk) result self.new.inner (D.state self.new.disk) }
        ensures same { D.layers self.new.disk ≡ D.layers self.old.disk }
    {
        match (self.inner.state, call) {
            (State::Up(standing), Call::Force) => {
                force_up(&mut self.disk, &mut self.inner, &standing, work)
            }
            (State::Up(standing), Call::Shut) => {
                shut_up(&mut self.disk, &mut self.inner, &standing, work).map(|()| 0)
            }
            (State::Up(standing), Call::Change(page, image)) => {
                change_up(&mut self.inner, &standing, page, image).map(|()| 0)
            }
            (State::Up(standing), Call::Data(sector, bytes)) => {
                write_data_up(&mut self.disk, &mut self.inner, &standing, sector, bytes).map(|()| 0)
            }
            (State::Down, Call::Recover) => {
                recover_down(&mut self.disk, &mut self.inner, work).map(|()| 0)
            }
            (State::Down, Call::Format(third, images)) => {
                format_down(&mut self.disk, third, images, work).map(|()| 0)
            }
            (State::Down, _) => Err(Refusal::VolumeDown),
            (State::Up(_), _) => Err(Refusal::VolumeUp),
        }
    }
}
