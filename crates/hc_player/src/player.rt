// A cache over a device in memory.
ghost use Rattle.std.specs.Prelude.{◌≡◌, ◌⊎◌, ℕ, [], None, Some, IfOk, OnOk, IfErr};
ghost use Rattle.hc_flash.specs.Devices.{held_by};
ghost use Rattle.hc_types.specs.Limits.{first_wrong};
ghost use Rattle.hc_history.specs.Told.{IfLog, losses_taken};
ghost use Rattle.hc_trace_meaning.specs.Actions.{Restart};
ghost use Rattle.hc_trace_meaning.specs.Trace.{fresh};
ghost use Rattle.hc_player.specs.Playing.{world_of, Acts};
ghost use Rattle.hc_player.specs.Seen.{answer_seen};
ghost use Rattle.hc_player.specs.Alike.{Alike};

use crate::answers::Answer;
use hc_core::Core;
use hc_flash::MemFlash;
use hc_history::{Counting, Note, Notes};
use hc_io_results::Results;
use hc_types::{Config, FlashConfig, Refusal};
use std::alloc::{AllocError, Global};
use std::marker::Model;

/// A cache, its device in memory, and the results of device operations that weren't handed in. Contracts see the machine's
/// cache over its device, and what is heard of the log.
pub struct Player<N: Notes<Note>> {
    pub(crate) core: Core<N>,
    pub(crate) device: MemFlash,
    pub(crate) results: Results,
}

impl<N: Notes<Note>> Model for Player<N> {
    ghost use Rattle.hc_player.specs.Playing.{Playing};

    ghost Value = { Playing };

    ghost view = { λ p. record { cache = p.core.cache; log = p.core.log; flash = p.device; results = p.results.results } };
}

// (written out, so that who drops a player calls this one function, whatever stands in it)
impl<N: Notes<Note>> Drop for Player<N> {
    fn drop(self) {
        let Player {
            core: _,
            device: _,
            results: _,
        } = self;
    }
}

/// How many pages the flash has.
fn pages_of(flash: FlashConfig) -> u64 {
    let regions = flash.regions.saturating_mul(flash.region_pages);
    flash.buckets.saturating_add(regions)
}

/// A device for this flash, of whose pages nothing is known. Without flash it has none. An error is out of memory, or that a
/// number of the flash is too large for a device.
pub fn new_device(alloc: Global, flash: Option<FlashConfig>) -> Result<MemFlash, AllocError>
    ensures { IfOk result (λ device. (page : ℕ) → held_by device page ≡ None) }
{
    let Some(flash) = flash else {
        return MemFlash::new(alloc, 0, 0);
    };
    match (u32::try_from(pages_of(flash)), usize::try_from(flash.page)) {
        (Ok(pages), Ok(bytes)) => MemFlash::new(alloc, pages, bytes),
        _ => Err(AllocError),
    }
}

impl<N: Notes<Note>> Player<N> {
    /// An empty cache over its device, which tells `notes` what it does. Refused for the first number of the configuration that
    /// is outside its limits, and with `NoMemory`.
    pub fn new(alloc: Global, config: &Config, notes: N) -> Result<Player<N>, Refusal>
        requires log { IfLog (N.told notes) (λ log. log ≡ []) }
        ensures world { IfOk result (λ player. Alike (world_of player) (fresh config.now)) }
        ensures log { IfOk result (λ player. player.log ≡ N.told notes) }
        ensures fits { OnOk result (first_wrong config.now ≡ None) }
        ensures err { IfErr result (λ refusal. (first_wrong config.now ≡ Some refusal) ⊎ ((first_wrong config.now ≡ None) × (refusal ≡ Refusal.NoMemory))) }
    {
        let core = Core::new(alloc, config, notes)?;
        let device = new_device(alloc, config.flash)?;
        let results = Results::new(alloc);
        Ok(Player {
            core,
            device,
            results,
        })
    }

    /// Closes the cache where it is at rest, and another goes on with its parts, over the same device.
    #[must_use]
    pub fn restart(self, alloc: Global) -> (Player<N>, Answer)
        ensures { Acts Restart (answer_seen result.1) self result.0 }
    {
        if !self.core.is_at_rest() {
            return (self, Answer::Busy);
        }
        let Player {
            core,
            device,
            results,
        } = self;
        let (parts, notes) = core.close();
        let core = Core::from_parts(alloc, parts, notes);
        let player = Player {
            core,
            device,
            results,
        };
        (player, Answer::Restarted)
    }

    /// Who was told the notes.
    #[must_use]
    pub fn notes(&self) -> &N
        ensures { N.told result.now ≡ self.now.log }
    {
        self.core.notes()
    }
}

impl Player<Counting> {
    /// The losses that the log counts are taken, and kept no longer.
    pub fn forget_losses(&mut self)
        ensures { self.new ≡ record self.old { log = losses_taken self.old.log } }
    {
        self.core.forget_losses();
    }
}
