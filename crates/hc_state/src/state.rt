// A cache of pools with flash behind them.
ghost use Rattle.std.specs.Prelude.{◌≡◌, ◌⊎◌, None, Some, option_map, IfSome, IfOk, OnOk, IfErr};
ghost use Rattle.hc_types.specs.Limits.{first_wrong, flash_wrong};
ghost use Rattle.hc_machine.specs.Nvm.{new_nvm};
ghost use Rattle.hc_machine.specs.Cache.{new_cache};
ghost use Rattle.hc_state.specs.Whole.{nvm_of};

use hc_history::{Listener, Note, Notes};
use hc_memory::Pools;
use hc_nvm::Nvm;
use hc_types::{Config, FlashConfig, Refusal};
use hc_waiting::Replies;
use std::alloc::{AllocError, Allocator, Global};
use std::marker::Model;

/// A cache of up to 16 pools, with flash behind them where it is configured, in the midst of a step or between two. What a
/// step does is made of its parts, each of which is a call here. A call that may be refused changes nothing of the cache: it
/// takes memory, or asks. A call that changes something has all the room that it needs.
///
/// Contracts see the machine's cache, what is heard of its log, and for how many notes, puts, tombstones and fills there is
/// room.
#[derive(Drop)]
pub struct State<N: Listener, A: Allocator = Global> {
    pub(crate) config: Config<A>,
    pub(crate) pools: Pools<A>,
    // seconds
    pub(crate) clock: u64,
    pub(crate) calls: u64,
    pub(crate) replies: Replies<A>,
    pub(crate) nvm: Option<Nvm<A>>,
    pub(crate) notes: N,
}

impl<N: Listener, A: Allocator> Model for State<N, A> {
    ghost use Rattle.hc_state.specs.Whole.{Whole, spare_of, nvm_of};

    ghost Value = { Whole };

    ghost view = { λ s. record { cache = record { config = s.config; memory = s.pools; now = s.clock; calls = s.calls; owed = s.replies; nvm = nvm_of s.nvm }; log = N.told s.notes; notes = N.room s.notes; spare = spare_of s.nvm } };
}

/// What allocates the lists of the configuration, and so all of the cache.
pub(crate) fn alloc_of<A: Allocator + Copy>(config: &Config<A>) -> A {
    *config.pools.allocator()
}

/// What waits for flash, where there is flash: nothing yet.
fn empty_nvm<A: Allocator + Clone + Copy>(
    alloc: A,
    flash: Option<FlashConfig>,
) -> Result<Option<Nvm<A>>, AllocError>
    requires { IfSome flash (λ flash. flash_wrong flash ≡ None) }
    ensures { IfOk result (λ nvm. nvm_of nvm ≡ option_map new_nvm flash) }
{
    match flash {
        Some(flash) => {
            let nvm = Nvm::new(alloc, flash)?;
            Ok(Some(nvm))
        }
        None => Ok(None),
    }
}

impl<N: Notes<Note<A>>, A: Allocator + Clone + Copy> State<N, A> {
    /// An empty cache, which tells `notes` what it does. Refused for the first number of the configuration that is outside its
    /// limits, as `Config::check` is, and with `NoMemory`; then `notes` are dropped.
    pub fn new(alloc: A, config: &Config<A>, notes: N) -> Result<State<N, A>, Refusal>
        ensures cache { IfOk result (λ state. state.cache ≡ new_cache config.now) }
        ensures log { IfOk result (λ state. state.log ≡ N.told notes) }
        ensures fits { OnOk result (first_wrong config.now ≡ None) }
        ensures err { IfErr result (λ refusal. (first_wrong config.now ≡ Some refusal) ⊎ ((first_wrong config.now ≡ None) × (refusal ≡ Refusal.NoMemory))) }
    {
        config.check()?;
        let pools = Pools::new(alloc, config)?;
        let nvm = empty_nvm(alloc, config.flash)?;
        let config = config.clone()?;
        Ok(State {
            config,
            pools,
            clock: 0,
            calls: 0,
            replies: Replies::new(alloc),
            nvm,
            notes,
        })
    }
}
