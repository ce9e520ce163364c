// An image is taken, frame after frame, and made a cache's parts.
ghost use Rattle.std.specs.Prelude.{◌≡◌, ◌≤◌, ◌&&◌, not, None, Some, Ok, Err, true, false, IfOk, IfErr, OnOk, OnErr};
ghost use Rattle.std.specs.Hash.DefaultHasher.{initial};
ghost use Rattle.hc_types.specs.Limits.{first_wrong};
ghost use Rattle.hc_invariant.specs.Structure.{Structured};
ghost use Rattle.hc_image_text.specs.declared.frame.Kind.TheVariants as kinds;
ghost use Rattle.hc_image_text.specs.Images.{reading, next, behind};
ghost use Rattle.hc_image.specs.Loading.{asked_of, is_asked, nothing_yet, headed, filled, fill, filling_of, step_of, done_of, taken, read_as, finished, recorded_in};
ghost use Rattle.hc_image.specs.Refusing.{IsWhy, follow, made};
ghost use Rattle.hc_image.specs.declared.refusal.Refusal.TheVariants.{NotWhole};

use crate::carried::Carried;
use crate::filling::Filling;
use crate::gathered::Gathered;
use crate::refusal::{Refusal, refusal_of};
use hc_image_text::{Head, ImageReader, Kind, Shard, check_age, head_in};
use hc_state::Parts;
use hc_types::Config;
use std::alloc::{Allocator, Global};
use std::marker::Model;

/// Which image is asked for.
#[derive(Drop)]
pub struct Asked<A: Allocator = Global> {
    /// Of which shard.
    pub shard: Shard,
    /// Of a cache with this configuration.
    pub config: Config<A>,
    /// With this seal, which the flash has.
    pub seal: [u8; 16],
    /// The second that it is, by the clock by which the cache was closed.
    pub second: u64,
    /// How many seconds ago it may have been closed.
    pub at_most: u64,
}

/// What an image is the image of.
#[derive(Drop)]
pub struct Loaded<A: Allocator = Global> {
    pub parts: Parts<A>,
    pub carried: Carried<A>,
}

/// Takes an image, frame after frame, and makes a cache's parts of it. An image is known to be whole, and not changed, only where its
/// last frame came: so nothing of it goes on before that. Contracts see which image is asked for, what was read, and what was made of
/// it so far.
pub struct Loader<A: Allocator = Global> {
    alloc: A,
    asked: Asked<A>,
    reader: ImageReader,
    gathered: Option<Gathered<A>>,
    filling: Option<Filling<A>>,
    // a frame was refused
    broken: bool,
}

// (written out, so that who drops it calls this one function)
impl<A: Allocator> Drop for Loader<A> {
    fn drop(self) {
        let Loader {
            alloc: _,
            asked: _,
            reader: _,
            gathered: _,
            filling: _,
            broken: _,
        } = self;
    }
}

impl<A: Allocator> Model for Loader<A> {
    ghost use Rattle.std.specs.Prelude.{◌≡◌, None};
    ghost use Rattle.hc_types.specs.Limits.{first_wrong};
    ghost use Rattle.hc_image.specs.Loading.{Loading, asked_of};

    ghost Value = { Loading };

    ghost view = { λ l. record { asked = asked_of l.asked; reading = l.reader; stage = record { gathered = l.gathered; filling = l.filling }; broken = l.broken } };

    ghost invariant = { λ l. first_wrong l.asked.config ≡ None };
}

/// Whether the head is that of the image that was asked for.
fn check_head<A: Allocator>(asked: &Asked<A>, head: &Head) -> Result<(), Refusal>
    ensures ok { OnOk result (is_asked (asked_of asked.now) head.now ≡ Ok tt) }
    ensures why { IfErr result (λ why. is_asked (asked_of asked.now) head.now ≡ Err why) }
{
    if head.seal != asked.seal {
        return Err(Refusal::OtherSeal);
    }
    match check_age(head.closed, asked.second, asked.at_most) {
        Ok(()) => Ok(()),
        Err(why) => Err(refusal_of(why)),
    }
}

/// The number of bits by which an index is cut.
fn bits_of<A: Allocator>(config: &Config<A>) -> u64
    requires { first_wrong config.now ≡ None }
    ensures { result ≤ 64 }
{
    match config.flash {
        Some(flash) => flash.bits,
        None => 64,
    }
}

/// The head came.
fn begin<A: Allocator + Clone + Copy>(
    alloc: A,
    asked: &Asked<A>,
    body: &[u8],
) -> Result<Gathered<A>, Refusal>
    requires { first_wrong asked.now.config ≡ None }
    ensures ok { IfOk result (λ g. headed (asked_of asked.now) body.now ≡ Ok g) }
    ensures why { IfErr result (IsWhy (headed (asked_of asked.now) body.now)) }
{
    let head = match head_in(alloc, asked.shard, &asked.config, body) {
        Ok(head) => head,
        Err(why) => return Err(refusal_of(why)),
    };
    match check_head(asked, &head) {
        Ok(()) => match Gathered::new(alloc, bits_of(&asked.config)) {
            Ok(gathered) => Ok(gathered),
            Err(_) => Err(Refusal::NoMemory),
        },
        Err(why) => Err(why),
    }
}

/// The cache of what was gathered.
fn fill<A: Allocator + Clone + Copy>(
    alloc: A,
    asked: &Asked<A>,
    gathered: Gathered<A>,
) -> Result<Filling<A>, Refusal>
    requires { first_wrong asked.now.config ≡ None }
    ensures ok { IfOk result (λ f. fill asked.now.config gathered ≡ Ok f) }
    ensures why { IfErr result (IsWhy (fill asked.now.config gathered)) }
{
    match asked.config.clone() {
        Ok(config) => Filling::new(alloc, config, gathered),
        Err(_) => Err(Refusal::NoMemory),
    }
}

/// The cache of what was gathered, with its first item.
fn fill_first<A: Allocator + Clone + Copy>(
    alloc: A,
    asked: &Asked<A>,
    gathered: Gathered<A>,
    body: &[u8],
) -> Result<Filling<A>, Refusal>
    requires { first_wrong asked.now.config ≡ None }
    ensures ok { IfOk result (λ f. follow (filled kinds.Item body.now) (fill asked.now.config gathered) ≡ Ok f) }
    ensures why { IfErr result (IsWhy (follow (filled kinds.Item body.now) (fill asked.now.config gathered))) }
{
    let mut filling = match fill(alloc, asked, gathered) {
        Ok(filling) => filling,
        Err(why) => return Err(why),
    };
    match filling.take_item(alloc, body) {
        Ok(()) => Ok(filling),
        Err(why) => Err(why),
    }
}

/// The head came, which is the first record.
#[tactic(auto, using(crate::proofs::Refusing::unmade))]
fn take_head<A: Allocator + Clone + Copy>(
    alloc: A,
    asked: &Asked<A>,
    gathered: &mut Option<Gathered<A>>,
    body: &[u8],
) -> Result<(), Refusal>
    requires { first_wrong asked.now.config ≡ None }
    ensures ok { OnOk result (step_of (asked_of asked.now) kinds.Head body.now gathered.old None ≡ Ok (record { gathered = gathered.new; filling = None })) }
    ensures why { IfErr result (IsWhy (step_of (asked_of asked.now) kinds.Head body.now gathered.old None)) }
{
    match gathered {
        Some(_) => Err(Refusal::NotWhole),
        None => match begin(alloc, asked, body) {
            Ok(begun) => {
                *gathered = Some(begun);
                Ok(())
            }
            Err(why) => Err(why),
        },
    }
}

/// The first item came.
#[tactic(auto, using(crate::proofs::Refusing::unmade))]
fn take_first<A: Allocator + Clone + Copy>(
    alloc: A,
    asked: &Asked<A>,
    gathered: &mut Option<Gathered<A>>,
    filling: &mut Option<Filling<A>>,
    body: &[u8],
) -> Result<(), Refusal>
    requires right { first_wrong asked.now.config ≡ None }
    requires first { filling.old ≡ None }
    ensures ok { OnOk result (step_of (asked_of asked.now) kinds.Item body.now gathered.old None ≡ Ok (record { gathered = gathered.new; filling = filling.new })) }
    ensures why { IfErr result (IsWhy (step_of (asked_of asked.now) kinds.Item body.now gathered.old None)) }
{
    match gathered.take() {
        Some(all) => match fill_first(alloc, asked, all, body) {
            Ok(cache) => {
                *filling = Some(cache);
                Ok(())
            }
            Err(why) => Err(why),
        },
        None => Err(Refusal::NotWhole),
    }
}

/// A record came that stands before the items.
fn take_before<A: Allocator + Clone + Copy>(
    alloc: A,
    gathered: &mut Option<Gathered<A>>,
    kind: Kind,
    body: &[u8],
) -> Result<(), Refusal>
    ensures ok { OnOk result (made Some (recorded_in gathered.old kind body.now) ≡ Ok gathered.new) }
    ensures why { IfErr result (IsWhy (recorded_in gathered.old kind body.now)) }
{
    match gathered {
        Some(all) => all.take(alloc, kind, body),
        None => Err(Refusal::NotWhole),
    }
}

/// A record came, and no item before.
#[tactic(auto, using(crate::proofs::Refusing::unmade, crate::proofs::Refusing::still_gathered))]
fn take_early<A: Allocator + Clone + Copy>(
    alloc: A,
    asked: &Asked<A>,
    gathered: &mut Option<Gathered<A>>,
    filling: &mut Option<Filling<A>>,
    kind: Kind,
    body: &[u8],
) -> Result<(), Refusal>
    requires right { first_wrong asked.now.config ≡ None }
    requires first { filling.old ≡ None }
    ensures ok { OnOk result (step_of (asked_of asked.now) kind body.now gathered.old None ≡ Ok (record { gathered = gathered.new; filling = filling.new })) }
    ensures why { IfErr result (IsWhy (step_of (asked_of asked.now) kind body.now gathered.old None)) }
{
    match kind {
        Kind::Head => take_head(alloc, asked, gathered, body),
        Kind::Item => take_first(alloc, asked, gathered, filling, body),
        _ => take_before(alloc, gathered, kind, body),
    }
}

/// A record came.
#[tactic(auto, using(crate::proofs::Refusing::unmade))]
fn take_record<A: Allocator + Clone + Copy>(
    alloc: A,
    asked: &Asked<A>,
    gathered: &mut Option<Gathered<A>>,
    filling: &mut Option<Filling<A>>,
    kind: Kind,
    body: &[u8],
) -> Result<(), Refusal>
    requires { first_wrong asked.now.config ≡ None }
    ensures ok { OnOk result (step_of (asked_of asked.now) kind body.now gathered.old filling.old ≡ Ok (record { gathered = gathered.new; filling = filling.new })) }
    ensures why { IfErr result (IsWhy (step_of (asked_of asked.now) kind body.now gathered.old filling.old)) }
{
    match filling {
        Some(cache) => cache.take(alloc, kind, body),
        None => take_early(alloc, asked, gathered, filling, kind, body),
    }
}

/// The cache of all that came.
fn finish<A: Allocator + Clone + Copy>(
    alloc: A,
    asked: &Asked<A>,
    gathered: Option<Gathered<A>>,
    filling: Option<Filling<A>>,
) -> Result<Filling<A>, Refusal>
    requires { first_wrong asked.now.config ≡ None }
    ensures ok { IfOk result (λ f. done_of (asked_of asked.now) gathered filling ≡ Ok f) }
    ensures why { IfErr result (IsWhy (done_of (asked_of asked.now) gathered filling)) }
{
    if let Some(cache) = filling {
        return Ok(cache);
    }
    match gathered {
        Some(all) => fill(alloc, asked, all),
        None => Err(Refusal::NotWhole),
    }
}

/// Whether no frame was refused, and the image ended.
fn check_end(broken: bool, reader: &ImageReader) -> Result<(), Refusal>
    ensures ok { OnOk result ((reader.now.ended ≡ true) × (broken ≡ false)) }
    ensures why { IfErr result (λ why. (why ≡ NotWhole) × ((not broken && reader.now.ended) ≡ false)) }
{
    if broken {
        return Err(Refusal::NotWhole);
    }
    match reader.end() {
        Ok(()) => Ok(()),
        Err(_) => Err(Refusal::NotWhole),
    }
}

/// All that came, as the parts of a cache.
fn parts_of<A: Allocator + Clone + Copy>(
    alloc: A,
    asked: &Asked<A>,
    gathered: Option<Gathered<A>>,
    filling: Option<Filling<A>>,
) -> Result<Loaded<A>, Refusal>
    requires { first_wrong asked.now.config ≡ None }
    ensures parts { IfOk result (λ l. done_of (asked_of asked.now) gathered filling ≡ Ok (filling_of l.carried l.parts)) }
    ensures why { IfErr result (IsWhy (done_of (asked_of asked.now) gathered filling)) }
    ensures structured { IfOk result (λ l. Structured l.parts) }
{
    match finish(alloc, asked, gathered, filling) {
        Ok(filling) => {
            let (parts, carried) = filling.into_parts();
            Ok(Loaded { parts, carried })
        }
        Err(why) => Err(why),
    }
}

impl<A: Allocator + Clone + Copy> Loader<A> {
    /// Nothing came of the image that is asked for. Its configuration's numbers are within their limits.
    #[must_use]
    pub fn new(alloc: A, asked: Asked<A>) -> Loader<A>
        requires { first_wrong asked.config ≡ None }
        ensures { result ≡ record { asked = asked_of asked; reading = reading initial; stage = nothing_yet; broken = false } }
    {
        Loader {
            alloc,
            asked,
            reader: ImageReader::new(),
            gathered: None,
            filling: None,
            broken: false,
        }
    }

    /// The next frame came, which is all of these bytes. Refused where it can't be the next one of the image that is asked for, and
    /// when out of memory: then each frame behind it is refused too.
    pub fn take(&mut self, frame: &[u8]) -> Result<(), Refusal>
        ensures asked { self.new.asked ≡ self.old.asked }
        ensures stage { OnOk result (taken self.old frame.now ≡ Ok self.new.stage) }
        ensures reading { OnOk result (self.new.reading ≡ behind self.old.reading (next self.old.reading frame.now)) }
        ensures whole { OnOk result (self.new.broken ≡ false) }
        ensures why { IfErr result (IsWhy (taken self.old frame.now)) }
        ensures broken { OnErr result (self.new.broken ≡ true) }
    {
        if self.broken {
            return Err(Refusal::NotWhole);
        }
        match self.read(frame) {
            Ok(()) => Ok(()),
            Err(why) => {
                self.broken = true;
                Err(why)
            }
        }
    }

    fn read(&mut self, frame: &[u8]) -> Result<(), Refusal>
        ensures asked { self.new.asked ≡ self.old.asked }
        ensures stage { OnOk result (read_as self.old.asked self.old.stage (next self.old.reading frame.now) ≡ Ok self.new.stage) }
        ensures reading { OnOk result (self.new.reading ≡ behind self.old.reading (next self.old.reading frame.now)) }
        ensures why { IfErr result (IsWhy (read_as self.old.asked self.old.stage (next self.old.reading frame.now))) }
        ensures same { self.new.broken ≡ self.old.broken }
    {
        match self.reader.read(frame) {
            Ok(Some((kind, body, rest))) => {
                if !rest.is_empty() {
                    return Err(Refusal::NotWhole);
                }
                take_record(
                    self.alloc,
                    &self.asked,
                    &mut self.gathered,
                    &mut self.filling,
                    kind,
                    body,
                )
            }
            Ok(None) => Ok(()),
            Err(why) => Err(refusal_of(why)),
        }
    }

    /// Nothing comes any more: the parts of which this is the image, and what it carries. Refused where the image didn't end
    /// (`NotWhole`) or a frame of it was refused, where what came before the items can't be a cache's (`Unfit`), and when out of
    /// memory.
    pub fn finish(self) -> Result<Loaded<A>, Refusal>
        ensures parts { IfOk result (λ loaded. finished self ≡ Ok (filling_of loaded.carried loaded.parts)) }
        ensures why { IfErr result (IsWhy (finished self)) }
        ensures structured { IfOk result (λ loaded. Structured loaded.parts) }
    {
        let Loader {
            alloc,
            asked,
            reader,
            gathered,
            filling,
            broken,
        } = self;
        match check_end(broken, &reader) {
            Ok(()) => parts_of(alloc, &asked, gathered, filling),
            Err(why) => Err(why),
        }
    }
}
