// Whether a worker that takes now finds something to do.
ghost use Rattle.std.specs.Prelude.{◌≡◌, is_some, IfOk};
ghost use Rattle.hc_machine.specs.Nvm.{next_delete as delete_step, next_put as put_step, next_fill as fill_step};
ghost use Rattle.hc_machine.specs.Takes.{writer_take as writer_step, filler_take as filler_step};
ghost use Rattle.hc_nvm.specs.Seen.{finds_work};
ghost use Rattle.hc_nvm.specs.Starting.{KeepsRoom};

use crate::nvm::Nvm;
use std::alloc::{AllocError, Allocator};

impl<A: Allocator + Clone + Copy> Nvm<A> {
    /// Whether the writer finds something to do, if it takes now. Nothing changes. Refused only when out of memory.
    pub fn writer_has_work(&mut self) -> Result<bool, AllocError>
        ensures same { self.new.nvm ≡ self.old.nvm }
        ensures rooms { KeepsRoom self.old self.new }
        ensures work { IfOk result (λ has. has ≡ finds_work (writer_step self.old.nvm).take) }
    {
        if self.pair.has_flush() {
            return Ok(true);
        }
        if self.has_delete()? {
            return Ok(true);
        }
        self.has_put()
    }

    /// Whether the filler finds something to do, if it takes now. Nothing changes. Refused only when out of memory.
    pub fn filler_has_work(&mut self) -> Result<bool, AllocError>
        ensures same { self.new.nvm ≡ self.old.nvm }
        ensures rooms { KeepsRoom self.old self.new }
        ensures work { IfOk result (λ has. has ≡ finds_work (filler_step self.old.nvm).take) }
    {
        match self.next_fill()? {
            Some(key) => {
                drop(key);
                Ok(true)
            }
            None => Ok(false),
        }
    }

    /// Whether a delete can be served.
    fn has_delete(&mut self) -> Result<bool, AllocError>
        ensures same { self.new.nvm ≡ self.old.nvm }
        ensures rooms { KeepsRoom self.old self.new }
        ensures there { IfOk result (λ there. there ≡ is_some (delete_step self.old.nvm)) }
    {
        match self.next_delete()? {
            Some(key) => {
                drop(key);
                Ok(true)
            }
            None => Ok(false),
        }
    }

    /// Whether a put can be served.
    fn has_put(&mut self) -> Result<bool, AllocError>
        ensures same { self.new.nvm ≡ self.old.nvm }
        ensures rooms { KeepsRoom self.old self.new }
        ensures there { IfOk result (λ there. there ≡ is_some (put_step self.old.nvm)) }
    {
        match self.next_put()? {
            Some(entry) => {
                drop(entry);
                Ok(true)
            }
            None => Ok(false),
        }
    }
}
