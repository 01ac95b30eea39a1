//! The store.
ghost use Rattle.std.specs.Prelude.{◌≡◌, ◌↔◌, ℕ, Err, None, Option, Some, IfOk, OnOk, OnErr, IsErr};
ghost use Rattle.ports.specs.Crash.{Since, moment_of};
ghost use Rattle.ports.specs.Outside.{BothTell, WhereTold, Cause};
ghost use Rattle.slotstore.specs.Crashing.{Breaks, LoadsAs, LoadsAsOr, LoadsOnly, settled};
ghost use Rattle.slotstore.specs.Loads.{HasNoBody, items_of};
ghost use Rattle.slotstore.specs.Runs.{Does, begun, loads_so, point, saves_so};
ghost use Rattle.slotstore.specs.Store.{loaded, after_save, ChangesTarget};

use crate::body::{LoadError, read_body};
use crate::newer::choose_unless;
use crate::replacing::{next_save, next_save_unless, replace};
use crate::target::Target;
use ports::{Failed, Slots};
use std::alloc::Global;

/// Two slots as a store of one body, which a crash at any moment leaves whole: the body last saved, or one handed in since.
///
/// It keeps where the next save goes; or, after a save that failed, that what reads give need not be what a crash leaves. It is
/// used on the slots that it was begun on, which nothing else writes. [`nothing_is_lost`](crate::nothing_is_lost) is the law of
/// its calls.
#[derive(Debug, Drop)]
pub struct Store {
    next: Option<Target>,
}

impl Store {
    ghost use Rattle.slotstore.specs.Standing.{StandsFor};

    /// Syncs both slots, so that from then on every crash leaves what they load now, and reads where the first save goes. A
    /// crash at any moment of it leaves what one at its start could have left. Fails only where a call of the slots failed.
    pub fn begin<L: Slots>(slots: &mut L) -> Result<Store, Failed>
        ensures stands { IfOk result (λ store. WhereTold (StandsFor store) (L.told slots.new)) }
        ensures found { OnOk result (BothTell (λ t u. loaded u ≡ loaded t) (L.told slots.old) (L.told slots.new)) }
        ensures settled { OnOk result (BothTell (λ t u. u ≡ settled t) (L.told slots.old) (L.told slots.new)) }
        ensures kept { OnOk result (WhereTold (λ u. LoadsOnly (loaded u) u) (L.told slots.new)) }
        ensures failed { OnErr result (BothTell (Breaks (λ t u. u ≡ t)) (L.told slots.old) (L.told slots.new)) }
        ensures crash { BothTell (λ t u. Since (LoadsAs (moment_of t)) (L.past slots.old) (L.past slots.new) u) (L.told slots.old) (L.told slots.new) }
        ensures does { BothTell (λ t u. Does (begun result (loaded t)) (point t (L.past slots.old)) (point u (L.past slots.new))) (L.told slots.old) (L.told slots.new) }
        ensures cause { Cause (IsErr result) (L.faults slots.old) (L.faults slots.new) }
    {
        let next = next_save(slots)?;
        Ok(Store { next: Some(next) })
    }

    /// The body of the newer slot; none exactly where no slot is whole. It only reads, so that every crash leaves what it could
    /// have left before. Takes no more memory than a constant times what the slot holds, whatever length it says.
    ///
    /// # Errors
    /// `StoreFault` only where a call of the slots failed; `NoMemory`.
    pub fn load<L: Slots>(&self, alloc: Global, slots: &mut L) -> Result<Option<Vec<u8>>, LoadError>
        requires { WhereTold (StandsFor self.now) (L.told slots.old) }
        ensures loads { IfOk result (λ body. WhereTold (λ t. items_of body ≡ loaded t) (L.told slots.old)) }
        ensures none { IfOk result (λ body. WhereTold (λ t. (body ≡ None) ↔ HasNoBody t) (L.told slots.old)) }
        ensures told { L.told slots.new ≡ L.told slots.old }
        ensures past { L.past slots.new ≡ L.past slots.old }
        ensures does { BothTell (λ t u. Does (loads_so result) (point t (L.past slots.old)) (point u (L.past slots.new))) (L.told slots.old) (L.told slots.new) }
        ensures cause { Cause (result ≡ Err LoadError.StoreFault) (L.faults slots.old) (L.faults slots.new) }
    {
        let next = choose_unless(slots, self.next)?;
        read_body(alloc, slots, 1 - next.slot)
    }

    /// Saves `body` to the slot that is not the newer one. At `Ok` every crash leaves it, until the next save begins. A crash
    /// at any moment of it leaves what one at its start could have left, or `body`. After a save that failed it first syncs
    /// both slots and reads anew. O(length of the body), with one pass over it and no copy, and at most five syncs. Fails
    /// only where a call of the slots failed; the store can be used on.
    pub fn save<L: Slots>(&mut self, slots: &mut L, body: &[u8]) -> Result<(), Failed>
        requires { WhereTold (StandsFor self.old) (L.told slots.old) }
        ensures stands { WhereTold (StandsFor self.new) (L.told slots.new) }
        ensures loads { OnOk result (WhereTold (λ u. loaded u ≡ Some body.now) (L.told slots.new)) }
        ensures written { OnOk result (BothTell (λ t u. u ≡ after_save body.now (settled t)) (L.told slots.old) (L.told slots.new)) }
        ensures kept { OnOk result (WhereTold (LoadsOnly (Some body.now)) (L.told slots.new)) }
        ensures failed { OnErr result (BothTell (Breaks ChangesTarget) (L.told slots.old) (L.told slots.new)) }
        ensures crash { BothTell (λ t u. Since (LoadsAsOr (moment_of t) body.now) (L.past slots.old) (L.past slots.new) u) (L.told slots.old) (L.told slots.new) }
        ensures does { BothTell (λ t u. Does (saves_so result body.now) (point t (L.past slots.old)) (point u (L.past slots.new))) (L.told slots.old) (L.told slots.new) }
        ensures cause { Cause (IsErr result) (L.faults slots.old) (L.faults slots.new) }
    {
        let next = next_save_unless(slots, self.next.take())?;
        replace(slots, next, body)?;
        self.next = Some(next.after());
        Ok(())
    }
}
