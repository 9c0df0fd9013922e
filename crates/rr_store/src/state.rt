//! The state of the store.

ghost use Rattle.std.specs.Prelude.{◌≡◌, ◌≢◌, ◌+◌, ◌≤◌, ◌<◌, ◌^◌, ◌++◌, ◌∷◌, [], ℕ, length, is_ok, if◌then◌else◌, Some, None, IfSome, IfOk, IfErr};
ghost use Rattle.rr_base.specs.Replay.{Replays};
ghost use Rattle.rr_base.specs.Store.{StoreStep, empty_store};
ghost use Rattle.rr_base.specs.declared.name.Sym.{Sym};
ghost use Rattle.rr_base.specs.declared.event.StoreEvent.TheVariants.{Published as PublishedEvent};
ghost use Rattle.rr_space.specs.Tables.{Whole};
ghost use Rattle.rr_store.specs.Stores.{AreNumbered, HasEvent, IsPublic, constant_of, new_store, shape_of};
ghost use Rattle.rr_store.specs.Answers.{GetRefusal, IsSet, MayGet, MaySet, PublishRefusal, SetRefusal, numbered_next, told_of_value};

use crate::constant::{ConstValue, constant_at, reserve_for, set_reserved};
use rr_base::{Fault, RactorNo, StoreEvent, Sym};
use rr_space::{Cluster, Published};
use std::alloc::Global;
use std::marker::Model;

/// The clusters that were published, by their numbers from 0, what each constant was last set to, and what happened.
#[derive(Drop)]
pub struct StoreState {
    clusters: Vec<&'static Cluster>,
    // By the number of the constant's name.
    constants: Vec<Option<ConstValue>>,
    history: Vec<StoreEvent<Sym>>,
    limit: u32,
}

impl Model for StoreState {
    ghost use Rattle.std.specs.Prelude.{map};
    ghost use Rattle.rr_store.specs.Stores.{Store, Kept};

    ghost Value = { Store };

    ghost view = { λ s. record { clusters = map (λ c. c.now) s.clusters.items; constants = s.constants.items; history = s.history.items; limit = s.limit } };

    ghost invariant = { λ s. Kept (record { clusters = map (λ c. c.now) s.clusters.items; constants = s.constants.items; history = s.history.items; limit = s.limit }) };
}

// What setting a constant leaves in the history; nothing where this ractor may not set it so.
fn event_of(who: RactorNo, name: Sym, value: ConstValue) -> Option<StoreEvent<Sym>>
    ensures event { IfSome result (λ event. (event ≡ told_of_value value name who) × MaySet who value) }
    ensures none { result ≡ None → ¬ MaySet who value }
{
    match value {
        ConstValue::Shareable(_) => Some(StoreEvent::Shared { name, who }),
        ConstValue::Own if who.0 == 1 => Some(StoreEvent::Own { name, who }),
        ConstValue::Own => None,
    }
}

impl StoreState {
    /// A store without clusters and constants, whose history may have `limit` events. Takes no memory.
    pub fn new(alloc: Global, limit: u32) -> StoreState
        ensures { result ≡ new_store limit }
    {
        StoreState {
            clusters: Vec::new(alloc),
            constants: Vec::new(alloc),
            history: Vec::new(alloc),
            limit,
        }
    }

    /// Puts a cluster under the next number, for good, and answers the hold on it.
    ///
    /// The faults are found in this order. `HistoryFull`: there is no room for an event more. `Memory`: a growth was
    /// refused. Both hand back the very cluster and leave all as it was.
    pub fn publish(
        &mut self,
        alloc: Global,
        who: RactorNo,
        cluster: Cluster,
    ) -> Result<Published, (Fault, Cluster)>
        requires { length cluster.own < 2 ^ 32 }
        ensures published { IfOk result (λ p. (p.cluster.now ≡ numbered_next self.old cluster) × HasEvent self.old) }
        ensures clusters { self.new.clusters ≡ (if is_ok result then self.old.clusters ++ numbered_next self.old cluster ∷ [] else self.old.clusters) }
        ensures constants { self.new.constants ≡ self.old.constants }
        ensures limit { self.new.limit ≡ self.old.limit }
        ensures history { self.new.history ≡ (if is_ok result then self.old.history ++ PublishedEvent (length self.old.clusters) (length cluster.own) who ∷ [] else self.old.history) }
        ensures back { IfErr result (λ refusal. refusal.1 ≡ cluster) }
        ensures fault { IfErr result (λ refusal. PublishRefusal refusal.0 self.old) }
        ensures replays { Replays StoreStep empty_store self.new.history (shape_of self.new) }
    {
        if self.history.len() >= self.limit as usize {
            return Err((Fault::HistoryFull, cluster));
        }
        if self.history.reserve(1).is_err() || self.clusters.reserve(1).is_err() {
            return Err((Fault::Memory, cluster));
        }
        let number = self.clusters.len() as u32;
        let size = cluster.len() as u32;
        let cluster = match cluster.publish(alloc, number) {
            Ok(cluster) => cluster,
            Err(cluster) => return Err((Fault::Memory, cluster)),
        };
        self.clusters.push_reserved(cluster);
        self.history
            .push_reserved(StoreEvent::Published { number, size, who });
        Ok(Published { cluster })
    }

    /// Sets a constant. All other constants stay as they are.
    ///
    /// The faults are found in this order, and leave all as it was. `HistoryFull`: there is no room for an event more.
    /// `Memory`: a growth was refused. `NotShareable`: another than the main ractor set it to a value of its own.
    pub fn set_const(&mut self, who: RactorNo, name: Sym, value: ConstValue) -> Result<(), Fault>
        requires { IsPublic value }
        ensures set { IfOk result (λ _. IsSet self.old name value self.new × HasEvent self.old × MaySet who value) }
        ensures clusters { self.new.clusters ≡ self.old.clusters }
        ensures limit { self.new.limit ≡ self.old.limit }
        ensures history { self.new.history ≡ (if is_ok result then self.old.history ++ told_of_value value name who ∷ [] else self.old.history) }
        ensures refused { IfErr result (λ fault. (self.new ≡ self.old) × SetRefusal fault self.old who value) }
        ensures replays { Replays StoreStep empty_store self.new.history (shape_of self.new) }
    {
        if self.history.len() >= self.limit as usize {
            return Err(Fault::HistoryFull);
        }
        self.history.reserve(1)?;
        reserve_for(&mut self.constants, name)?;
        let Some(event) = event_of(who, name, value) else {
            return Err(Fault::NotShareable);
        };
        set_reserved(&mut self.constants, name, value);
        self.history.push_reserved(event);
        Ok(())
    }

    /// What a constant was last set to.
    ///
    /// The faults: `NotMain` where that is a value of the main ractor's own and another ractor asks, `Unknown` where it
    /// was never set. Takes no memory.
    pub fn get_const(&self, who: RactorNo, name: Sym) -> Result<ConstValue, Fault>
        ensures value { IfOk result (λ v. constant_of self.now name ≡ Some v) }
        ensures may { IfOk result (λ v. MayGet who v) }
        ensures public { IfOk result (λ v. IsPublic v) }
        ensures fault { IfErr result (λ fault. GetRefusal fault self.now who name) }
    {
        match constant_at(&self.constants, name) {
            None => Err(Fault::Unknown(name)),
            Some(ConstValue::Own) if who.0 != 1 => Err(Fault::NotMain),
            Some(value) => Ok(value),
        }
    }

    /// The number of clusters, which the next one has.
    pub fn count(&self) -> usize
        ensures { result ≡ length self.now.clusters }
    {
        self.clusters.len()
    }

    /// What happened so far.
    pub fn history(&self) -> &[StoreEvent<Sym>]
        ensures events { result.now ≡ self.now.history }
        ensures replays { Replays StoreStep empty_store self.now.history (shape_of self.now) }
        ensures numbered { AreNumbered self.now.clusters }
    {
        self.history.as_slice()
    }
}
