//! The call that gives the job another configuration.
ghost use Rattle.std.specs.Prelude.{◌≡◌, ◌≤◌, ◌+◌, ◌++◌, length, map, vec_capacity, vec_len};
ghost use Rattle.ckpt_ids.specs.declared.call.Call.TheVariants as call;
ghost use Rattle.ckpt_core.specs.Inside.Parts.{Answers, AreSound, Drops, IsAccepted, state_of};
ghost use Rattle.ckpt_core.specs.Inside.Settings.{oldest, past, without_oldest};
ghost use Rattle.ckpt_model.specs.Steps.{dropped_by};

use crate::parts::Parts;
use ckpt_ids::{Config, Reply};

impl Parts {
    /// The job has this configuration from now on. Takes no memory.
    ///
    /// Conditions: the parts are sound, and the call is accepted.
    #[inline(never)]
    pub(crate) fn configure(&mut self, now: u64, config: &Config) -> Reply
        requires sound { AreSound self.old }
        requires accepted { IsAccepted self.old (call.Configure now config.now) }
        ensures { Answers self.old self.new (call.Configure now config.now) result }
    {
        let retained = config.retained();
        let (dropped, released) = self.drop_past(retained);
        let moment = self.clock.read(now);
        self.clock.see(now);
        self.clock.configured(config, moment);
        self.failures.tolerate(config.tolerable());
        self.store.retain(retained);
        self.opened.config = *config;
        Reply::Configured { dropped, released }
    }

    /// Drops the completed checkpoints past this number. Returns how many they were, and how many
    /// files were released. Takes no memory.
    ///
    /// Conditions: the parts are sound, and the number is above 0.
    fn drop_past(&mut self, retained: u32) -> (u32, u64)
        requires sound { AreSound self.old }
        requires some { 1 ≤ retained }
        ensures drops { Drops self.old self.new (past retained (state_of self.old)) result.1 }
        ensures dropped { result.0 ≡ dropped_by (state_of self.old) (past retained (state_of self.old)) }
        ensures few { length self.new.store.checkpoints ≤ retained }
    {
        self.recall_groups();
        self.note_and_pop_past(retained);
        let dropped = self.ended.len() as u32;
        (dropped, self.hand_out())
    }

    /// Takes the oldest completed checkpoints out of the store until this many are left, and notes
    /// their numbers.
    ///
    /// Condition: there is room for their numbers.
    fn note_and_pop_past(&mut self, retained: u32)
        requires room { vec_len self.old.ended + length self.old.store.checkpoints ≤ vec_capacity self.old.ended }
        ensures parts { self.new ≡ without_oldest self.old retained self.new }
        ensures noted { self.new.ended.items ≡ self.old.ended.items ++ map (λ r. r.id) (oldest retained self.old.store.checkpoints) }
        ensures capacity { vec_capacity self.new.ended ≡ vec_capacity self.old.ended }
    {
        while self.store.checkpoints() > retained {
            if let Some(id) = self.store.pop_lowest() {
                self.ended.push_reserved(id);
            }
        }
    }
}
