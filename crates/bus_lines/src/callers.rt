ghost use Rattle.std.specs.Prelude.{◌≡◌, [], Some, None, IfOk, if◌then◌else◌};
ghost use Rattle.rpc_session.specs.Sessions as sessions_spec;
ghost use Rattle.bus_clients.specs.Bus.{part_of, begun};
ghost use Rattle.plane_outside.specs.Supply as spec;

use bus_clients::ScriptBus;
use plane_io::Memory;
use plane_outside::Random;
use rpc_session::Sessions;
use std::alloc::Global;
use ubus_acl::Acl;

/// A random word that was taken from a source and not used yet, if there is one.
#[derive(Clone, Copy)]
pub struct SpareWord {
    pub word: Option<u64>,
}

impl SpareWord {
    /// The next random word. It stays the next one until it is used up.
    pub fn first<R: Random>(&mut self, random: &mut R) -> u64
        ensures first { spec.IsFirst (spec.supply_of self.old.word (R.words random.old)) result }
        ensures stays { spec.Uses (spec.supply_of self.old.word (R.words random.old)) []
            (spec.supply_of self.new.word (R.words random.new)) }
        ensures kept { self.new.word ≡ Some result }
    {
        match self.word {
            Some(word) => word,
            None => {
                let word = random.word();
                self.word = Some(word);
                word
            }
        }
    }

    /// The word is used up, where this holds.
    pub fn use_up(&mut self, is_used: bool)
        ensures { self.new.word ≡ (if is_used then None else self.old.word) }
    {
        if is_used {
            self.word = None;
        }
    }
}

/// Who calls methods: the sessions, the message bus with the clients of the script, and the random
/// word that is at hand for the next session.
#[derive(Drop)]
pub struct Callers {
    pub sessions: Sessions,
    pub bus: ScriptBus,
    pub spare: SpareWord,
}

impl Callers {
    /// The default session alone, a bus without clients, and no word.
    ///
    /// # Errors
    ///
    /// Want of memory.
    pub fn new(alloc: Global, acl: Acl) -> Result<Callers, Memory>
        ensures sessions { IfOk result (λ callers. callers.sessions ≡ sessions_spec.start) }
        ensures bus { IfOk result (λ callers. part_of callers.bus ≡ begun acl) }
        ensures spare { IfOk result (λ callers. callers.spare.word ≡ None) }
    {
        let sessions = Sessions::new(alloc)?;
        let bus = ScriptBus::new(alloc, acl)?;
        Ok(Callers {
            sessions,
            bus,
            spare: SpareWord { word: None },
        })
    }
}
