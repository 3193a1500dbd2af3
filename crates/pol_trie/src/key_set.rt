//! The keys of one direction and identity.
ghost use Rattle.std.specs.Prelude.{◌≡◌, ◌+◌, ◌*◌, ◌≤◌, None, Some, IfOk, OnOk, OnErr, IsTrue, IsFalse};
ghost use Rattle.std.specs.Option.{option_or};
ghost use Rattle.pol_ports.specs.declared.PortPrefix.{PortPrefix as ThePrefix};
ghost use Rattle.pol_mapkey.specs.declared.KeyProto.{KeyProto as TheKeyProto};
ghost use Rattle.pol_mapkey.specs.KeyProto.{key_proto};

use crate::halves::first_port;
use crate::ports::PortTrie;
use pol_data::{Memory, Steps};
use pol_mapkey::{KeyProto, Kind, MapKey};
use pol_ports::Proto;
use std::alloc::Global;
use std::sync::ledger::Ledger;

/// The kind of the key for every protocol, if there is one, and the kinds of port prefixes for each protocol.
#[derive(Drop)]
pub(crate) struct KeySet {
    alloc: Global,
    every: Option<Kind>,
    tcp: PortTrie,
    udp: PortTrie,
    sctp: PortTrie,
}

impl KeySet {
    ghost use Rattle.pol_trie.specs.PortMap.{Decides};
    ghost use Rattle.pol_trie.specs.KeySet.{kind_of, key_count, Covering, HasKind};

    /// No keys. It takes no memory yet.
    pub(crate) fn new(alloc: Global) -> KeySet
        ensures { (proto : TheKeyProto) (port : ThePrefix) → kind_of result proto port ≡ None }
    {
        KeySet {
            alloc,
            every: None,
            tcp: PortTrie::new(alloc),
            udp: PortTrie::new(alloc),
            sctp: PortTrie::new(alloc),
        }
    }

    /// The kind of a key.
    pub(crate) fn get(&self, key: &MapKey) -> Option<Kind>
        ensures { result ≡ kind_of self.now key.now.proto key.now.port }
    {
        match key.proto {
            KeyProto::Every => {
                let _ = first_port(&key.port);
                self.every
            }
            KeyProto::Tcp => self.tcp.get(&key.port),
            KeyProto::Udp => self.udp.get(&key.port),
            KeyProto::Sctp => self.sctp.get(&key.port),
        }
    }

    /// Gives a key this kind. Gives the one that it had. The one error is want of memory, where the key has no kind yet, and
    /// then all is as before.
    pub(crate) fn set(&mut self, key: &MapKey, kind: Kind) -> Result<Option<Kind>, Memory>
        ensures ok { OnOk result (HasKind self.old self.new key.now.proto key.now.port (Some kind)) }
        ensures had { IfOk result (λ had. had ≡ kind_of self.old key.now.proto key.now.port) }
        ensures err { OnErr result (self.new ≡ self.old) }
        ensures absent { OnErr result (kind_of self.old key.now.proto key.now.port ≡ None) }
    {
        match key.proto {
            KeyProto::Every => {
                let _ = first_port(&key.port);
                let had = self.every;
                self.every = Some(kind);
                Ok(had)
            }
            KeyProto::Tcp => Ok(self.tcp.set(key.port, kind)?),
            KeyProto::Udp => Ok(self.udp.set(key.port, kind)?),
            KeyProto::Sctp => Ok(self.sctp.set(key.port, kind)?),
        }
    }

    /// Takes a key out. It takes no memory.
    pub(crate) fn clear(&mut self, key: &MapKey)
        ensures { HasKind self.old self.new key.now.proto key.now.port None }
    {
        match key.proto {
            KeyProto::Every => {
                let _ = first_port(&key.port);
                self.every = None;
            }
            KeyProto::Tcp => self.tcp.clear(&key.port),
            KeyProto::Udp => self.udp.clear(&key.port),
            KeyProto::Sctp => self.sctp.clear(&key.port),
        }
    }

    /// Whether the trie of the protocol has room for far more nodes than are in use.
    pub(crate) fn is_roomy(&self, proto: KeyProto) -> bool {
        match proto {
            KeyProto::Every => false,
            KeyProto::Tcp => self.tcp.is_roomy(),
            KeyProto::Udp => self.udp.is_roomy(),
            KeyProto::Sctp => self.sctp.is_roomy(),
        }
    }

    /// Moves the nodes of the protocol's trie to room for them alone, where it has far more. The one error is want of memory.
    pub(crate) fn give_back(&mut self, proto: KeyProto) -> Result<(), Memory>
        ensures { self.new ≡ self.old }
    {
        match proto {
            KeyProto::Every => Ok(()),
            KeyProto::Tcp => self.tcp.give_back(self.alloc),
            KeyProto::Udp => self.udp.give_back(self.alloc),
            KeyProto::Sctp => self.sctp.give_back(self.alloc),
        }
    }

    /// The kind of the longest key that covers a packet. The key for every protocol is the shortest, and a step, as each
    /// node that is visited.
    pub(crate) fn longest<L: Ledger>(
        &self,
        proto: Proto,
        port: u16,
        steps: &mut Steps<L>,
    ) -> Option<Kind>
        ensures kind { Covering self.now proto port result }
        ensures forward { steps.old ≤ steps.new }
        ensures cost { steps.new ≤ steps.old + 18 }
    {
        steps.tick();
        let own = match proto {
            Proto::Tcp => self.tcp.longest(port, steps),
            Proto::Udp => self.udp.longest(port, steps),
            Proto::Sctp => self.sctp.longest(port, steps),
        };
        own.or(self.every)
    }

    /// How many nodes are in use, with the one for every protocol.
    pub(crate) fn nodes(&self) -> u64
        ensures least { key_count self.now ≤ result }
        ensures most { result ≤ 2 * key_count self.now }
    {
        let every = u64::from(self.every.is_some());
        every
            + u64::from(self.tcp.nodes())
            + u64::from(self.udp.nodes())
            + u64::from(self.sctp.nodes())
    }

    /// Whether there is no key.
    pub(crate) fn is_empty(&self) -> bool
        ensures empty { IsTrue result → (proto : TheKeyProto) (port : ThePrefix) → kind_of self.now proto port ≡ None }
        ensures some { IsFalse result → 1 ≤ key_count self.now }
    {
        self.every.is_none() && self.tcp.is_empty() && self.udp.is_empty() && self.sctp.is_empty()
    }
}

/// The same keys once more. The one error is want of memory.
impl Clone for KeySet {
    ghost is_clone = { λ keys copy. copy ≡ keys };

    fn clone(&self) -> Result<KeySet, Memory> {
        Ok(KeySet {
            alloc: self.alloc,
            every: self.every,
            tcp: self.tcp.copy(self.alloc)?,
            udp: self.udp.copy(self.alloc)?,
            sctp: self.sctp.copy(self.alloc)?,
        })
    }
}
