//! Sets of servers.
ghost use Rattle.std.specs.Prelude.{◌≡◌, ℕ, ◌<◌, ◌↔◌, [], IsTrue, IfOk, Contains};
ghost use Rattle.std.specs.List.Sorted.{IsStrictlyIncreasing};
ghost use Rattle.mf_places.specs.Servers.{IsIn, no_servers, with_server, set_of, servers_of};

use crate::Memory;
use mf_shape::MAX_SERVERS;
use std::alloc::Global;
use std::fmt;

/// A set of servers: bit s stands for server s. A server above 127 is in no set.
#[derive(Clone, Copy)]
pub struct Servers {
    pub bits: u128,
}

impl Servers {
    /// The set of no server.
    pub fn none() -> Servers
        ensures { result ≡ no_servers }
    {
        Servers { bits: 0 }
    }

    /// The set of these servers, which may stand in any order and more than once. Those above 127
    /// are left out.
    pub fn of(servers: &[u32]) -> Servers
        ensures value { result ≡ set_of servers.now }
        ensures members { (server : ℕ) → IsIn result server
            ↔ ((server < MAX_SERVERS) × Contains servers.now server) }
    {
        let mut set = Servers::none();
        for server in servers {
            set = set.with(*server);
        }
        set
    }

    /// Whether the server is in the set.
    pub fn has(self, server: u32) -> bool
        ensures { IsTrue result ↔ IsIn self server }
    {
        server < MAX_SERVERS && (self.bits >> server) & 1 == 1
    }

    /// Whether no server is in the set.
    pub fn is_empty(self) -> bool
        ensures { IsTrue result ↔ (servers_of self ≡ []) }
    {
        self.bits == 0
    }

    /// The servers of the set, ascending. The only error is want of memory.
    pub fn list(self, alloc: Global) -> Result<Vec<u32>, Memory>
        ensures value { IfOk result (λ servers. servers.items ≡ servers_of self) }
        ensures ascending { IfOk result (λ servers. IsStrictlyIncreasing servers.items) }
        ensures members { IfOk result (λ servers.
            (server : ℕ) → Contains servers.items server ↔ IsIn self server) }
        ensures back { IfOk result (λ servers. set_of servers.items ≡ self) }
    {
        let mut servers = Vec::with_capacity(alloc, self.bits.count_ones() as usize)?;
        for server in 0..MAX_SERVERS {
            if self.has(server) {
                servers.push(server)?;
            }
        }
        Ok(servers)
    }

    // The set with one server more.
    fn with(self, server: u32) -> Servers
        ensures { result ≡ with_server self server }
    {
        if server < MAX_SERVERS {
            Servers {
                bits: self.bits | 1 << server,
            }
        } else {
            self
        }
    }
}

/// The servers, ascending, each behind a space.
impl fmt::Display for Servers {
    ghost use Rattle.std.specs.Prelude.{Some};
    ghost use Rattle.mf_places.specs.Texts.{servers_text};

    ghost output = { λ set. Some (servers_text set) };

    fn fmt<W: fmt::Write>(&self, f: &mut fmt::Formatter<W>) -> fmt::Result {
        for server in 0..MAX_SERVERS {
            if self.has(server) {
                write!(f, " {server}")?;
            }
        }
        Ok(())
    }
}
