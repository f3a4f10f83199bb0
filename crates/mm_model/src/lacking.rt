//! Calls that are refused, and page tables that are too few for them.
ghost use Rattle.std.specs.Prelude.{◌≡◌, ◌+◌, ◌≤◌, None, length, IfOk, IfErr};
ghost use Rattle.page_map.specs.State.{linked};
ghost use Rattle.plain_spaces.specs.Wants.{StopsFor};
ghost use Rattle.mm_model.specs.Lacking.{lack, lack_of, stopped};

use crate::plain::Plain;
use corten_base::Reply;
use plain_spaces::Stop;
use std::alloc::AllocError;
use table_place::Place;

/// The reply to a call that is refused.
pub(crate) fn refusal(stop: Stop) -> Result<Reply, AllocError>
    ensures { result ≡ stopped stop }
{
    match stop {
        Stop::Refused(reply) => Ok(reply),
        Stop::NoMemory => Err(AllocError),
    }
}

/// The reply that the page tables that are linked, in limbo and needed are more than there are, if they are.
fn lack(tables: u32, linked: u32, limbo: u32, need: u64) -> Option<Reply>
    requires { linked + limbo ≤ tables }
    ensures { result ≡ lack tables linked limbo need }
{
    if need <= u64::from(tables - linked - limbo) {
        return None;
    }
    Some(Reply::NoTables {
        linked,
        limbo,
        need,
    })
}

impl Plain {
    /// These missing page tables, unless they are more than are left.
    pub(crate) fn affordable(&self, missing: Vec<Place>, limbo: u32) -> Result<Vec<Place>, Stop>
        requires { linked self.now + limbo ≤ self.now.limits.tables }
        ensures missing { IfOk result (λ found. found ≡ missing) }
        ensures enough { IfOk result (λ _. lack_of self.now (length missing.items) limbo ≡ None) }
        ensures refused { IfErr result (StopsFor (lack_of self.now (length missing.items) limbo)) }
    {
        let linked = self.tables.len() as u32;
        let need = missing.len() as u64;
        match lack(self.limits.tables, linked, limbo, need) {
            Some(refused) => Err(Stop::Refused(refused)),
            None => Ok(missing),
        }
    }
}
