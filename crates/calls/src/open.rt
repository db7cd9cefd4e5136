//! Opening a bench over the tables.
ghost use Rattle.std.specs.Prelude.{◌≡◌, ◌≤◌};
ghost use Rattle.machine.specs.State.{setting};
ghost use Rattle.machine.specs.Calls.{suffices, in_limits};
ghost use Rattle.calls.specs.Opens.{lengths, Opens};

use crate::permit::require;
use decline::Decline;
use machine::call::Opening;
use machine::figures::Figures;
use quorum::QuorumSystem;
use tables::lent::Tables;
use value::Value;

// Whether every table has room for n stations, and the pool for so many messages.
fn suffices<V: Copy>(tables: &Tables<V>, n: usize, places: u64) -> bool
    requires { n ≤ 10 }
    ensures { result ≡ suffices (lengths tables.now) n places }
{
    places <= tables.pool.slots.len() as u64
        && 2 * (n * n * n) <= tables.votes.len()
        && n * n * n <= tables.held.len()
        && n <= tables.stations.len()
        && n * n <= tables.copies.len()
        && n * n <= tables.reads.len()
        && n * n <= tables.reports.len()
}

// Whether the figures are in their limits, and the tables long enough.
fn in_limits<V: Copy>(tables: &Tables<V>, n: usize, highest: u64, places: u64) -> bool
    ensures { result ≡ in_limits (lengths tables.now) n highest places }
{
    1 <= n
        && n <= 10
        && 1 <= highest
        && highest <= 999_999_999_999
        && 3 * n as u64 + 1 <= places
        && places <= 4000
        && suffices(tables, n, places)
}

// A bench opens: its figures, with which its tables are clear.
pub fn open<V: Value, S: QuorumSystem>(
    tables: &mut Tables<V>,
    system: &S,
    opening: &Opening<V>,
) -> Result<Figures<V>, Decline>
    ensures { Opens (setting (S.families system.now) V.equal) opening.now tables.old tables.new result }
{
    let stations = system.size();
    let Opening {
        faulty,
        highest,
        places,
        value,
    } = *opening;
    require(
        in_limits(tables, stations, highest, places),
        Decline::OutsideLimits,
    )?;
    require(system.is_allowed(faulty), Decline::NotAllowed)?;
    let figures = Figures {
        stations,
        faulty,
        highest,
        places: places as usize,
        opening: value,
    };
    tables.clear(&figures);
    Ok(figures)
}
