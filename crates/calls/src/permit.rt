//! Whether a call is permitted: the reasons against it, in their order.
ghost use Rattle.std.specs.Prelude.{◌≡◌, ◌+◌, ◌*◌, ◌<◌, if◌then◌else◌, Ok, Err};
ghost use Rattle.station_set.specs.Sets.{has};
ghost use Rattle.machine.specs.Calls.{has_places, is_idle, write_decline, read_decline};
ghost use Rattle.tables.specs.View.{view, Sound};
ghost use Rattle.calls.specs.Follows.{permitted};

use decline::Decline;
use machine::figures::Figures;
use machine::station::Stage;
use station_set::contains;
use tables::lent::Tables;

// Goes on where a condition holds, and is declined where not.
pub(crate) fn require(condition: bool, otherwise: Decline) -> Result<(), Decline>
    ensures { result ≡ (if condition then Ok tt else Err otherwise) }
{
    if condition { Ok(()) } else { Err(otherwise) }
}

pub(crate) fn is_faulty<V: Copy>(figures: &Figures<V>, k: usize) -> bool
    ensures { result ≡ has figures.now.faulty k }
{
    contains(figures.faulty, k)
}

fn is_idle<V: Copy>(stage: Stage<V>) -> bool
    ensures { result ≡ is_idle stage }
{
    matches!(stage, Stage::Idle)
}

// Whether the pool has the free places that a call wants.
pub(crate) fn has_places<V: Copy>(tables: &Tables<V>, figures: &Figures<V>) -> bool
    requires { Sound figures.now tables.now }
    ensures { result ≡ has_places (view figures.now tables.now) }
{
    tables.pool.waiting + (3 * figures.stations + 1) <= figures.places
}

// The station, if it may begin a write.
pub(crate) fn permit_write<V: Copy>(
    tables: &Tables<V>,
    figures: &Figures<V>,
    station: u64,
) -> Result<usize, Decline>
    requires { Sound figures.now tables.now }
    ensures { result ≡ permitted (write_decline (view figures.now tables.now) station) station }
{
    require(station < figures.stations as u64, Decline::NoSuchStation)?;
    let i = station as usize;
    require(!is_faulty(figures, i), Decline::WrongSide)?;
    let record = tables.station(figures, i);
    require(is_idle(record.stage), Decline::NotIdle)?;
    require(record.written < figures.highest, Decline::NumbersUsedUp)?;
    require(has_places(tables, figures), Decline::PoolFull)?;
    Ok(i)
}

// The station and the register, if the station may begin to read it.
pub(crate) fn permit_read<V: Copy>(
    tables: &Tables<V>,
    figures: &Figures<V>,
    station: u64,
    register: u64,
) -> Result<(usize, usize), Decline>
    requires { Sound figures.now tables.now }
    ensures { result ≡ permitted (read_decline (view figures.now tables.now) station register) (station, register) }
{
    let n = figures.stations as u64;
    require(station < n && register < n, Decline::NoSuchStation)?;
    let i = station as usize;
    let j = register as usize;
    require(!is_faulty(figures, i), Decline::WrongSide)?;
    require(is_idle(tables.station(figures, i).stage), Decline::NotIdle)?;
    require(
        tables.read_number(figures, i, j) < figures.highest,
        Decline::NumbersUsedUp,
    )?;
    require(has_places(tables, figures), Decline::PoolFull)?;
    Ok((i, j))
}
