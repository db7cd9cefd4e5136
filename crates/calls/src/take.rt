//! Messages that leave the pool: one is taken, or withdrawn.
ghost use Rattle.machine.specs.State.{setting};
ghost use Rattle.machine.specs.Calls.{take_outcome, withdraw_outcome};
ghost use Rattle.tables.specs.View.{view, Sound};
ghost use Rattle.calls.specs.Follows.{Follows};

use crate::act::{act, is_ahead};
use crate::message::{receiver, sender};
use crate::permit::{has_places, is_faulty, require};
use decline::Decline;
use machine::call::Answer;
use machine::figures::Figures;
use quorum::QuorumSystem;
use tables::lent::Tables;
use value::Value;

// The message at a place reaches its receiver, which acts on it if it is correct.
pub fn take<V: Value, S: QuorumSystem>(
    tables: &mut Tables<V>,
    figures: &Figures<V>,
    system: &S,
    place: u64,
) -> Result<Answer<V>, Decline>
    requires { Sound figures.now tables.old }
    ensures { Follows figures.now tables.old tables.new result (take_outcome (setting (S.families system.now) V.equal) (view figures.now tables.old) place) }
{
    require(system.size() == figures.stations, Decline::OtherSize)?;
    let place = place as usize;
    let message = tables
        .message(figures, place)
        .ok_or(Decline::NoSuchMessage)?;
    if is_faulty(figures, receiver(&message)) {
        tables.remove(figures, place);
        return Ok(Answer::Done);
    }
    require(!is_ahead(tables, figures, &message), Decline::Ahead)?;
    require(has_places(tables, figures), Decline::PoolFull)?;
    tables.remove(figures, place);
    Ok(act(tables, figures, system, message))
}

// The message at a place leaves, if its sender is faulty.
pub fn withdraw<V: Copy>(
    tables: &mut Tables<V>,
    figures: &Figures<V>,
    place: u64,
) -> Result<Answer<V>, Decline>
    requires { Sound figures.now tables.old }
    ensures { Follows figures.now tables.old tables.new result (withdraw_outcome (view figures.now tables.old) place) }
{
    let place = place as usize;
    let message = tables
        .message(figures, place)
        .ok_or(Decline::NoSuchMessage)?;
    require(is_faulty(figures, sender(&message)), Decline::WrongSide)?;
    tables.remove(figures, place);
    Ok(Answer::Done)
}
