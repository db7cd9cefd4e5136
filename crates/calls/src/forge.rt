//! Forging a message from a faulty station.
ghost use Rattle.std.specs.Prelude.{◌≡◌};
ghost use Rattle.machine.specs.Calls.{within, uses_register, forged, forge_outcome};
ghost use Rattle.tables.specs.View.{view, Sound};
ghost use Rattle.calls.specs.Follows.{Follows, Forgeable};

use crate::permit::{has_places, is_faulty, require};
use decline::Decline;
use machine::call::{Answer, Forgery};
use machine::figures::Figures;
use machine::message::Message;
use tables::lent::Tables;

fn within(low: u64, high: u64, x: u64) -> bool
    ensures { result ≡ within low high x }
{
    low <= x && x <= high
}

fn uses_register(kind: u64) -> bool
    ensures { result ≡ uses_register kind }
{
    within(2, 3, kind) || within(5, 8, kind)
}

// The message of the fields that its kind uses; none where there is no such kind, or a number is outside its range.
fn forged<V: Copy>(highest: u64, forgery: &Forgery<V>) -> Option<Message<V>>
    ensures { result ≡ forged highest forgery.now }
{
    let Forgery {
        kind,
        number,
        read,
        value,
        ..
    } = *forgery;
    let sender = forgery.sender as usize;
    let receiver = forgery.receiver as usize;
    let register = forgery.register as usize;
    match kind {
        1 if within(1, highest, number) => Some(Message::Init {
            sender,
            receiver,
            number,
            value,
        }),
        2 if within(1, highest, number) => Some(Message::Echo {
            sender,
            receiver,
            register,
            number,
            value,
        }),
        3 if within(1, highest, number) => Some(Message::Ready {
            sender,
            receiver,
            register,
            number,
            value,
        }),
        4 if within(1, highest, number) => Some(Message::WriteDone {
            sender,
            receiver,
            number,
        }),
        5 if within(1, highest, read) => Some(Message::Read {
            sender,
            receiver,
            register,
            read,
        }),
        6 if within(1, highest, read) && within(0, highest, number) => Some(Message::State {
            sender,
            receiver,
            register,
            read,
            number,
        }),
        7 if within(0, highest, number) => Some(Message::CatchUp {
            sender,
            receiver,
            register,
            number,
        }),
        8 if within(0, highest, number) => Some(Message::CatchUpDone {
            sender,
            receiver,
            register,
            number,
        }),
        _ => None,
    }
}

// The message of these fields, if it may be forged.
fn permit_forge<V: Copy>(
    tables: &Tables<V>,
    figures: &Figures<V>,
    forgery: &Forgery<V>,
) -> Result<Message<V>, Decline>
    requires { Sound figures.now tables.now }
    ensures { Forgeable (view figures.now tables.now) forgery.now result }
{
    let n = figures.stations as u64;
    require(
        forgery.sender < n && forgery.receiver < n,
        Decline::NoSuchStation,
    )?;
    require(
        !uses_register(forgery.kind) || forgery.register < n,
        Decline::NoSuchStation,
    )?;
    require(
        is_faulty(figures, forgery.sender as usize),
        Decline::WrongSide,
    )?;
    let message = forged(figures.highest, forgery).ok_or(Decline::BadForgery)?;
    require(has_places(tables, figures), Decline::PoolFull)?;
    Ok(message)
}

// A message of these fields joins the pool.
pub fn forge<V: Copy>(
    tables: &mut Tables<V>,
    figures: &Figures<V>,
    forgery: &Forgery<V>,
) -> Result<Answer<V>, Decline>
    requires { Sound figures.now tables.old }
    ensures { Follows figures.now tables.old tables.new result (forge_outcome (view figures.now tables.old) forgery.now) }
{
    let message = permit_forge(tables, figures, forgery)?;
    tables.send(figures, message);
    Ok(Answer::Done)
}
