//! What a correct station does with a message, by the message's kind.
ghost use Rattle.std.specs.Prelude.{◌≡◌, ◌+◌, ◌*◌, ◌<◌, ◌≤◌, false, suc, nat_lt};
ghost use Rattle.machine.specs.State.{setting};
ghost use Rattle.machine.specs.Calls.{Names, ahead, act};
ghost use Rattle.tables.specs.View.{view, Sound};
ghost use Rattle.operations.specs.Performs.{Performs};

use machine::call::Answer;
use machine::figures::Figures;
use machine::message::Message;
use operations::{on_catch_up, on_catch_up_done, on_read, on_state, on_write_done};
use publishing::{Publication, on_echo, on_init, on_ready};
use quorum::QuorumSystem;
use tables::lent::Tables;
use value::Value;

// Whether a number is greater than the one that follows `at`.
fn past_next(number: u64, at: u64) -> bool
    ensures { result ≡ nat_lt (suc at) number }
{
    number > at && number - at > 1
}

// Whether a message is past the publication that its receiver works on, so that it has to wait.
pub(crate) fn is_ahead<V: Copy>(
    tables: &Tables<V>,
    figures: &Figures<V>,
    message: &Message<V>,
) -> bool
    requires sound { Sound figures.now tables.now }
    requires named { Names figures.now.stations message.now }
    ensures { result ≡ ahead (view figures.now tables.now) message.now }
{
    match *message {
        Message::Init {
            sender,
            receiver,
            number,
            ..
        } => past_next(number, tables.copy(figures, receiver, sender).number),
        Message::Echo {
            receiver,
            register,
            number,
            ..
        }
        | Message::Ready {
            receiver,
            register,
            number,
            ..
        } => { past_next(number, tables.copy(figures, receiver, register).number) }
        _ => false,
    }
}

// A message that has left the pool, and is not ahead, reaches its correct receiver.
pub(crate) fn act<V: Value, S: QuorumSystem>(
    tables: &mut Tables<V>,
    figures: &Figures<V>,
    system: &S,
    message: Message<V>,
) -> Answer<V>
    requires sound { Sound figures.now tables.old }
    requires named { Names figures.now.stations message }
    requires due { ahead (view figures.now tables.old) message ≡ false }
    requires room { tables.old.pool.waiting + (3 * figures.now.stations + 1) ≤ figures.now.places }
    ensures sent { tables.new.pool.waiting ≤ tables.old.pool.waiting + (3 * figures.now.stations + 1) }
    ensures performs { Performs figures.now tables.old tables.new result (act (setting (S.families system.now) V.equal) (view figures.now tables.old) message) }
{
    match message {
        Message::Init {
            sender,
            receiver,
            number,
            value,
        } => {
            if number > tables.copy(figures, receiver, sender).number {
                let publication = Publication {
                    register: sender,
                    number,
                    value,
                };
                on_init(tables, figures, receiver, publication);
            }
            Answer::Done
        }
        Message::Echo {
            sender,
            receiver,
            register,
            number,
            value,
        } => {
            if number > tables.copy(figures, receiver, register).number {
                let publication = Publication {
                    register,
                    number,
                    value,
                };
                on_echo(tables, figures, system, receiver, sender, publication);
            }
            Answer::Done
        }
        Message::Ready {
            sender,
            receiver,
            register,
            number,
            value,
        } => {
            if number > tables.copy(figures, receiver, register).number {
                let publication = Publication {
                    register,
                    number,
                    value,
                };
                on_ready(tables, figures, system, receiver, sender, publication);
            }
            Answer::Done
        }
        Message::WriteDone {
            sender,
            receiver,
            number,
        } => on_write_done(tables, figures, system, receiver, sender, number),
        Message::Read {
            sender,
            receiver,
            register,
            read,
        } => {
            on_read(tables, figures, receiver, sender, register, read);
            Answer::Done
        }
        Message::State {
            sender,
            receiver,
            register,
            read,
            number,
        } => {
            on_state(
                tables, figures, system, receiver, sender, register, read, number,
            );
            Answer::Done
        }
        Message::CatchUp {
            sender,
            receiver,
            register,
            number,
        } => {
            on_catch_up(tables, figures, receiver, sender, register, number);
            Answer::Done
        }
        Message::CatchUpDone {
            sender,
            receiver,
            register,
            number,
        } => { on_catch_up_done(tables, figures, system, receiver, sender, register, number) }
    }
}
