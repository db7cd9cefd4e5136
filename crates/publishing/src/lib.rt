//! How a correct station acts on INIT, ECHO and READY: Bracha's broadcast of one publication after the other. Each
//! function leaves the tables that the machine's rule of its name gives.
#![tactic(auto)]

ghost use Rattle.std.specs.Prelude.{◌≡◌, ◌+◌, ◌*◌, ◌<◌, ◌≤◌};
ghost use Rattle.machine.specs.State.{setting};
ghost use Rattle.machine.specs.Operations.{test_freshness};
ghost use Rattle.machine.specs.Publishing.{send_echo, send_ready, on_init, count_echoes, on_echo, join_readies, take_value, count_readies, on_ready};
ghost use Rattle.tables.specs.View.{view, Sound, Becomes};
ghost use Rattle.publishing.specs.Next.{IsNext};
ghost use Rattle.publishing.specs.Answering.{answer_one, answer_each};

pub mod publication;

use machine::figures::Figures;
use machine::message::Message;
use machine::station::RegisterCopy;
use operations::test_freshness;
pub use publication::Publication;
use quorum::QuorumSystem;
use tables::lent::{Tables, VoteKind};
use value::Value;

// Station i sends ECHO to all.
fn send_echo<V: Copy>(
    tables: &mut Tables<V>,
    figures: &Figures<V>,
    i: usize,
    publication: Publication<V>,
)
    requires sound { Sound figures.now tables.old }
    requires station { i < figures.now.stations }
    requires register { publication.register < figures.now.stations }
    requires next { IsNext figures.now tables.old i publication }
    requires room { tables.old.pool.waiting + figures.now.stations ≤ figures.now.places }
    ensures shows { Becomes figures.now tables.old tables.new (send_echo i publication.register publication.value (view figures.now tables.old)) }
    ensures sent { tables.new.pool.waiting ≡ tables.old.pool.waiting + figures.now.stations }
{
    let Publication {
        register,
        number,
        value,
    } = publication;
    let copy = tables.copy(figures, i, register);
    tables.set_copy(
        figures,
        i,
        register,
        RegisterCopy {
            echoed: true,
            ..copy
        },
    );
    tables.send_each(
        figures,
        |k| Message::Echo {
            sender: i,
            receiver: k,
            register,
            number,
            value,
        },
    );
}

// Station i sends READY to all.
fn send_ready<V: Copy>(
    tables: &mut Tables<V>,
    figures: &Figures<V>,
    i: usize,
    publication: Publication<V>,
)
    requires sound { Sound figures.now tables.old }
    requires station { i < figures.now.stations }
    requires register { publication.register < figures.now.stations }
    requires next { IsNext figures.now tables.old i publication }
    requires room { tables.old.pool.waiting + figures.now.stations ≤ figures.now.places }
    ensures shows { Becomes figures.now tables.old tables.new (send_ready i publication.register publication.value (view figures.now tables.old)) }
    ensures sent { tables.new.pool.waiting ≡ tables.old.pool.waiting + figures.now.stations }
{
    let Publication {
        register,
        number,
        value,
    } = publication;
    let copy = tables.copy(figures, i, register);
    tables.set_copy(
        figures,
        i,
        register,
        RegisterCopy {
            readied: true,
            ..copy
        },
    );
    tables.send_each(
        figures,
        |k| Message::Ready {
            sender: i,
            receiver: k,
            register,
            number,
            value,
        },
    );
}

// INIT: station i echoes the first one that it is sent.
pub fn on_init<V: Copy>(
    tables: &mut Tables<V>,
    figures: &Figures<V>,
    i: usize,
    publication: Publication<V>,
)
    requires sound { Sound figures.now tables.old }
    requires station { i < figures.now.stations }
    requires register { publication.register < figures.now.stations }
    requires next { IsNext figures.now tables.old i publication }
    requires room { tables.old.pool.waiting + figures.now.stations ≤ figures.now.places }
    ensures shows { Becomes figures.now tables.old tables.new (on_init i publication.register publication.value (view figures.now tables.old)) }
    ensures sent { tables.new.pool.waiting ≤ tables.old.pool.waiting + figures.now.stations }
{
    if !tables.copy(figures, i, publication.register).echoed {
        send_echo(tables, figures, i, publication);
    }
}

// Station i is ready once the stations whose ECHO vote is this value are a quorum.
fn count_echoes<V: Value, S: QuorumSystem>(
    tables: &mut Tables<V>,
    figures: &Figures<V>,
    system: &S,
    i: usize,
    publication: Publication<V>,
)
    requires sound { Sound figures.now tables.old }
    requires station { i < figures.now.stations }
    requires register { publication.register < figures.now.stations }
    requires next { IsNext figures.now tables.old i publication }
    requires room { tables.old.pool.waiting + figures.now.stations ≤ figures.now.places }
    ensures shows { Becomes figures.now tables.old tables.new (count_echoes (setting (S.families system.now) V.equal) i publication.register publication.value (view figures.now tables.old)) }
    ensures sent { tables.new.pool.waiting ≤ tables.old.pool.waiting + figures.now.stations }
{
    let Publication {
        register,
        value,
        ..
    } = publication;
    if !tables.copy(figures, i, register).readied
        && system.is_quorum(tables.voters(figures, VoteKind::Echo, i, register, value))
    {
        send_ready(tables, figures, i, publication);
    }
}

// ECHO from station k: only its first vote counts.
pub fn on_echo<V: Value, S: QuorumSystem>(
    tables: &mut Tables<V>,
    figures: &Figures<V>,
    system: &S,
    i: usize,
    k: usize,
    publication: Publication<V>,
)
    requires sound { Sound figures.now tables.old }
    requires station { i < figures.now.stations }
    requires voter { k < figures.now.stations }
    requires register { publication.register < figures.now.stations }
    requires next { IsNext figures.now tables.old i publication }
    requires room { tables.old.pool.waiting + figures.now.stations ≤ figures.now.places }
    ensures shows { Becomes figures.now tables.old tables.new (on_echo (setting (S.families system.now) V.equal) i publication.register k publication.value (view figures.now tables.old)) }
    ensures sent { tables.new.pool.waiting ≤ tables.old.pool.waiting + figures.now.stations }
{
    let Publication {
        register,
        value,
        ..
    } = publication;
    let echo = tables.vote(figures, VoteKind::Echo, i, register, k);
    if echo.is_none() {
        tables.set_vote(figures, VoteKind::Echo, i, register, k, value);
        count_echoes(tables, figures, system, i, publication);
    }
}

// Station i is ready, too, once the stations whose READY vote is this value are more than may be faulty.
fn join_readies<V: Value, S: QuorumSystem>(
    tables: &mut Tables<V>,
    figures: &Figures<V>,
    system: &S,
    i: usize,
    publication: Publication<V>,
)
    requires sound { Sound figures.now tables.old }
    requires station { i < figures.now.stations }
    requires register { publication.register < figures.now.stations }
    requires next { IsNext figures.now tables.old i publication }
    requires room { tables.old.pool.waiting + figures.now.stations ≤ figures.now.places }
    ensures shows { Becomes figures.now tables.old tables.new (join_readies (setting (S.families system.now) V.equal) i publication.register publication.value (view figures.now tables.old)) }
    ensures sent { tables.new.pool.waiting ≤ tables.old.pool.waiting + figures.now.stations }
{
    let Publication {
        register,
        value,
        ..
    } = publication;
    if !tables.copy(figures, i, register).readied
        && !system.is_allowed(tables.voters(figures, VoteKind::Ready, i, register, value))
    {
        send_ready(tables, figures, i, publication);
    }
}

// Station i answers station k if it awaits this number of the register.
fn answer_one<V: Copy>(
    tables: &mut Tables<V>,
    figures: &Figures<V>,
    i: usize,
    j: usize,
    number: u64,
    k: usize,
)
    requires sound { Sound figures.now tables.old }
    requires station { i < figures.now.stations }
    requires register { j < figures.now.stations }
    requires awaiting { k < figures.now.stations }
    requires room { tables.old.pool.waiting < figures.now.places }
    ensures shows { Becomes figures.now tables.old tables.new (answer_one i j number k (view figures.now tables.old)) }
    ensures sent { tables.new.pool.waiting ≤ tables.old.pool.waiting + 1 }
{
    if tables.held_number(figures, i, k, j) == number {
        tables.set_held(figures, i, k, j, 0);
        let answer = Message::CatchUpDone {
            sender: i,
            receiver: k,
            register: j,
            number,
        };
        tables.send(figures, answer);
    }
}

// Station i answers, from station 0 on, each station that awaits this number of the register.
fn answer_each<V: Copy>(
    tables: &mut Tables<V>,
    figures: &Figures<V>,
    i: usize,
    j: usize,
    number: u64,
)
    requires sound { Sound figures.now tables.old }
    requires station { i < figures.now.stations }
    requires register { j < figures.now.stations }
    requires room { tables.old.pool.waiting + figures.now.stations ≤ figures.now.places }
    ensures shows { Becomes figures.now tables.old tables.new (answer_each figures.now.stations i j number (view figures.now tables.old)) }
    ensures sent { tables.new.pool.waiting ≤ tables.old.pool.waiting + figures.now.stations }
{
    for k in 0..figures.stations {
        answer_one(tables, figures, i, j, number, k);
    }
}

// Station i takes the value, tells the owner, and answers those that awaited it.
fn take_value<V: Copy>(
    tables: &mut Tables<V>,
    figures: &Figures<V>,
    i: usize,
    publication: Publication<V>,
)
    requires sound { Sound figures.now tables.old }
    requires station { i < figures.now.stations }
    requires register { publication.register < figures.now.stations }
    requires next { IsNext figures.now tables.old i publication }
    requires room { tables.old.pool.waiting + figures.now.stations + 1 ≤ figures.now.places }
    ensures shows { Becomes figures.now tables.old tables.new (take_value i publication.register publication.value (view figures.now tables.old)) }
    ensures sent { tables.new.pool.waiting ≤ tables.old.pool.waiting + figures.now.stations + 1 }
{
    let Publication {
        register,
        number,
        value,
    } = publication;
    tables.renew(figures, i, register, number, value);
    let taken = Message::WriteDone {
        sender: i,
        receiver: register,
        number,
    };
    tables.send(figures, taken);
    answer_each(tables, figures, i, register, number);
}

// Station i takes the value, and the freshness test follows.
fn take_and_test<V: Value, S: QuorumSystem>(
    tables: &mut Tables<V>,
    figures: &Figures<V>,
    system: &S,
    i: usize,
    publication: Publication<V>,
)
    requires sound { Sound figures.now tables.old }
    requires station { i < figures.now.stations }
    requires register { publication.register < figures.now.stations }
    requires next { IsNext figures.now tables.old i publication }
    requires room { tables.old.pool.waiting + 2 * figures.now.stations + 1 ≤ figures.now.places }
    ensures shows { Becomes figures.now tables.old tables.new (test_freshness (setting (S.families system.now) V.equal) i publication.register (take_value i publication.register publication.value (view figures.now tables.old))) }
    ensures sent { tables.new.pool.waiting ≤ tables.old.pool.waiting + 2 * figures.now.stations + 1 }
{
    take_value(tables, figures, i, publication);
    test_freshness(tables, figures, system, i, publication.register);
}

// Once the stations whose READY vote is this value are a quorum, station i takes it, and the freshness test follows.
fn count_readies<V: Value, S: QuorumSystem>(
    tables: &mut Tables<V>,
    figures: &Figures<V>,
    system: &S,
    i: usize,
    publication: Publication<V>,
)
    requires sound { Sound figures.now tables.old }
    requires station { i < figures.now.stations }
    requires register { publication.register < figures.now.stations }
    requires next { IsNext figures.now tables.old i publication }
    requires room { tables.old.pool.waiting + 2 * figures.now.stations + 1 ≤ figures.now.places }
    ensures shows { Becomes figures.now tables.old tables.new (count_readies (setting (S.families system.now) V.equal) i publication.register publication.value (view figures.now tables.old)) }
    ensures sent { tables.new.pool.waiting ≤ tables.old.pool.waiting + 2 * figures.now.stations + 1 }
{
    let Publication {
        register,
        value,
        ..
    } = publication;
    if system.is_quorum(tables.voters(figures, VoteKind::Ready, i, register, value)) {
        take_and_test(tables, figures, system, i, publication);
    }
}

// READY from station k: only its first vote counts.
pub fn on_ready<V: Value, S: QuorumSystem>(
    tables: &mut Tables<V>,
    figures: &Figures<V>,
    system: &S,
    i: usize,
    k: usize,
    publication: Publication<V>,
)
    requires sound { Sound figures.now tables.old }
    requires station { i < figures.now.stations }
    requires voter { k < figures.now.stations }
    requires register { publication.register < figures.now.stations }
    requires next { IsNext figures.now tables.old i publication }
    requires room { tables.old.pool.waiting + (3 * figures.now.stations + 1) ≤ figures.now.places }
    ensures shows { Becomes figures.now tables.old tables.new (on_ready (setting (S.families system.now) V.equal) i publication.register k publication.value (view figures.now tables.old)) }
    ensures sent { tables.new.pool.waiting ≤ tables.old.pool.waiting + (3 * figures.now.stations + 1) }
{
    let Publication {
        register,
        value,
        ..
    } = publication;
    let ready = tables.vote(figures, VoteKind::Ready, i, register, k);
    if ready.is_none() {
        tables.set_vote(figures, VoteKind::Ready, i, register, k, value);
        join_readies(tables, figures, system, i, publication);
        count_readies(tables, figures, system, i, publication);
    }
}
