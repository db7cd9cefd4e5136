//! How a correct station acts on the five kinds of message that reading and writing add to the broadcast. Each function
//! leaves the tables that the machine's rule of its name gives, and sends at most one message to each station.
#![tactic(auto)]

ghost use Rattle.std.specs.Prelude.{◌≡◌, ◌+◌, ◌<◌, ◌≤◌};
ghost use Rattle.machine.specs.State.{setting};
ghost use Rattle.machine.specs.Operations.{start_catching, test_freshness, keep_report, end_write, on_write_done, on_read, on_state, on_catch_up, end_read, on_catch_up_done};
ghost use Rattle.tables.specs.View.{view, Sound, Becomes};
ghost use Rattle.operations.specs.Performs.{Performs};

use machine::call::Answer;
use machine::figures::Figures;
use machine::message::Message;
use machine::station::Stage;
use quorum::QuorumSystem;
use station_set::{contains, insert};
use tables::lent::Tables;
use value::Value;

// Station i notes its copy of register j, and asks every station to tell when it is as far.
fn start_catching<V: Copy>(tables: &mut Tables<V>, figures: &Figures<V>, i: usize, j: usize)
    requires sound { Sound figures.now tables.old }
    requires station { i < figures.now.stations }
    requires register { j < figures.now.stations }
    requires room { tables.old.pool.waiting + figures.now.stations ≤ figures.now.places }
    ensures shows { Becomes figures.now tables.old tables.new (start_catching i j (view figures.now tables.old)) }
    ensures sent { tables.new.pool.waiting ≡ tables.old.pool.waiting + figures.now.stations }
{
    let copy = tables.copy(figures, i, j);
    let stage = Stage::Catching {
        register: j,
        number: copy.number,
        value: copy.value,
        done: 0,
    };
    tables.set_stage(figures, i, stage);
    tables.send_each(
        figures,
        |k| Message::CatchUp {
            sender: i,
            receiver: k,
            register: j,
            number: copy.number,
        },
    );
}

// If station i is querying register j, and the stations whose report is at most its own number are a quorum, it goes on
// to catching.
pub fn test_freshness<V: Value, S: QuorumSystem>(
    tables: &mut Tables<V>,
    figures: &Figures<V>,
    system: &S,
    i: usize,
    j: usize,
)
    requires sound { Sound figures.now tables.old }
    requires station { i < figures.now.stations }
    requires register { j < figures.now.stations }
    requires room { tables.old.pool.waiting + figures.now.stations ≤ figures.now.places }
    ensures shows { Becomes figures.now tables.old tables.new (test_freshness (setting (S.families system.now) V.equal) i j (view figures.now tables.old)) }
    ensures sent { tables.new.pool.waiting ≤ tables.old.pool.waiting + figures.now.stations }
{
    if let Stage::Querying {
        register,
        reported,
        ..
    } = tables.station(figures, i).stage
    {
        let number = tables.copy(figures, i, j).number;
        if register == j && system.is_quorum(tables.fresh_reports(figures, i, reported, number)) {
            start_catching(tables, figures, i, j);
        }
    }
}

// Station i is done with its write once the stations that took it are a quorum.
fn end_write<V: Value, S: QuorumSystem>(
    tables: &mut Tables<V>,
    figures: &Figures<V>,
    system: &S,
    i: usize,
    number: u64,
    done: u16,
) -> Answer<V>
    requires sound { Sound figures.now tables.old }
    requires station { i < figures.now.stations }
    ensures performs { Performs figures.now tables.old tables.new result (end_write (setting (S.families system.now) V.equal) i number done (view figures.now tables.old)) }
    ensures sent { tables.new.pool.waiting ≡ tables.old.pool.waiting }
{
    if system.is_quorum(done) {
        tables.set_stage(figures, i, Stage::Idle);
        Answer::WriteEnded { station: i, number }
    } else {
        tables.set_stage(figures, i, Stage::Writing { number, done });
        Answer::Done
    }
}

// WRITE_DONE from station k: it has taken station i's write of this number.
pub fn on_write_done<V: Value, S: QuorumSystem>(
    tables: &mut Tables<V>,
    figures: &Figures<V>,
    system: &S,
    i: usize,
    k: usize,
    number: u64,
) -> Answer<V>
    requires sound { Sound figures.now tables.old }
    requires station { i < figures.now.stations }
    ensures performs { Performs figures.now tables.old tables.new result (on_write_done (setting (S.families system.now) V.equal) i k number (view figures.now tables.old)) }
    ensures sent { tables.new.pool.waiting ≡ tables.old.pool.waiting }
{
    match tables.station(figures, i).stage {
        Stage::Writing { number: own, done } if own == number => end_write(
            tables,
            figures,
            system,
            i,
            number,
            insert(done, k),
        ),
        _ => Answer::Done,
    }
}

// READ from station k: station i tells how far it is.
pub fn on_read<V: Copy>(
    tables: &mut Tables<V>,
    figures: &Figures<V>,
    i: usize,
    k: usize,
    j: usize,
    read: u64,
)
    requires sound { Sound figures.now tables.old }
    requires station { i < figures.now.stations }
    requires asking { k < figures.now.stations }
    requires register { j < figures.now.stations }
    requires room { tables.old.pool.waiting < figures.now.places }
    ensures shows { Becomes figures.now tables.old tables.new (on_read i k j read (view figures.now tables.old)) }
    ensures sent { tables.new.pool.waiting ≡ tables.old.pool.waiting + 1 }
{
    let told = Message::State {
        sender: i,
        receiver: k,
        register: j,
        read,
        number: tables.copy(figures, i, j).number,
    };
    tables.send(figures, told);
}

// Station i keeps station k's report, and k is among those that reported.
fn keep_report<V: Copy>(
    tables: &mut Tables<V>,
    figures: &Figures<V>,
    i: usize,
    k: usize,
    j: usize,
    read: u64,
    number: u64,
    reported: u16,
)
    requires sound { Sound figures.now tables.old }
    requires station { i < figures.now.stations }
    requires reporting { k < figures.now.stations }
    ensures shows { Becomes figures.now tables.old tables.new (keep_report i k j read number reported (view figures.now tables.old)) }
    ensures sent { tables.new.pool.waiting ≡ tables.old.pool.waiting }
{
    let stage = Stage::Querying {
        register: j,
        read,
        reported: insert(reported, k),
    };
    tables.set_stage(figures, i, stage);
    tables.set_report(figures, i, k, number);
}

// STATE from station k: its first report to this reading is kept, and the freshness test follows.
pub fn on_state<V: Value, S: QuorumSystem>(
    tables: &mut Tables<V>,
    figures: &Figures<V>,
    system: &S,
    i: usize,
    k: usize,
    j: usize,
    read: u64,
    number: u64,
)
    requires sound { Sound figures.now tables.old }
    requires station { i < figures.now.stations }
    requires reporting { k < figures.now.stations }
    requires register { j < figures.now.stations }
    requires room { tables.old.pool.waiting + figures.now.stations ≤ figures.now.places }
    ensures shows { Becomes figures.now tables.old tables.new (on_state (setting (S.families system.now) V.equal) i k j read number (view figures.now tables.old)) }
    ensures sent { tables.new.pool.waiting ≤ tables.old.pool.waiting + figures.now.stations }
{
    if let Stage::Querying {
        register,
        read: own,
        reported,
    } = tables.station(figures, i).stage
    {
        if register == j && own == read && !contains(reported, k) {
            keep_report(tables, figures, i, k, j, read, number, reported);
            test_freshness(tables, figures, system, i, j);
        }
    }
}

// CATCH_UP from station k: station i answers if it is as far, and else holds the larger of the two numbers.
pub fn on_catch_up<V: Copy>(
    tables: &mut Tables<V>,
    figures: &Figures<V>,
    i: usize,
    k: usize,
    j: usize,
    number: u64,
)
    requires sound { Sound figures.now tables.old }
    requires station { i < figures.now.stations }
    requires asking { k < figures.now.stations }
    requires register { j < figures.now.stations }
    requires room { tables.old.pool.waiting < figures.now.places }
    ensures shows { Becomes figures.now tables.old tables.new (on_catch_up i k j number (view figures.now tables.old)) }
    ensures sent { tables.new.pool.waiting ≤ tables.old.pool.waiting + 1 }
{
    if number <= tables.copy(figures, i, j).number {
        let answer = Message::CatchUpDone {
            sender: i,
            receiver: k,
            register: j,
            number,
        };
        tables.send(figures, answer);
    } else {
        let held = tables.held_number(figures, i, k, j);
        tables.set_held(figures, i, k, j, held.max(number));
    }
}

// Station i is done with its reading once the stations that are as far as what it noted are a quorum.
fn end_read<V: Value, S: QuorumSystem>(
    tables: &mut Tables<V>,
    figures: &Figures<V>,
    system: &S,
    i: usize,
    j: usize,
    number: u64,
    value: V,
    done: u16,
) -> Answer<V>
    requires sound { Sound figures.now tables.old }
    requires station { i < figures.now.stations }
    ensures performs { Performs figures.now tables.old tables.new result (end_read (setting (S.families system.now) V.equal) i j number value done (view figures.now tables.old)) }
    ensures sent { tables.new.pool.waiting ≡ tables.old.pool.waiting }
{
    if system.is_quorum(done) {
        tables.set_stage(figures, i, Stage::Idle);
        Answer::ReadEnded {
            station: i,
            register: j,
            number,
            value,
        }
    } else {
        let stage = Stage::Catching {
            register: j,
            number,
            value,
            done,
        };
        tables.set_stage(figures, i, stage);
        Answer::Done
    }
}

// CATCH_UP_DONE from station k: it is as far with register j as this number.
pub fn on_catch_up_done<V: Value, S: QuorumSystem>(
    tables: &mut Tables<V>,
    figures: &Figures<V>,
    system: &S,
    i: usize,
    k: usize,
    j: usize,
    number: u64,
) -> Answer<V>
    requires sound { Sound figures.now tables.old }
    requires station { i < figures.now.stations }
    ensures performs { Performs figures.now tables.old tables.new result (on_catch_up_done (setting (S.families system.now) V.equal) i k j number (view figures.now tables.old)) }
    ensures sent { tables.new.pool.waiting ≡ tables.old.pool.waiting }
{
    match tables.station(figures, i).stage {
        Stage::Catching {
            register,
            number: noted,
            value,
            done,
        } if register == j && noted == number => {
            end_read(
                tables,
                figures,
                system,
                i,
                j,
                number,
                value,
                insert(done, k),
            )
        }
        _ => Answer::Done,
    }
}
