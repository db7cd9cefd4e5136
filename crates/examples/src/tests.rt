//! The examples as the code plays them.
ghost use Rattle.tables.specs.View.{Sound};

use crate::kinds::Timed;
use calls::begin::{begin_read, begin_write};
use calls::count::count;
use calls::forge::forge;
use calls::open::open;
use calls::take::{take, withdraw};
use decline::Decline;
use machine::call::{Answer, Forgery, Opening};
use machine::figures::Figures;
use machine::message::Message;
use machine::station::{RegisterCopy, Stage, Station};
use pool::Pool;
use quorum::QuorumSystem;
use quorum::by_site::BySite;
use quorum::counting::Counting;
use quorum::unfit::Unfit;
use std::alloc::{AllocError, Global};
use std::test::Fail;
use survey_text::answer;
use tables::lent::Tables;
use value::{Number, Printable, Tally, Value, holders};

#[test]
fn three_of_four_are_a_quorum(rt: HostRuntime) -> Result<(), Fail> {
    let system = Counting::new(4, 1)?;
    assert_eq!(rt; system.size(), 4);
    assert!(rt; system.is_quorum(0b0111) && !system.is_allowed(0b0111));
    assert!(rt; !system.is_quorum(0b0011) && !system.is_allowed(0b0011));
    assert!(rt; system.is_allowed(0b1000) && !system.is_quorum(0b1000));
    // A mask with a bit for no station gets no twice.
    assert!(rt; !system.is_allowed(0b1_0000) && !system.is_quorum(0b1_1111));
    Ok(())
}

#[test]
fn counting_limits(rt: HostRuntime) {
    assert!(rt; Counting::new(1, 0).is_ok());
    assert!(rt; Counting::new(10, 3).is_ok());
    assert_eq!(rt; Counting::new(3, 1).err(), Some(Unfit::TooManyFaults));
    assert_eq!(rt; Counting::new(0, 0).err(), Some(Unfit::NoStations));
    assert_eq!(rt; Counting::new(11, 0).err(), Some(Unfit::TooManyStations));
    // A third of the type's top, where the product would wrap.
    assert_eq!(rt;
        Counting::new(10, 6148914691236517206).err(),
        Some(Unfit::TooManyFaults)
    );
    assert_eq!(rt;
        Counting::new(u64::MAX, u64::MAX).err(),
        Some(Unfit::TooManyStations)
    );
    assert_eq!(rt; Decline::from(Unfit::TooManyFaults).number(), 14);
}

#[test]
fn stations_of_one_site_may_fail(rt: HostRuntime) -> Result<(), Fail> {
    let system = BySite::new(&[0, 0, 1, 1, 2, 3])?;
    assert_eq!(rt; system.size(), 6);
    assert!(rt; system.is_allowed(0b000011));
    assert!(rt; !system.is_allowed(0b000101));
    assert!(rt; system.is_quorum(0b111100));
    assert!(rt; !system.is_quorum(0b111010));
    assert!(rt; system.is_allowed(0) && !system.is_quorum(0));
    assert!(rt; !system.is_allowed(0b1000000) && !system.is_quorum(0b1111111));
    Ok(())
}

#[test]
fn site_limits(rt: HostRuntime) {
    assert_eq!(rt; BySite::new(&[]).err(), Some(Unfit::NoStations));
    assert_eq!(rt; BySite::new(&[0, 1, 2]).err(), Some(Unfit::TooFewSites));
    // 256 is no site, and is not cut to 0.
    assert_eq!(rt;
        BySite::new(&[256, 1, 2, 3]).err(),
        Some(Unfit::NoSuchSite(256))
    );
    assert_eq!(rt;
        BySite::new(&[0, 1, 2, 10, 11]).err(),
        Some(Unfit::NoSuchSite(10))
    );
    assert_eq!(rt;
        BySite::new(&[0, 1, 2, 3, 4, 5, 6, 7, 8, 9, 0]).err(),
        Some(Unfit::TooManyStations)
    );
    assert!(rt; BySite::new(&[0, 1, 2, 9]).is_ok());
}

#[test]
fn stations_that_keep_a_value(rt: HostRuntime) {
    let numbers = [Some(Number(7)), None, Some(Number(8)), Some(Number(7))];
    assert_eq!(rt; holders(&numbers, Number(7)), 0b1001);
    assert_eq!(rt; holders(&numbers, Number(9)), 0);
    // Tallies that differ in one count alone are not the same.
    let one = Tally {
        passed: 3,
        failed: 2,
        skipped: 1,
    };
    let other = Tally {
        passed: 3,
        failed: 2,
        skipped: 0,
    };
    assert_eq!(rt;
        holders(&[Some(one), Some(other), None, Some(one)], one),
        0b1001
    );
    assert_eq!(rt; Number::columns(), 1);
    assert_eq!(rt; Tally::columns(), 3);
}

#[test]
fn values_that_compare_equal_may_differ(rt: HostRuntime) {
    let early = Timed {
        count: 7,
        second: 1,
    };
    let late = Timed {
        count: 7,
        second: 2,
    };
    assert!(rt; early == late && !early.same(&late));
    assert_eq!(rt;
        holders(&[Some(early), Some(late), None, Some(early)], early),
        0b1001
    );
}

fn printed(heap: Global, arguments: &[&str]) -> Result<String, AllocError> {
    let mut words = Vec::new(heap);
    for argument in arguments {
        words.push(String::from_str(heap, argument)?)?;
    }
    answer(heap, words.as_slice())
}

#[test]
fn survey_of_four_stations(rt: HostRuntime) -> Result<(), Fail> {
    let text = printed(rt.alloc(), &["counting", "4", "1"])?;
    assert_eq!(rt;
        text.as_str(),
        "largest allowed sets:\n{ 0 }\n{ 1 }\n{ 2 }\n{ 3 }\nsmallest quorums:\n{ 0 1 2 }\n{ 0 1 3 }\n{ 0 2 3 }\n{ 1 2 3 }\nallowed sets: 5\nquorums: 5\nsurveyed: counting 4 1\n"
    );
    Ok(())
}

#[test]
fn survey_of_one_station(rt: HostRuntime) -> Result<(), Fail> {
    let text = printed(rt.alloc(), &["counting", "1", "0"])?;
    assert_eq!(rt;
        text.as_str(),
        "largest allowed sets:\n{ }\nsmallest quorums:\n{ 0 }\nallowed sets: 1\nquorums: 1\nsurveyed: counting 1 0\n"
    );
    Ok(())
}

#[test]
fn surveys_outside_the_limits(rt: HostRuntime) -> Result<(), Fail> {
    let faults = printed(rt.alloc(), &["counting", "3", "1"])?;
    assert_eq!(rt;
        faults.as_str(),
        "declined 14: three times the faulty stations must be fewer than all stations\n"
    );
    let sites = printed(rt.alloc(), &["sites", "0", "1", "2"])?;
    assert_eq!(rt;
        sites.as_str(),
        "declined 14: at least four sites must occur\n"
    );
    Ok(())
}

#[test]
fn unreadable_arguments(rt: HostRuntime) -> Result<(), Fail> {
    let none = printed(rt.alloc(), &[])?;
    assert!(rt; none.as_str().starts_with("usage: survey counting N T"));
    let missing = printed(rt.alloc(), &["counting", "4"])?;
    assert_eq!(rt; missing.as_str(), none.as_str());
    let no_number = printed(rt.alloc(), &["sites", "0", "1", "x", "3"])?;
    assert_eq!(rt; no_number.as_str(), none.as_str());
    let too_large = printed(rt.alloc(), &["counting", "18446744073709551616", "0"])?;
    assert_eq!(rt; too_large.as_str(), none.as_str());
    let other_word = printed(rt.alloc(), &["graph", "4", "1"])?;
    assert_eq!(rt; other_word.as_str(), none.as_str());
    Ok(())
}

// Takes the message in front until none is left, or the one in front has to wait; the last operation that ended.
fn settle(
    tables: &mut Tables<Number>,
    figures: &Figures<Number>,
    system: &Counting,
) -> Option<Answer<Number>>
    requires { Sound figures.now tables.old }
    ensures { Sound figures.now tables.new }
{
    let mut ended = None;
    for _ in 0..1000 {
        match take(tables, figures, system, 0) {
            Ok(Answer::Done) => {}
            Ok(answer) => ended = Some(answer),
            Err(_) => return ended,
        }
    }
    ended
}

#[test]
fn a_write_and_a_read_on_lent_tables(rt: HostRuntime) -> Result<(), Fail> {
    let system = Counting::new(4, 1)?;
    let filler = Number(99);
    let copy = RegisterCopy {
        value: filler,
        number: 77,
        echoed: true,
        readied: true,
    };
    let station = Station {
        opening: filler,
        written: 77,
        stage: Stage::Idle,
    };
    // Each table is longer than the bench asks, and holds what opening has to clear.
    let lost = Message::WriteDone {
        sender: 9,
        receiver: 9,
        number: 9,
    };
    let mut messages = [lost; 60];
    let mut votes = [Some(filler); 140];
    let mut held = [77; 70];
    let mut stations = [station; 5];
    let mut copies = [copy; 20];
    let mut reads = [77; 20];
    let mut reports = [77; 20];
    let mut tables = Tables {
        pool: Pool {
            slots: &mut messages,
            waiting: 3,
        },
        votes: &mut votes,
        held: &mut held,
        stations: &mut stations,
        copies: &mut copies,
        reads: &mut reads,
        reports: &mut reports,
    };
    let opening = Opening {
        faulty: 0b1000,
        highest: 9,
        places: 50,
        value: Number(5),
    };
    let figures = open(&mut tables, &system, &opening)?;
    assert_eq!(rt; count(&tables, &figures), (0, 0));
    assert_eq!(rt;
        begin_write(&mut tables, &figures, 0, Number(7)),
        Ok(Answer::Done)
    );
    assert_eq!(rt; count(&tables, &figures), (4, 3));
    assert_eq!(rt;
        begin_write(&mut tables, &figures, 0, Number(8)),
        Err(Decline::NotIdle)
    );
    assert_eq!(rt;
        begin_write(&mut tables, &figures, 3, Number(8)),
        Err(Decline::WrongSide)
    );
    assert_eq!(rt;
        begin_read(&mut tables, &figures, 1, 4294967296),
        Err(Decline::NoSuchStation)
    );
    let written = settle(&mut tables, &figures, &system);
    assert_eq!(rt;
        written,
        Some(Answer::WriteEnded {
            station: 0,
            number: 1
        })
    );
    // Before any other station, the faulty one tells station 1 how far it is, and too much; then it takes that back.
    assert_eq!(rt; begin_read(&mut tables, &figures, 1, 0), Ok(Answer::Done));
    let too_far = Forgery {
        kind: 6,
        sender: 3,
        receiver: 1,
        register: 0,
        number: 9,
        read: 1,
        value: Number(0),
    };
    assert_eq!(rt; forge(&mut tables, &figures, &too_far), Ok(Answer::Done));
    assert_eq!(rt;
        forge(
            &mut tables,
            &figures,
            &Forgery {
                kind: 262,
                ..too_far
            }
        ),
        Err(Decline::BadForgery)
    );
    assert_eq!(rt; count(&tables, &figures), (5, 3));
    assert_eq!(rt; withdraw(&mut tables, &figures, 3), Err(Decline::WrongSide));
    assert_eq!(rt; withdraw(&mut tables, &figures, 4), Ok(Answer::Done));
    let read = settle(&mut tables, &figures, &system);
    let returned = Answer::ReadEnded {
        station: 1,
        register: 0,
        number: 1,
        value: Number(7),
    };
    assert_eq!(rt; read, Some(returned));
    assert_eq!(rt; count(&tables, &figures), (0, 0));
    // Past what the bench asks, the tables hold what they held.
    assert!(rt; messages[50..].iter().all(|message| *message == lost));
    assert!(rt; votes[128..].iter().all(|vote| *vote == Some(filler)));
    assert!(rt; held[64..].iter().all(|number| *number == 77));
    assert!(rt; stations[4..].iter().all(|record| *record == station));
    assert!(rt; copies[16..].iter().all(|entry| *entry == copy));
    assert!(rt; reads[16..].iter().all(|number| *number == 77));
    assert!(rt; reports[16..].iter().all(|number| *number == 77));
    Ok(())
}
