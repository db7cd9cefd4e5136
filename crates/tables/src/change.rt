//! Changing one part of the tables. Each function says which state the tables show afterwards.
ghost use Rattle.std.specs.Prelude.{◌≡◌, ◌+◌, ◌<◌, ◌≤◌, [], ◌∷◌};
ghost use Rattle.machine.specs.State.{fresh_cell, put_triple, remove, send, with_cell, with_held, with_reads, with_report, with_stage, with_written};
ghost use Rattle.machine.specs.Calls.{Names, at_opening};
ghost use Rattle.tables.specs.View.{view, Room, Sound, Becomes};
ghost use Rattle.tables.specs.Changes.{vote, with_no_votes, with_copy, SendsEach};

use crate::lent::{Tables, VoteKind};
use grid::{pair_index, triple_index, vote_index, votes_index};
use machine::figures::Figures;
use machine::message::Message;
use machine::station::{RegisterCopy, Stage, Station};
use slices::{fill, put};

impl<'a, V: Copy> Tables<'a, V> {
    pub fn set_copy(&mut self, figures: &Figures<V>, i: usize, j: usize, copy: RegisterCopy<V>)
        requires sound { Sound figures.now self.old }
        requires station { i < figures.now.stations }
        requires register { j < figures.now.stations }
        ensures shows { Becomes figures.now self.old self.new (with_copy i j copy (view figures.now self.old)) }
        ensures waiting { self.new.pool.waiting ≡ self.old.pool.waiting }
    {
        self.copies[pair_index(figures.stations, i, j)] = copy;
    }

    // Station k's first vote at station i for the publication of register j that i works on.
    pub fn set_vote(
        &mut self,
        figures: &Figures<V>,
        kind: VoteKind,
        i: usize,
        j: usize,
        k: usize,
        v: V,
    )
        requires sound { Sound figures.now self.old }
        requires station { i < figures.now.stations }
        requires register { j < figures.now.stations }
        requires voter { k < figures.now.stations }
        ensures shows { Becomes figures.now self.old self.new (with_cell i j (vote kind k v ((view figures.now self.old).cell i j)) (view figures.now self.old)) }
        ensures waiting { self.new.pool.waiting ≡ self.old.pool.waiting }
    {
        let at = vote_index(figures.stations, kind.half(), i, j, k);
        put(self.votes, at, Some(v));
    }

    // Votes of a kind at station i for register j are no longer kept.
    fn clear_votes(&mut self, figures: &Figures<V>, kind: VoteKind, i: usize, j: usize)
        requires sound { Sound figures.now self.old }
        requires station { i < figures.now.stations }
        requires register { j < figures.now.stations }
        ensures shows { Becomes figures.now self.old self.new (with_no_votes kind i j (view figures.now self.old)) }
        ensures waiting { self.new.pool.waiting ≡ self.old.pool.waiting }
    {
        let first = votes_index(figures.stations, kind.half(), i, j);
        fill(self.votes, first, figures.stations, None);
    }

    // Station i's copy of register j is a new one, with which it has sent nothing and nobody has voted.
    pub fn renew(&mut self, figures: &Figures<V>, i: usize, j: usize, number: u64, value: V)
        requires sound { Sound figures.now self.old }
        requires station { i < figures.now.stations }
        requires register { j < figures.now.stations }
        ensures shows { Becomes figures.now self.old self.new (with_cell i j (fresh_cell value number) (view figures.now self.old)) }
        ensures waiting { self.new.pool.waiting ≡ self.old.pool.waiting }
    {
        self.clear_votes(figures, VoteKind::Echo, i, j);
        self.clear_votes(figures, VoteKind::Ready, i, j);
        let copy = RegisterCopy {
            value,
            number,
            echoed: false,
            readied: false,
        };
        self.set_copy(figures, i, j, copy);
    }

    pub fn set_stage(&mut self, figures: &Figures<V>, i: usize, stage: Stage<V>)
        requires sound { Sound figures.now self.old }
        requires station { i < figures.now.stations }
        ensures shows { Becomes figures.now self.old self.new (with_stage i stage (view figures.now self.old)) }
        ensures waiting { self.new.pool.waiting ≡ self.old.pool.waiting }
    {
        self.stations[i].stage = stage;
    }

    // The number of station i's last write.
    pub fn set_written(&mut self, figures: &Figures<V>, i: usize, number: u64)
        requires sound { Sound figures.now self.old }
        requires station { i < figures.now.stations }
        ensures shows { Becomes figures.now self.old self.new (with_written i number (view figures.now self.old)) }
        ensures waiting { self.new.pool.waiting ≡ self.old.pool.waiting }
    {
        self.stations[i].written = number;
    }

    // The number of station i's last reading of register j.
    pub fn set_read_number(&mut self, figures: &Figures<V>, i: usize, j: usize, read: u64)
        requires sound { Sound figures.now self.old }
        requires station { i < figures.now.stations }
        requires register { j < figures.now.stations }
        ensures shows { Becomes figures.now self.old self.new (with_reads i j read (view figures.now self.old)) }
        ensures waiting { self.new.pool.waiting ≡ self.old.pool.waiting }
    {
        self.reads[pair_index(figures.stations, i, j)] = read;
    }

    // What station k reported to station i.
    pub fn set_report(&mut self, figures: &Figures<V>, i: usize, k: usize, number: u64)
        requires sound { Sound figures.now self.old }
        requires station { i < figures.now.stations }
        requires reporting { k < figures.now.stations }
        ensures shows { Becomes figures.now self.old self.new (with_report i k number (view figures.now self.old)) }
        ensures waiting { self.new.pool.waiting ≡ self.old.pool.waiting }
    {
        self.reports[pair_index(figures.stations, i, k)] = number;
    }

    // The number for which station k awaits station i's catch-up answer about register j.
    pub fn set_held(&mut self, figures: &Figures<V>, i: usize, k: usize, j: usize, number: u64)
        requires sound { Sound figures.now self.old }
        requires station { i < figures.now.stations }
        requires awaiting { k < figures.now.stations }
        requires register { j < figures.now.stations }
        ensures shows { Becomes figures.now self.old self.new (with_held (put_triple i k j number (view figures.now self.old).held) (view figures.now self.old)) }
        ensures waiting { self.new.pool.waiting ≡ self.old.pool.waiting }
    {
        self.held[triple_index(figures.stations, i, k, j)] = number;
    }

    // The message at a place of the pool leaves.
    pub fn remove(&mut self, figures: &Figures<V>, place: usize)
        requires sound { Sound figures.now self.old }
        requires waits { place < self.old.pool.waiting }
        ensures shows { Becomes figures.now self.old self.new (remove place (view figures.now self.old)) }
        ensures waiting { self.new.pool.waiting + 1 ≡ self.old.pool.waiting }
    {
        self.pool.remove(place);
    }

    // A message joins the pool.
    pub fn send(&mut self, figures: &Figures<V>, message: Message<V>)
        requires sound { Sound figures.now self.old }
        requires room { self.old.pool.waiting < figures.now.places }
        requires named { Names figures.now.stations message }
        ensures shows { Becomes figures.now self.old self.new (send (message ∷ []) (view figures.now self.old)) }
        ensures waiting { self.new.pool.waiting ≡ self.old.pool.waiting + 1 }
    {
        self.pool.join(message);
    }

    // A message to each station joins the pool, from station 0 on.
    pub fn send_each<F: Fn(usize) -> Message<V>>(&mut self, figures: &Figures<V>, message: F)
        requires sound { Sound figures.now self.old }
        requires callable { F.IsAlwaysCallable message }
        requires room { self.old.pool.waiting + figures.now.stations ≤ figures.now.places }
        ensures shows { SendsEach figures.now (F.post message) self.old self.new }
        ensures waiting { self.new.pool.waiting ≡ self.old.pool.waiting + figures.now.stations }
    {
        self.pool.join_each(figures.stations, message);
    }

    // The tables of a bench that has just been opened.
    pub fn clear(&mut self, figures: &Figures<V>)
        requires { Room figures.now self.old }
        ensures { Becomes figures.now self.old self.new (at_opening figures.now) }
    {
        let n = figures.stations;
        let copy = RegisterCopy {
            value: figures.opening,
            number: 0,
            echoed: false,
            readied: false,
        };
        let station = Station {
            opening: figures.opening,
            written: 0,
            stage: Stage::Idle,
        };
        self.pool.clear();
        fill(self.votes, 0, 2 * n * n * n, None);
        fill(self.held, 0, n * n * n, 0);
        fill(self.stations, 0, n, station);
        fill(self.copies, 0, n * n, copy);
        fill(self.reads, 0, n * n, 0);
        fill(self.reports, 0, n * n, 0);
    }
}
