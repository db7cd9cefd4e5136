//! Reading the tables.
ghost use Rattle.std.specs.Prelude.{◌≡◌, ◌<◌, ◌&&◌, length, nat_le, slice_get, slice_index_or};
ghost use Rattle.station_set.specs.Sets.{has, set_of};
ghost use Rattle.value.specs.Holders.{keeps};
ghost use Rattle.machine.specs.Operations.{fresh_reports};
ghost use Rattle.tables.specs.View.{view, votes_of, Sound};

use crate::lent::{Tables, VoteKind};
use grid::{pair_index, triple_index, vote_index, votes_index};
use machine::figures::Figures;
use machine::message::Message;
use machine::station::{RegisterCopy, Station};
use station_set::{contains, set_of};
use value::{Value, holders};

impl<'a, V: Copy> Tables<'a, V> {
    // Station i's copy of register j.
    pub fn copy(&self, figures: &Figures<V>, i: usize, j: usize) -> RegisterCopy<V>
        requires sound { Sound figures.now self.now }
        requires station { i < figures.now.stations }
        requires register { j < figures.now.stations }
        ensures { result ≡ ((view figures.now self.now).cell i j).copy }
    {
        self.copies[pair_index(figures.stations, i, j)]
    }

    pub fn station(&self, figures: &Figures<V>, i: usize) -> Station<V>
        requires sound { Sound figures.now self.now }
        requires station { i < figures.now.stations }
        ensures { result ≡ (view figures.now self.now).station i }
    {
        self.stations[i]
    }

    // The number of station i's last reading of register j.
    pub fn read_number(&self, figures: &Figures<V>, i: usize, j: usize) -> u64
        requires sound { Sound figures.now self.now }
        requires station { i < figures.now.stations }
        requires register { j < figures.now.stations }
        ensures { result ≡ (view figures.now self.now).reads i j }
    {
        self.reads[pair_index(figures.stations, i, j)]
    }

    // The number for which station k awaits station i's catch-up answer about register j.
    pub fn held_number(&self, figures: &Figures<V>, i: usize, k: usize, j: usize) -> u64
        requires sound { Sound figures.now self.now }
        requires station { i < figures.now.stations }
        requires awaiting { k < figures.now.stations }
        requires register { j < figures.now.stations }
        ensures { result ≡ (view figures.now self.now).held i k j }
    {
        self.held[triple_index(figures.stations, i, k, j)]
    }

    // Station k's first vote at station i for the publication of register j that i works on.
    pub fn vote(
        &self,
        figures: &Figures<V>,
        kind: VoteKind,
        i: usize,
        j: usize,
        k: usize,
    ) -> Option<V>
        requires sound { Sound figures.now self.now }
        requires station { i < figures.now.stations }
        requires register { j < figures.now.stations }
        requires voter { k < figures.now.stations }
        ensures { result ≡ votes_of kind ((view figures.now self.now).cell i j) k }
    {
        self.votes[vote_index(figures.stations, kind.half(), i, j, k)]
    }

    // Those of the stations that reported to station i whose report is at most x.
    pub fn fresh_reports(&self, figures: &Figures<V>, i: usize, reported: u16, x: u64) -> u16
        requires sound { Sound figures.now self.now }
        requires station { i < figures.now.stations }
        ensures { result ≡ fresh_reports figures.now.stations x reported ((view figures.now self.now).reports i) }
    {
        let at = pair_index(figures.stations, i, 0);
        let row = &self.reports[at..at + figures.stations];
        set_of(
            figures.stations,
            |k|
                requires { k < length row.now }
                ensures { result ≡ (has reported k && nat_le (slice_index_or row.entry.now k 0) x) }
            { contains(reported, k) && row[k] <= x },
        )
    }

    // The message at a place of the pool.
    pub fn message(&self, figures: &Figures<V>, place: usize) -> Option<Message<V>>
        requires { Sound figures.now self.now }
        ensures { result ≡ slice_get (view figures.now self.now).pool place }
    {
        self.pool.get(place)
    }
}

impl<'a, V: Value> Tables<'a, V> {
    // The stations whose vote of a kind is v.
    pub fn voters(&self, figures: &Figures<V>, kind: VoteKind, i: usize, j: usize, v: V) -> u16
        requires sound { Sound figures.now self.now }
        requires station { i < figures.now.stations }
        requires register { j < figures.now.stations }
        ensures { result ≡ set_of figures.now.stations (λ k. keeps V.equal v (votes_of kind ((view figures.now self.now).cell i j) k)) }
    {
        let at = votes_index(figures.stations, kind.half(), i, j);
        holders(&self.votes[at..at + figures.stations], v)
    }
}
