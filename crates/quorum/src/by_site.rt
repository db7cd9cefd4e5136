//! Quorums by site: the stations of one site may be faulty together.
ghost use Rattle.std.specs.Prelude.{◌≡◌, ℕ, ◌<◌, ◌≤◌, true, false, length, take, is_ok, Decides, MatchOption, MatchResult, nat_le};
ghost use Rattle.std.specs.List.{find};
ghost use Rattle.decline.specs.Numbers.{number_of};
ghost use Rattle.station_set.specs.Sets.{has};
ghost use Rattle.quorum.specs.SiteSets.{site_of, share_site, by_site, SitesInWords, occurs, sites_occurring, SiteLimits, sites_bar};
ghost use Rattle.quorum.specs.Reasons.{decline_of, MadeUnless, DeclinedWith};
ghost use Rattle.std.proofs.Common.{arith};
ghost use Rattle.quorum.specs.SiteLaws.{sites_bounded, sites_seated, sites_empty, sites_subset, sites_superset, sites_overlap, sites_outside};

use crate::unfit::Unfit;
use crate::{MOST_STATIONS, QuorumSystem};
use station_set::{contains, is_among, missing};
use std::array;

// Site numbers are 0 to 9.
const SITES: u64 = 10;

// So many different sites have to occur.
const FEWEST_SITES: usize = 4;

// Station s stands at the site `sites[s]`; the places from n up are not used. The table has a fixed size, and is no Vec,
// since a system is copied, and making one never runs out of memory. There is no `==`: it would compare the unused places.
#[derive(Clone, Copy, Debug)]
pub struct BySite {
    n: usize,
    sites: [u8; MOST_STATIONS],
    ghost some: { 1 ≤ n },
    ghost most: { n ≤ 10 },
    ghost four: { 4 ≤ sites_occurring sites n },
}

// Whether each member of the set stands at the site.
fn all_at(sites: &[u8], set: u16, site: u8) -> bool
    ensures { Decides result ((s : ℕ) → s < length sites.now → has set s ≡ true → site_of sites.now s ≡ site) }
{
    sites
        .iter()
        .enumerate()
        .all(|(s, at)| !contains(set, s) || *at == site)
}

// The first of the n stations that is in the set.
fn first_member(n: usize, set: u16) -> Option<usize>
    ensures { MatchOption result ((s : ℕ) → s < n → has set s ≡ false) (λ first. (first < n) × (has set first ≡ true)) }
{
    (0..n).find(|s| contains(set, *s))
}

// Whether any two members of the set share their site.
fn shares_site(sites: &[u8], set: u16) -> bool
    ensures { result ≡ share_site sites.now (length sites.now) set }
{
    match first_member(sites.len(), set) {
        Some(first) => all_at(sites, set, sites[first]),
        None => true,
    }
}

// Whether a station stands at the site.
fn site_occurs(sites: &[u64], site: u64) -> bool
    ensures { result ≡ occurs sites.now (length sites.now) site }
{
    sites.contains(&site)
}

// How many sites occur.
fn count_sites(sites: &[u64]) -> usize
    ensures { result ≡ sites_occurring sites.now (length sites.now) }
{
    (0..SITES).filter(|site| site_occurs(sites, *site)).count()
}

// The first number in the list that no site has. `known` says what that means for each number in it.
fn first_unknown(sites: &[u64]) -> Option<u64>
    ensures first { result ≡ find (nat_le 10) sites.now }
    ensures known { MatchOption result ((s : ℕ) → s < length sites.now → site_of sites.now s < 10) (λ site. (s : ℕ) × (s < length sites.now) × (10 ≤ site_of sites.now s)) }
{
    sites.iter().copied().find(|site| *site >= SITES)
}

// Err with the first limit that the list breaks.
fn check_limits(sites: &[u64]) -> Result<(), Unfit>
    ensures answer { MadeUnless (sites_bar sites.now) (λ _. Unit {0}) result }
    ensures limits { MatchResult result (λ _. SiteLimits sites.now) (λ reason. (SiteLimits sites.now → ⊥) × (number_of (decline_of reason) ≡ 14)) }
{
    if sites.is_empty() {
        return Err(Unfit::NoStations);
    }
    if sites.len() > MOST_STATIONS {
        return Err(Unfit::TooManyStations);
    }
    if let Some(site) = first_unknown(sites) {
        return Err(Unfit::NoSuchSite(site));
    }
    if count_sites(sites) < FEWEST_SITES {
        return Err(Unfit::TooFewSites);
    }
    Ok(())
}

// The table of the sites.
fn table_of(sites: &[u64]) -> [u8; MOST_STATIONS]
    requires { (length sites.now ≤ 10) × ((s : ℕ) → s < length sites.now → site_of sites.now s < 10) }
    ensures front { take (length sites.now) result ≡ sites.now }
    ensures occurring { sites_occurring result (length sites.now) ≡ sites_occurring sites.now (length sites.now) }
{
    array::from_fn(|s| sites.get(s).map_or(0, |site| *site as u8))
}

impl BySite {
    // The system whose station s stands at the site `sites[s]`; at least four sites occur.
    pub fn new(sites: &[u64]) -> Result<BySite, Unfit>
        ensures answer { MadeUnless (sites_bar sites.now) (λ q. (q.n ≡ length sites.now) × (take q.n q.sites ≡ sites.now)) result }
        ensures declined { DeclinedWith 14 result }
        ensures limits { Decides (is_ok result) (SiteLimits sites.now) }
    {
        check_limits(sites)?;
        Ok(BySite {
            n: sites.len(),
            sites: table_of(sites),
        })
    }

    // The site of each station.
    fn sites(&self) -> &[u8]
        ensures { result.now ≡ take self.now.n self.now.sites }
    {
        &self.sites[..self.n]
    }
}

impl QuorumSystem for BySite {
    ghost families = { λ q. by_site q.sites q.n };

    ghost sized = { λ q. omega arith };

    ghost bounded = { λ q. sites_bounded q.sites q.n (omega arith) };

    ghost seated = { λ q. sites_seated q.sites q.n (omega arith) };

    ghost empty = { λ q. sites_empty q.sites q.n (omega arith) };

    ghost subset = { λ q. sites_subset q.sites q.n (omega arith) };

    ghost superset = { λ q. sites_superset q.sites q.n (omega arith) };

    ghost overlap = { λ q. sites_overlap q.sites q.n (omega arith) q.four };

    ghost outside = { λ q. sites_outside q.sites q.n (omega arith) };

    fn size(&self) -> usize {
        self.n
    }

    fn is_allowed(&self, set: u16) -> bool {
        is_among(self.n, set) && shares_site(self.sites(), set)
    }

    fn is_quorum(&self, set: u16) -> bool {
        is_among(self.n, set) && self.is_allowed(missing(self.n, set))
    }
}

// Does nothing: its contract says in words which sets are allowed, and which are quorums.
pub fn sites_in_words()
    ensures { SitesInWords }
{}
