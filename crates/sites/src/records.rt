// A lent run of records, each a drive site in numbers: a site is stored among them, and the first conflict of a name is found.
ghost use Rattle.std.specs.Prelude.{◌≡◌, ◌≤◌, [], length, set, ltb};
ghost use Rattle.spec.specs.Site as site;
ghost use Rattle.sites.specs.Own.{extent_of, site_of, found_of};
ghost use Rattle.sites.specs.Run.{extent_in, site_in, sites_in, record_of, StoredBy, NameConflict};

use crate::{Coded, Extent, Full, OWN, Site};

// A site in numbers. The code is 0 for Whole, 1 for Range, 2 for Dynamic; every other is Unknown.
#[derive(Clone, Copy)]
pub(crate) struct Record {
    name: u32,
    code: u32,
    low: u32,
    high: u32,
    start: u32,
}

impl From<Site> for Record {
    ghost from_gives = { λ s r. r ≡ record_of s };

    fn from(s: Site) -> Record {
        let x = Coded::from(s.extent);
        Record {
            name: s.name,
            code: x.code,
            low: x.low,
            high: x.high,
            start: s.start,
        }
    }
}

// The extent of a record. Ranges stand first, since a pair of ranges is the common case; then what is past the other codes, so that the compiled loop
// has no choice among three codes.
#[tactic(auto, unfolding(crate::specs::Own::extent_from))]
fn extent_in(r: Record) -> Extent
    ensures { extent_of result ≡ extent_in r }
{
    if r.code == 1 {
        return Extent::Range {
            low: r.low,
            high: r.high,
        };
    }
    if 2 < r.code {
        return Extent::Unknown;
    }
    if r.code == 0 {
        return Extent::Whole;
    }
    Extent::Dynamic
}

// The site that a record stands for.
impl From<Record> for Site {
    ghost from_gives = { λ r s. site_of s ≡ site_in r };

    fn from(r: Record) -> Site {
        Site {
            name: r.name,
            extent: extent_in(r),
            start: r.start,
        }
    }
}

// Whether an earlier record's site meets a later one.
fn clash(earlier: Record, later: Site) -> bool
    ensures { result ≡ site.meets (extent_in earlier) (extent_of later.extent) }
{
    let a = extent_in(earlier);
    let b = later.extent;
    crate::meets(a, b)
}

// The record of the site stands at i afterwards, and every other stays. Past the end there is no room, and all stay.
pub(crate) fn store_site(records: &mut [Record], i: usize, s: Site) -> Result<(), Full>
    ensures { (records.new ≡ set records.old i (record_of s))
        × (sites_in records.new ≡ set (sites_in records.old) i (site_of s))
        × StoredBy (ltb i (length records.old)) result }
{
    let r = Record::from(s);
    if i < records.len() {
        records[i] = r;
        return Ok(());
    }
    Err(Full)
}

// The START of the first later record that meets an earlier one, in a run of one name's sites.
pub(crate) fn first_conflict(records: &[Record]) -> Option<u32>
    ensures { found_of result ≡ site.first_conflict [] (sites_in records.now) }
{
    let mut found = None;
    'search: for later in 0..records.len() {
        let s = Site::from(records[later]);
        for earlier in (0..later).rev() {
            if clash(records[earlier], s) {
                found = Some(s.start);
                break 'search;
            }
        }
    }
    found
}

// The START of the first later site of a name that meets an earlier one, in a table of at most N sites: the name's sites are stored in a run of
// N records, in order, and the search goes over those. Few records are sooner cleared.
pub(crate) fn conflict_of_name<const N: usize>(own: &[u32; OWN], name: u32) -> Option<u32>
    requires { N ≤ 1024 }
    ensures { NameConflict N name own.now result }
{
    let mut records = [Record {
        name: 0,
        code: 0,
        low: 0,
        high: 0,
        start: 0,
    }; N];
    let mut k: usize = 0;
    let mut i = crate::next_site(own, 0, name);
    while i < N {
        let s = crate::site_at(own, i);
        let _ = store_site(&mut records, k, s);
        i = crate::next_site(own, i + 1, name);
        k += 1;
    }
    first_conflict(&records[..k])
}
