// The household count (scope, Recognising): how many different phones were sighted on a day.
//
// The sightings are two lists, one entry each: the second since 1970-01-01 UTC, and the doc id. The doc
// ids of the day's sightings are gathered first, then each is counted unless it occurs again further on;
// that takes a comparison for each two of at most 512, without a branch, and no memory of the caller's.
// `household_count` equals `household_of` of specs/Household, for lists of any length; that this is the
// number of different doc ids is `counts_each_once` of proofs/Laws.
//
// kept (5, 6): no plainer: C passes seconds and doc ids as two lists, and a struct of them would be made for one call and taken apart in it.
#![tactic(auto)]

ghost use Rattle.std.specs.Prelude.{◌≡◌, ◌≤◌, length, take};
ghost use Rattle.basics.specs.Nodes.{has};
ghost use Rattle.household.specs.Day.{day_of};
ghost use Rattle.household.specs.Household.{docs_on, different, household_values, household_of};

use arrayvec::ArrayVec;
use error::Refusal;

// How many sightings a call may have.
pub const MOST_SIGHTINGS: usize = 512;

// How many different phones were sighted on a day.
pub fn household_count(day: u64, seconds: &[u64], docs: &[u32]) -> Result<u32, Refusal>
    ensures { household_values result ≡ household_of day seconds.now docs.now }
{
    if (seconds.len() > MOST_SIGHTINGS) | (seconds.len() != docs.len()) {
        return Err(Refusal::BadSightings);
    }
    let today = sighted_on(day, seconds, docs);
    Ok(count_different(today.as_slice()) as u32)
}

// The day that a second lies in.
fn day_of(second: u64) -> u64
    ensures { result ≡ day_of second }
{
    second / 86_400
}

// The doc ids of the day's sightings, in their order.
fn sighted_on(day: u64, seconds: &[u64], docs: &[u32]) -> ArrayVec<u32, MOST_SIGHTINGS>
    requires { (length seconds.now ≡ length docs.now) × (length docs.now ≤ 512) }
    ensures { result.items ≡ docs_on day seconds.now docs.now }
{
    let mut today = ArrayVec::new();
    for (second, doc) in seconds.iter().zip(docs) {
        if day_of(*second) == day {
            today.push(*doc);
        }
    }
    today
}

// How many different numbers there are: each counts unless it stands again further on.
fn count_different(docs: &[u32]) -> usize
    ensures { result ≡ length (different docs.now) }
{
    let mut count = 0;
    for (i, doc) in docs.iter().enumerate() {
        count += usize::from(!occurs(*doc, &docs[i + 1..]));
    }
    count
}

// Whether a number stands in a list. Each is read, whatever came before it.
fn occurs(doc: u32, docs: &[u32]) -> bool
    ensures { result ≡ has doc docs.now }
{
    docs.iter()
        .fold(false, |found, other| found | (doc == *other))
}
