ghost use Rattle.std.specs.Prelude.{◌≡◌, IfOk, map};
ghost use Rattle.std.specs.Cmp.Lexicographic.{slice_cmp};
ghost use Rattle.std.specs.List.{list_all, list_any};
ghost use Rattle.std.specs.Option.{option_map};
ghost use Rattle.std.specs.Ordering.{is_lt, nat_cmp};
ghost use Rattle.pl_limits.specs.Limits.{are_capabilities, are_distinct, are_outputs, ascend};
ghost use Rattle.pl_limits.specs.Limits.{follows, is_file_text, is_new, is_output, may_be_granted};
ghost use Rattle.pl_limits.specs.Limits.{are_rising, by_bytes, by_length, rises, same_day};
ghost use Rattle.pl_limits.specs.Limits.{same_text};
ghost use Rattle.pl_limits.specs.Places.{are_apart};
ghost use Rattle.pl_names.specs.Names.{is_name};

use crate::places::{displaced, slices};
use pl_base::{Bytes, List, Memory, Text};
use pl_names::is_name;
use pl_rules::Day;
use std::alloc::Global;
use std::cmp::Ordering;

/// Whether a file's text has at most 262,144 bytes.
pub fn is_file_text(text: &Bytes) -> bool
    ensures { result ≡ is_file_text text.now }
{
    text.len() <= 262_144
}

/// Whether texts are names.
pub(crate) fn are_names(texts: &List<Text>) -> bool
    ensures { result ≡ list_all is_name texts.now }
{
    texts.as_slice().iter().all(|text| is_name(text.as_str()))
}

/// Whether the pipelines that may use a resource, where not all may, have names.
pub fn may_be_granted(pipelines: &Option<List<Text>>) -> bool
    ensures { result ≡ may_be_granted pipelines.now }
{
    match pipelines {
        None => true,
        Some(names) => are_names(names),
    }
}

/// Whether an agent's capabilities have names that ascend in byte order, so that none stands twice.
pub fn are_capabilities(told: &List<(Text, Text)>) -> bool
    ensures { result ≡ are_capabilities told.now }
{
    have_names(told) && ascend(told.as_slice())
}

/// Whether what stands by names has names.
fn have_names(pairs: &List<(Text, Text)>) -> bool
    ensures { result ≡ list_all (λ told. is_name told.0) pairs.now }
{
    pairs.as_slice().iter().all(|pair| is_name(pair.0.as_str()))
}

/// Whether each name comes behind the one before it.
fn ascend(pairs: &[(Text, Text)]) -> bool
    ensures { result ≡ ascend pairs.now }
{
    for (at, pair) in pairs.iter().enumerate() {
        if !follows(pairs.split_at(at).0, pair) {
            return false;
        }
    }
    true
}

/// Whether a name comes behind the last one of those before it.
fn follows(before: &[(Text, Text)], pair: &(Text, Text)) -> bool
    ensures { result ≡ follows before.now pair.now }
{
    match before.last() {
        Some(last) => comes_before(&last.0, &pair.0),
        None => true,
    }
}

/// Whether a text comes before another one, byte by byte.
fn comes_before(one: &Text, other: &Text) -> bool
    ensures { result ≡ is_lt (slice_cmp nat_cmp one.now other.now) }
{
    one.as_str().cmp(other.as_str()).is_lt()
}

/// Whether a report's outputs are within their limits: at most 100, with names of at most 200 bytes
/// and values of at most 4,096.
pub fn are_outputs(told: &List<(Text, Text)>) -> bool
    ensures { result ≡ are_outputs told.now }
{
    told.len() <= 100 && are_short(told)
}

/// Whether outputs have names of at most 200 bytes and values of at most 4,096.
fn are_short(told: &List<(Text, Text)>) -> bool
    ensures { result ≡ list_all is_output told.now }
{
    told.as_slice().iter().all(|one| is_output(one))
}

/// Whether an output is within its limits.
fn is_output(told: &(Text, Text)) -> bool
    ensures { result ≡ is_output told.now }
{
    told.0.len() <= 200 && told.1.len() <= 4096
}

/// Whether no text stands twice. Texts of which each is longer than the one before it, or as long
/// and behind it byte by byte, are gone through once, without memory. Of others those are sorted
/// whose places by their hashes another text has, and of these again, and then each comes before
/// the next.
pub(crate) fn are_distinct_texts(alloc: Global, texts: &[Text]) -> Result<bool, Memory>
    ensures { IfOk result (λ are. are ≡ are_distinct same_text texts.now) }
{
    if rise_by_length(texts) {
        return Ok(true);
    }
    match left_of(alloc, slices(alloc, texts)?)? {
        Some(some) => match left_of(alloc, some)? {
            Some(rest) => rise_sorted(rest),
            None => Ok(false),
        },
        None => Ok(false),
    }
}

/// Of texts those that a table of places leaves, all where they are too many for its numbers, or
/// none where it shows that one stands twice. Of all of them none stands twice where none of those
/// does.
fn left_of<'a>(alloc: Global, texts: Vec<&'a str>) -> Result<Option<Vec<&'a str>>, Memory>
    ensures { IfOk result (λ found.
        are_apart (option_map (λ rest. map (λ text. text.now) rest.items) found) ≡
        are_distinct same_text (map (λ text. text.now) texts.entry.items)) }
{
    if texts.len() < 65_536 {
        displaced(alloc, texts.as_slice())
    } else {
        Ok(Some(texts))
    }
}

/// Whether no text stands twice: they are sorted, and then each comes before the next.
fn rise_sorted(texts: Vec<&str>) -> Result<bool, Memory>
    ensures { IfOk result (λ are.
        are ≡ are_distinct same_text (map (λ text. text.now) texts.entry.items)) }
{
    let mut sorted = texts;
    sorted.sort()?;
    Ok(rise_by_bytes(sorted.as_slice()))
}

/// Which text comes first: the shorter one, and of two of one length by their bytes.
fn by_length(one: &str, other: &str) -> Ordering
    ensures { result ≡ by_length one.now other.now }
{
    match one.len().cmp(&other.len()) {
        Ordering::Less => Ordering::Less,
        Ordering::Equal => one.cmp(other),
        Ordering::Greater => Ordering::Greater,
    }
}

/// Whether each text comes before the next one, by their lengths first.
fn rise_by_length(texts: &[Text]) -> bool
    ensures { result ≡ are_rising by_length texts.now }
{
    match texts {
        [] => true,
        [first, rest @ ..] => lengths_rise(first.as_str(), rest),
    }
}

/// Whether each text comes before the next one, by their lengths first, from this one on.
fn lengths_rise(first: &str, rest: &[Text]) -> bool
    ensures { result ≡ rises by_length first.now rest.now }
{
    let mut last = first;
    for text in rest {
        let next = text.as_str();
        match by_length(last, next) {
            Ordering::Less => last = next,
            _ => return false,
        }
    }
    true
}

/// Whether each text comes before the next one, byte by byte.
fn rise_by_bytes(texts: &[&str]) -> bool
    ensures { result ≡ are_rising by_bytes (map (λ text. text.now) texts.now) }
{
    match texts {
        [] => true,
        [first, rest @ ..] => bytes_rise(*first, rest),
    }
}

/// Whether each text comes before the next one, byte by byte, from this one on.
fn bytes_rise(first: &str, rest: &[&str]) -> bool
    ensures { result ≡ rises by_bytes first.now (map (λ text. text.now) rest.now) }
{
    let mut last = first;
    for text in rest {
        match last.cmp(*text) {
            Ordering::Less => last = *text,
            _ => return false,
        }
    }
    true
}

/// Whether no day stands twice.
pub(crate) fn are_distinct_days(days: &[Day]) -> bool
    ensures { result ≡ are_distinct same_day days.now }
{
    for (at, day) in days.iter().enumerate() {
        if !is_new_day(days.split_at(at).0, *day) {
            return false;
        }
    }
    true
}

/// Whether a day isn't among those before it.
fn is_new_day(before: &[Day], sought: Day) -> bool
    ensures { result ≡ is_new same_day before.now sought }
{
    !is_among(before, sought)
}

/// Whether a day is among days.
fn is_among(days: &[Day], sought: Day) -> bool
    ensures { result ≡ list_any (same_day sought) days.now }
{
    days.iter().any(|day| same_day(sought, *day))
}

/// Whether two days are the same.
fn same_day(one: Day, other: Day) -> bool
    ensures { result ≡ same_day one other }
{
    one.number() == other.number()
}
