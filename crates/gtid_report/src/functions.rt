//! The functions of sets.
ghost use Rattle.std.specs.Prelude.{◌≡◌, Ok, decimal, string_bytes};
ghost use Rattle.std.specs.FinSet as set;
ghost use Rattle.std.specs.Option.{option_map};
ghost use Rattle.gtid_set.specs.Runs.{canonical};
ghost use Rattle.gtid_report.specs.SetFunctions.{one_set_named, two_sets_named, of_source_named, function_named};
ghost use Rattle.gtid_report.specs.SetAnswers.{Answers, set_word, source_word, set_line, small, small_line, symmetric_line, test_line, of_one, of_two, of_source, one_line, two_line, source_line, function_line};

use crate::fault::Fault;
use crate::refusal::Refusal;
use gtid_set::{GtidSet, SetTextFault};
use gtid_text::{SourceId, parse_source};
use itoa::Buffer;
use std::alloc::Global;

/// A function of one set.
#[derive(Clone, Copy, Debug, PartialEq, Eq, Drop)]
pub enum OneSet {
    Normalize,
    Count,
}

/// A function of two sets.
#[derive(Clone, Copy, Debug, PartialEq, Eq, Drop)]
pub enum TwoSets {
    Union,
    Intersect,
    Subtract,
    Symmetric,
    Subset,
    Equal,
    Disjoint,
}

/// A function of a set and a source.
#[derive(Clone, Copy, Debug, PartialEq, Eq, Drop)]
pub enum OfSource {
    Only,
    Without,
}

/// A function, by what it is given.
#[derive(Clone, Copy, Debug, PartialEq, Eq, Drop)]
pub enum Function {
    One(OneSet),
    Two(TwoSets),
    Source(OfSource),
}

fn one_set_named(name: &str) -> Option<OneSet>
    ensures { result ≡ one_set_named name.now }
{
    if name == "normalize" {
        Some(OneSet::Normalize)
    } else if name == "count" {
        Some(OneSet::Count)
    } else {
        None
    }
}

fn two_sets_named(name: &str) -> Option<TwoSets>
    ensures { result ≡ two_sets_named name.now }
{
    if name == "union" {
        Some(TwoSets::Union)
    } else if name == "intersect" {
        Some(TwoSets::Intersect)
    } else if name == "subtract" {
        Some(TwoSets::Subtract)
    } else if name == "symmetric" {
        Some(TwoSets::Symmetric)
    } else if name == "subset" {
        Some(TwoSets::Subset)
    } else if name == "equal" {
        Some(TwoSets::Equal)
    } else if name == "disjoint" {
        Some(TwoSets::Disjoint)
    } else {
        None
    }
}

fn of_source_named(name: &str) -> Option<OfSource>
    ensures { result ≡ of_source_named name.now }
{
    if name == "only" {
        Some(OfSource::Only)
    } else if name == "without" {
        Some(OfSource::Without)
    } else {
        None
    }
}

fn function_named(name: &str) -> Option<Function>
    ensures { result ≡ function_named name.now }
{
    if let Some(function) = one_set_named(name) {
        return Some(Function::One(function));
    }
    if let Some(function) = two_sets_named(name) {
        return Some(Function::Two(function));
    }
    of_source_named(name).map(Function::Source)
}

/// The set that a word parses as.
pub fn read_set(alloc: Global, word: &str) -> Result<GtidSet, Fault>
    ensures { Answers (λ s. s) result (set_word word.now) }
{
    match GtidSet::from_text(alloc, word) {
        Ok(set) => Ok(set),
        Err(SetTextFault::Text(fault)) => Err(Fault::from(fault)),
        Err(SetTextFault::Set(fault)) => Err(Fault::from(fault)),
    }
}

/// The source that a word names.
pub fn read_source(word: &str) -> Result<SourceId, Fault>
    ensures { result ≡ source_word word.now }
{
    match parse_source(word) {
        Ok(source) => Ok(source),
        Err(fault) => Err(Fault::from(fault)),
    }
}

fn text_of(alloc: Global, set: &GtidSet) -> Result<String, Fault>
    ensures { Answers string_bytes result (Ok (canonical set.now)) }
{
    Ok(set.to_text(alloc)?)
}

fn text_of_number(alloc: Global, number: u128) -> Result<String, Fault>
    ensures { Answers string_bytes result (Ok (decimal number)) }
{
    let mut buffer = Buffer::new();
    let mut line = String::new(alloc);
    line.push_str(buffer.format(number))?;
    Ok(line)
}

/// `1` for yes and `0` for no.
fn text_of_test(alloc: Global, holds: bool) -> Result<String, Fault>
    ensures { Answers string_bytes result (Ok (test_line holds)) }
{
    let mut line = String::new(alloc);
    line.push_str(if holds { "1" } else { "0" })?;
    Ok(line)
}

fn text_of_union(alloc: Global, left: &GtidSet, right: &GtidSet) -> Result<String, Fault>
    ensures { Answers string_bytes result (set_line (set.union left.now right.now)) }
{
    match left.union(alloc, right) {
        Ok(set) => text_of(alloc, &set),
        Err(fault) => Err(Fault::from(fault)),
    }
}

fn text_of_common(alloc: Global, left: &GtidSet, right: &GtidSet) -> Result<String, Fault>
    ensures { Answers string_bytes result (small_line (set.intersection left.now right.now)) }
{
    match left.intersect(alloc, right) {
        Ok(set) => text_of(alloc, &set),
        Err(fault) => Err(Fault::from(fault)),
    }
}

/// The GTIDs of the first set that the second has not.
fn less(alloc: Global, left: &GtidSet, right: &GtidSet) -> Result<GtidSet, Fault>
    ensures { Answers (λ s. s) result (small (set.difference left.now right.now)) }
{
    match left.subtract(alloc, right) {
        Ok(rest) => Ok(rest),
        Err(fault) => Err(Fault::from(fault)),
    }
}

fn text_of_less(alloc: Global, left: &GtidSet, right: &GtidSet) -> Result<String, Fault>
    ensures { Answers string_bytes result (small_line (set.difference left.now right.now)) }
{
    let set = less(alloc, left, right)?;
    text_of(alloc, &set)
}

fn text_of_symmetric(alloc: Global, left: &GtidSet, right: &GtidSet) -> Result<String, Fault>
    ensures { Answers string_bytes result (symmetric_line left.now right.now) }
{
    let first = less(alloc, left, right)?;
    let second = less(alloc, right, left)?;
    text_of_union(alloc, &first, &second)
}

fn of_one(alloc: Global, function: OneSet, set: &GtidSet) -> Result<String, Fault>
    ensures { Answers string_bytes result (of_one function set.now) }
{
    match function {
        OneSet::Normalize => text_of(alloc, set),
        OneSet::Count => text_of_number(alloc, set.count()),
    }
}

fn of_two(
    alloc: Global,
    function: TwoSets,
    left: &GtidSet,
    right: &GtidSet,
) -> Result<String, Fault>
    ensures { Answers string_bytes result (of_two function left.now right.now) }
{
    match function {
        TwoSets::Union => text_of_union(alloc, left, right),
        TwoSets::Intersect => text_of_common(alloc, left, right),
        TwoSets::Subtract => text_of_less(alloc, left, right),
        TwoSets::Symmetric => text_of_symmetric(alloc, left, right),
        TwoSets::Subset => text_of_test(alloc, left.is_subset(right)),
        TwoSets::Equal => text_of_test(alloc, left.is_equal(right)),
        TwoSets::Disjoint => text_of_test(alloc, left.is_disjoint(right)),
    }
}

fn of_source(
    alloc: Global,
    function: OfSource,
    set: &GtidSet,
    source: SourceId,
) -> Result<String, Fault>
    ensures { Answers string_bytes result (of_source function set.now source) }
{
    match function {
        OfSource::Only => {
            let kept = set.only(alloc, source)?;
            text_of(alloc, &kept)
        }
        OfSource::Without => {
            let kept = set.without(alloc, source)?;
            text_of(alloc, &kept)
        }
    }
}

fn one_line(alloc: Global, function: OneSet, a: &str, b: Option<&str>) -> Result<String, Fault>
    ensures { Answers string_bytes result (one_line function a.now (option_map (λ w. w.now) b.entry)) }
{
    match b {
        Some(_) => Err(Fault::Refused(Refusal::Usage)),
        None => {
            let set = read_set(alloc, a)?;
            of_one(alloc, function, &set)
        }
    }
}

fn two_line(alloc: Global, function: TwoSets, a: &str, b: Option<&str>) -> Result<String, Fault>
    ensures { Answers string_bytes result (two_line function a.now (option_map (λ w. w.now) b.entry)) }
{
    match b {
        None => Err(Fault::Refused(Refusal::Usage)),
        Some(b) => {
            let left = read_set(alloc, a)?;
            let right = read_set(alloc, b)?;
            of_two(alloc, function, &left, &right)
        }
    }
}

fn source_line(alloc: Global, function: OfSource, a: &str, b: Option<&str>) -> Result<String, Fault>
    ensures { Answers string_bytes result (source_line function a.now (option_map (λ w. w.now) b.entry)) }
{
    match b {
        None => Err(Fault::Refused(Refusal::Usage)),
        Some(b) => {
            let set = read_set(alloc, a)?;
            let source = read_source(b)?;
            of_source(alloc, function, &set, source)
        }
    }
}

/// The line of a function of sets, without the line feed: the function's name, its first word, and its second word if one is given.
///
/// The words are texts of sets, and the second word of `only` and `without` is a UUID. `E30` denotes an unknown name or a wrong number of
/// words, and comes before the words are read; if both words are bad, the first is named. The names are our own.
pub fn set_function(alloc: Global, name: &str, a: &str, b: Option<&str>) -> Result<String, Fault>
    ensures { Answers string_bytes result (function_line name.now a.now (option_map (λ w. w.now) b.entry)) }
{
    match function_named(name) {
        None => Err(Fault::Refused(Refusal::Usage)),
        Some(Function::One(function)) => one_line(alloc, function, a, b),
        Some(Function::Two(function)) => two_line(alloc, function, a, b),
        Some(Function::Source(function)) => source_line(alloc, function, a, b),
    }
}
