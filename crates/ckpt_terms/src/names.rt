//! The names that tasks hold, as ranges.

ghost use Rattle.std.specs.Prelude.{◌≡◌, ◌<◌, ◌≤◌, ◌+◌, ◌^◌, ℕ, [], ◌∷◌, ◌++◌, length, find, nat_le, not, true, false, None, IfOk, IfSome, OnOk, OnErr, vec_capacity, vec_len};
ghost use Rattle.std.specs.List.{list_any, range_with_len};
ghost use Rattle.std.specs.Prelude.{◌==◌};
ghost use Rattle.ckpt_ids.specs.Ordered.{IsIn};
ghost use Rattle.ckpt_memory.specs.Refusals.{one_more};
ghost use Rattle.ckpt_terms.specs.Fencing.{without_all};
ghost use Rattle.ckpt_terms.specs.Spans.{AreRanges, HasAt, IsCut, in_span, joined, names_of, ranges_of};

use ckpt_ids::{FileId, Files};
use ckpt_memory::{Meter, list};
use std::alloc::{AllocError, Global};
use std::marker::Model;

/// The names from `from` on that are below `to`.
#[derive(Clone, Copy, Debug, PartialEq, Eq)]
pub struct Span {
    /// The first.
    pub from: u64,
    /// Where they end.
    pub to: u64,
}

impl Span {
    /// Whether the name is in the range.
    fn has(&self, name: u64) -> bool
        ensures { result ≡ in_span name self.now }
    {
        self.from <= name && name < self.to
    }
}

/// Names in ascending order, kept as ranges.
///
/// A range that is added behind one that it touches makes that one longer. Names that are taken out
/// can split a range. Room for that is reserved when names are added, at
/// most 16 bytes for each name. So taking names out needs no memory.
#[derive(Debug)]
pub struct Names {
    alloc: Global,
    spans: Vec<Span>,
    // How many names they have.
    held: u64,
}

impl Drop for Names {
    fn drop(self) {
        let Names {
            alloc: _,
            spans: _,
            held: _,
        } = self;
    }
}

impl Model for Names {
    ghost use Rattle.std.specs.Prelude.{ℕ, List, vec_capacity, vec_len};
    ghost use Rattle.ckpt_terms.specs.Spans.{AreKept, names_of};

    ghost Value = { List ℕ };

    ghost view = { λ n. names_of n.spans.items };

    ghost invariant = { λ n. AreKept n.spans.items n.held (vec_len n.spans) (vec_capacity n.spans) };
}

impl Names {
    /// No names. Takes no memory.
    pub fn new(alloc: Global) -> Names
        ensures { result ≡ [] }
    {
        Names {
            alloc,
            spans: Vec::new(alloc),
            held: 0,
        }
    }

    /// The names in these ranges, of which there are this many. Fails only if memory runs out.
    ///
    /// Condition: the ranges are in ascending order, and none is empty.
    pub(crate) fn of(
        meter: &mut Meter,
        alloc: Global,
        ranges: &[Span],
        held: u64,
    ) -> Result<Names, AllocError>
        requires ranges { AreRanges ranges.now }
        requires held { length (names_of ranges.now) ≡ held }
        ensures names { IfOk result (λ names. names ≡ names_of ranges.now) }
        ensures none { OnOk result (meter.new ≡ meter.old) }
        ensures refused { OnErr result (meter.new ≡ one_more meter.old) }
    {
        let mut spans = list::from_slice(meter, alloc, ranges)?;
        make_room(meter, &mut spans, held)?;
        Ok(Names { alloc, spans, held })
    }

    /// The ranges of the names.
    pub fn ranges(&self) -> &[Span]
        ensures names { names_of result.now ≡ self.now }
        ensures ranges { AreRanges result.now }
    {
        &self.spans
    }

    /// The ranges of the names, as few as can be: no two of them touch. Fails only if memory runs
    /// out.
    pub fn copied_ranges(&self) -> Result<Vec<Span>, AllocError>
        ensures names { IfOk result (λ spans. names_of spans.items ≡ self.now) }
        ensures ranges { IfOk result (λ spans. AreRanges spans.items) }
        ensures fewest { IfOk result (λ spans. spans.items ≡ ranges_of self.now) }
    {
        self.copied_ranges_metered(&mut Meter::new())
    }

    /// [`Names::copied_ranges`], which fails exactly if one more request for memory was refused.
    pub fn copied_ranges_metered(&self, meter: &mut Meter) -> Result<Vec<Span>, AllocError>
        ensures names { IfOk result (λ spans. names_of spans.items ≡ self.now) }
        ensures ranges { IfOk result (λ spans. AreRanges spans.items) }
        ensures fewest { IfOk result (λ spans. spans.items ≡ ranges_of self.now) }
        ensures none { OnOk result (meter.new ≡ meter.old) }
        ensures refused { OnErr result (meter.new ≡ one_more meter.old) }
    {
        fewest(meter, self.alloc, &self.spans)
    }

    /// Whether the name is one of them. Makes a binary search among the ranges.
    pub fn contains(&self, name: FileId) -> bool
        ensures { result ≡ list_any (λ g. name == g) self.now }
    {
        hold(&self.spans, name)
    }

    /// The first of the files whose name is not one of these. Makes a binary search among the ranges
    /// for each file that is not in the range of the file before it.
    pub fn first_absent(&self, files: &[FileId]) -> Option<FileId>
        ensures { result ≡ find (λ f. not (list_any (λ g. f == g) self.now)) files.now }
    {
        let mut near = 0;
        for file in files {
            let Some((place, _)) = range_near(&self.spans, near, file.0) else {
                return Some(*file);
            };
            near = place;
        }
        None
    }

    /// Adds `count` names from `first` on. Fails only if memory runs out, and then changes nothing.
    ///
    /// Conditions: all names are below `first`, and the new ones at most 2^62.
    pub fn add(&mut self, first: u64, count: u64) -> Result<(), AllocError>
        requires room { first + count ≤ 2 ^ 62 }
        requires above { (f : ℕ) → IsIn f self.old → f < first }
        ensures ok { OnOk result (self.new ≡ self.old ++ range_with_len first count) }
        ensures err { OnErr result (self.new ≡ self.old) }
    {
        self.add_metered(&mut Meter::new(), first, count)
    }

    /// [`Names::add`], which fails exactly if one more request for memory was refused.
    ///
    /// Conditions: all names are below `first`, and the new ones at most 2^62.
    pub fn add_metered(
        &mut self,
        meter: &mut Meter,
        first: u64,
        count: u64,
    ) -> Result<(), AllocError>
        requires room { first + count ≤ 2 ^ 62 }
        requires above { (f : ℕ) → IsIn f self.old → f < first }
        ensures ok { OnOk result (self.new ≡ self.old ++ range_with_len first count) }
        ensures err { OnErr result (self.new ≡ self.old) }
        ensures none { OnOk result (meter.new ≡ meter.old) }
        ensures refused { OnErr result (meter.new ≡ one_more meter.old) }
    {
        if count == 0 {
            return Ok(());
        }
        let held = self.held + count;
        make_room(meter, &mut self.spans, held)?;
        join(
            &mut self.spans,
            Span {
                from: first,
                to: first + count,
            },
        );
        self.held = held;
        Ok(())
    }

    /// Takes out those of these names that are there. Takes no memory. Searches as
    /// [`Names::first_absent`] does.
    pub fn remove_all(&mut self, gone: &Files)
        ensures { self.new ≡ without_all gone.now self.old }
    {
        let numbers = gone.as_slice();
        let mut near = 0;
        for name in numbers {
            near = self.remove(*name, near);
        }
    }

    /// Takes the name out, if it is there, and looks for it first in the range at the place `near`.
    /// Returns the place at which the names behind it begin, if it was there.
    fn remove(&mut self, name: FileId, near: usize) -> usize
        ensures { self.new ≡ without_all (name ∷ []) self.old }
    {
        let Some((place, span)) = range_near(&self.spans, near, name.0) else {
            return near;
        };
        cut(&mut self.spans, place, span, name.0);
        self.held -= 1;
        if span.from < name.0 { place + 1 } else { place }
    }
}

/// The ranges of the names of these, as few as can be. Fails only if memory runs out.
///
/// Condition: the ranges are in ascending order, and none is empty.
fn fewest(meter: &mut Meter, alloc: Global, ranges: &[Span]) -> Result<Vec<Span>, AllocError>
    requires { AreRanges ranges.now }
    ensures names { IfOk result (λ spans. names_of spans.items ≡ names_of ranges.now) }
    ensures ranges { IfOk result (λ spans. AreRanges spans.items) }
    ensures fewest { IfOk result (λ spans. spans.items ≡ ranges_of (names_of ranges.now)) }
    ensures none { OnOk result (meter.new ≡ meter.old) }
    ensures refused { OnErr result (meter.new ≡ one_more meter.old) }
{
    let mut spans = list::with_capacity(meter, alloc, ranges.len())?;
    for span in ranges {
        join(&mut spans, *span);
    }
    Ok(spans)
}

/// Puts a range behind the others. If the last one ends where it begins, they become one.
///
/// Condition: there is room for one more.
fn join(spans: &mut Vec<Span>, new: Span)
    requires { vec_len spans.old < vec_capacity spans.old }
    ensures items { spans.new.items ≡ joined spans.old.items new }
    ensures len { vec_len spans.new ≤ vec_len spans.old + 1 }
    ensures capacity { vec_capacity spans.new ≡ vec_capacity spans.old }
{
    match spans.pop() {
        Some(last) if last.to == new.from => spans.push_reserved(Span {
            from: last.from,
            to: new.to,
        }),
        Some(last) => {
            spans.push_reserved(last);
            spans.push_reserved(new);
        }
        None => spans.push_reserved(new),
    }
}

/// Whether one of the ranges has the name. Makes a binary search.
///
/// Condition: the ranges are in ascending order, and none is empty.
pub(crate) fn hold(ranges: &[Span], name: FileId) -> bool
    requires { AreRanges ranges.now }
    ensures { result ≡ list_any (λ g. name == g) (names_of ranges.now) }
{
    range_with(ranges, name.0).is_some()
}

/// The same as [`range_with`]. Looks first at the range at the place `near`, because most names of an
/// acknowledgement are in one range.
///
/// Condition: the ranges are in ascending order, and none is empty.
fn range_near(spans: &[Span], near: usize, name: u64) -> Option<(usize, Span)>
    requires { AreRanges spans.now }
    ensures some { IfSome result (λ found. HasAt spans.now found.0 found.1 name) }
    ensures none { result ≡ None → list_any (in_span name) spans.now ≡ false }
{
    if near < spans.len() {
        let span = spans[near];
        if span.has(name) {
            return Some((near, span));
        }
    }
    range_with(spans, name)
}

/// The range that has this name with its place, if there is one. Makes a binary search.
///
/// Condition: the ranges are in ascending order, and none is empty.
fn range_with(spans: &[Span], name: u64) -> Option<(usize, Span)>
    requires { AreRanges spans.now }
    ensures some { IfSome result (λ found. HasAt spans.now found.0 found.1 name) }
    ensures none { result ≡ None → list_any (in_span name) spans.now ≡ false }
{
    let place = spans.partition_point(
        |span: &Span| -> bool
            ensures { result ≡ nat_le span.now.to name }
        { span.to <= name },
    );
    if place == spans.len() {
        return None;
    }
    let span = spans[place];
    if span.has(name) {
        Some((place, span))
    } else {
        None
    }
}

/// Makes room for one more range, and for as many as this many names can be split into. A growth at
/// least doubles the room. Fails only if memory runs out.
fn make_room(meter: &mut Meter, spans: &mut Vec<Span>, held: u64) -> Result<(), AllocError>
    ensures items { spans.new.items ≡ spans.old.items }
    ensures len { vec_len spans.new ≡ vec_len spans.old }
    ensures capacity { vec_capacity spans.old ≤ vec_capacity spans.new }
    ensures room { OnOk result (held + vec_len spans.old + 1 ≤ vec_capacity spans.new + vec_capacity spans.new) }
    ensures none { OnOk result (meter.new ≡ meter.old) }
    ensures refused { OnErr result (meter.new ≡ one_more meter.old) }
{
    let room = held as usize / 2 + spans.len() / 2 + 2;
    let more = room.saturating_sub(spans.len());
    list::reserve(meter, spans, more)
}

/// Takes a name out of the range at this place, which may split it.
///
/// Conditions: the ranges are in ascending order, none is empty, this one is at the place and has
/// the name, and there is room for as many ranges as the names can be split into.
fn cut(spans: &mut Vec<Span>, place: usize, span: Span, name: u64)
    requires at { HasAt spans.old.items place span name }
    requires ranges { AreRanges spans.old.items }
    requires room { length (names_of spans.old.items) + vec_len spans.old ≤ vec_capacity spans.old + vec_capacity spans.old }
    ensures cut { IsCut spans.old.items spans.new.items name }
    ensures room { length (names_of spans.new.items) + vec_len spans.new ≤ vec_capacity spans.new + vec_capacity spans.new }
{
    let before = Span {
        from: span.from,
        to: name,
    };
    let after = Span {
        from: name + 1,
        to: span.to,
    };
    match (before.from < before.to, after.from < after.to) {
        (false, false) => {
            spans.remove(place);
        }
        (true, false) => spans[place] = before,
        (false, true) => spans[place] = after,
        (true, true) => {
            spans[place] = after;
            match spans.insert(place, before) {
                Ok(()) => (),
                Err(_) => unreachable!(),
            }
        }
    }
}
