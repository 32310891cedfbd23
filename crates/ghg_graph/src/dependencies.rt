//! Whether edits leave a ring, found from the lines alone that they lead to.

ghost use Rattle.std.specs.Prelude.{◌≡◌, ◌∷◌, [], true, is_some, IfOk, MatchResult, OnOk};
ghost use Rattle.ghg_data.specs.Changes.{applied};
ghost use Rattle.ghg_data.specs.Shelf.{IsPlanned};
ghost use Rattle.ghg_definitions.specs.Data.{Name, line};
ghost use Rattle.ghg_definitions.specs.Listed.{IsListed};
ghost use Rattle.ghg_definitions.specs.Rings.{IsAcyclic, taken};
ghost use Rattle.ghg_definitions.specs.Sound.{IsWorkbook};
ghost use Rattle.ghg_graph.specs.Dependencies.{AreLedTo, IsGathered, IsQueued, present_line, present_lines};
ghost use Rattle.ghg_graph.specs.Refusal.{IfRing, IsLeastRingOf};

use crate::numbers::{equation_of, links_of, taken_by};
use crate::ordering::named_order;
use crate::rings::CycleRefusal;
use ghg_data::{Book, Edits, Records, after, params_of};
use ghg_definitions::RecordKey;
use ghg_units::Name;
use std::alloc::{AllocError, Global};
use std::collections::BTreeSet;

// Names of lines, also in the order in which they were gathered.
#[derive(Drop)]
struct Gathered {
    names: BTreeSet<Name>,
    queue: Vec<Name>,
}

/// Checks that no lines form a ring once edits are made; otherwise returns a ring that begins with the least
/// line on any.
///
/// Reads the lines that the edits are about, the lines that these depend on, and so on; no others.
pub fn check_changed(alloc: Global, book: &Book, edits: &Edits) -> Result<(), CycleRefusal>
    requires planned { IsPlanned book.now edits.now }
    requires acyclic { IsAcyclic book.now.content }
    ensures { MatchResult result (λ _. IsAcyclic (applied book.now.content edits.now))
        (IfRing (IsLeastRingOf (applied book.now.content edits.now))) }
{
    let new = after(book, edits);
    let lines = led_to(alloc, &new, edits.keys())?;
    let links = links_of(alloc, &new, false, &lines)?;
    named_order(alloc, &lines, &links)?;
    Ok(())
}

// The lines that keys are about, the lines that these depend on, and so on, in byte order.
fn led_to<R: Records>(
    alloc: Global,
    records: &R,
    keys: &[RecordKey],
) -> Result<Vec<Name>, AllocError>
    requires { IsWorkbook (R.content records.now) }
    ensures { IfOk result (λ names. AreLedTo (R.content records.now)
        (present_lines (R.content records.now) keys.now) names.items) }
{
    let mut gathered = Gathered::new(alloc);
    gathered.add(&present_lines(alloc, records, keys)?)?;
    gathered.spread(records)?;
    gathered.names.iter().copied().collect(alloc)
}

// The lines that keys are about, themselves or a binding of theirs, and that are present.
fn present_lines<R: Records>(
    alloc: Global,
    records: &R,
    keys: &[RecordKey],
) -> Result<Vec<Name>, AllocError>
    ensures { IfOk result (λ names. names.items ≡ present_lines (R.content records.now) keys.now) }
{
    keys.iter()
        .filter_map(|key| present_line(records, key))
        .collect(alloc)
}

fn present_line<R: Records>(records: &R, key: &RecordKey) -> Option<Name>
    ensures { result ≡ present_line (R.content records.now) key.now }
{
    match key {
        RecordKey::Line(name) | RecordKey::Bind(name, _) if equation_of(records, name).is_some() =>
            Some(*name),
        _ => None,
    }
}

impl Gathered {
    fn new(alloc: Global) -> Gathered
        ensures queued { IsQueued result }
        ensures empty { result.queue.items ≡ [] }
    {
        Gathered {
            names: BTreeSet::new(alloc),
            queue: Vec::new(alloc),
        }
    }

    // Adds the lines that the gathered lines depend on, the added ones too.
    fn spread<R: Records>(&mut self, records: &R) -> Result<(), AllocError>
        requires workbook { IsWorkbook (R.content records.now) }
        requires queued { IsQueued self.old }
        requires present { (name : Name) → IsListed name self.old.queue.items →
            is_some (line (R.content records.now) name) ≡ true }
        ensures { OnOk result (AreLedTo (R.content records.now) self.old.queue.items self.new.names.keys) }
    {
        let mut next = 0;
        while next < self.queue.len() {
            let line = self.queue[next];
            self.add_taken(records, &line)?;
            next += 1;
        }
        Ok(())
    }

    // Adds the lines that a line depends on.
    fn add_taken<R: Records>(&mut self, records: &R, line: &Name) -> Result<(), AllocError>
        requires { IsQueued self.old }
        ensures { OnOk result (IsGathered (taken (R.content records.now) line.now) self.old self.new) }
    {
        let Some(id) = equation_of(records, line) else {
            return Ok(());
        };
        for param in params_of(id) {
            self.add(taken_by(false, records.bound(line, param)))?;
        }
        Ok(())
    }

    // Adds names.
    fn add(&mut self, names: &[Name]) -> Result<(), AllocError>
        requires { IsQueued self.old }
        ensures { OnOk result (IsGathered names.now self.old self.new) }
    {
        for name in names {
            self.put(*name)?;
        }
        Ok(())
    }

    // Adds a name, if it is not gathered yet.
    fn put(&mut self, name: Name) -> Result<(), AllocError>
        requires { IsQueued self.old }
        ensures { OnOk result (IsGathered (name ∷ []) self.old self.new) }
    {
        if self.names.insert(name)? {
            self.queue.push(name)?;
        }
        Ok(())
    }
}
