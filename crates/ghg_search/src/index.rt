//! Which lines name an activity, a factor or a line.

ghost use Rattle.std.specs.Prelude.{◌≡◌, [], map, option_copied, OnOk};
ghost use Rattle.std.specs.FinMap.{empty};
ghost use Rattle.std.specs.List.{list_any};
ghost use Rattle.std.specs.Str.{bytes_eq};
ghost use Rattle.ghg_definitions.specs.declared.record.Record.{Record};
ghost use Rattle.ghg_definitions.specs.Data.{Data, Name, key_cmp};
ghost use Rattle.ghg_definitions.specs.Listed.{IsListed};
ghost use Rattle.ghg_search.specs.Index.{DifferAt, HasUser, HasUsers, IsUnderAll, IsUnderBy, Keeps, KeepsBut, is_named, is_potential, named_by, names_bound, users_of};

use ghg_data::{Records, params_of};
use ghg_definitions::RecordKey;
use ghg_equations::Gas;
use ghg_graph::{equation_of, line_gas};
use ghg_units::{Binding, Name};
use std::alloc::{AllocError, Global};
use std::collections::BTreeMap;

/// What a line can name.
#[derive(Clone, Copy, PartialEq, Eq, PartialOrd, Ord)]
pub enum Source {
    /// An activity.
    Activity(Name),
    /// A factor, also where its decay is taken, or where it is the warming potential of a gas.
    Factor(Name),
    /// A line of which the value of the same year is taken, alone or in a sum.
    Line(Name),
    /// A line of which the value of the year before is taken.
    Previous(Name),
}

/// Under each source the lines that name it, in byte order. There may be more, and never fewer: so it can
/// grow before edits are made. A source from under which the last line is taken out is taken out too.
#[derive(Drop)]
pub struct Index {
    users: BTreeMap<Source, Vec<Name>>,
}

impl Index {
    /// The index of a workbook without lines. It takes no memory.
    pub fn new(alloc: Global) -> Index
        ensures { HasUsers (empty {X = Record} {R = key_cmp}) result }
    {
        Index {
            users: BTreeMap::new(alloc),
        }
    }

    /// The lines that name a source, and maybe others.
    pub fn users(&self, source: &Source) -> &[Name]
        ensures { result.now ≡ users_of self.now source.now }
    {
        match self.users.get(source) {
            Some(lines) => lines.as_slice(),
            None => &[],
        }
    }

    /// Adds what lines name by the records of the keys: all that a line names, if its own record is one of
    /// them, and what a binding names. Where the records differ from others at the keys alone, an index of
    /// those is then one of these, and still one of those.
    pub fn add<R: Records>(&mut self, records: &R, keys: &[RecordKey]) -> Result<(), AllocError>
        ensures kept { (m : Data) → HasUsers m self.old → HasUsers m self.new }
        ensures added { OnOk result ((m : Data) → DifferAt keys.now m (R.content records.now) →
            HasUsers m self.old → HasUsers (R.content records.now) self.new) }
    {
        for key in keys {
            self.put_key(records, key)?;
        }
        Ok(())
    }

    /// Takes out lines from under what they name by the records of the keys in others, if they do not name it
    /// in these. It takes no memory.
    pub fn prune<R: Records, S: Records>(&mut self, records: &R, others: &S, keys: &[RecordKey])
        ensures { HasUsers (R.content records.now) self.old → HasUsers (R.content records.now) self.new }
    {
        for key in keys {
            self.cut_key(records, others, key);
        }
    }

    // Takes out a line from under what it names by the record of a key in the others.
    fn cut_key<R: Records, S: Records>(&mut self, records: &R, others: &S, key: &RecordKey)
        ensures { HasUsers (R.content records.now) self.old → HasUsers (R.content records.now) self.new }
    {
        match key {
            RecordKey::Line(name) => self.cut_line(records, others, name),
            RecordKey::Bind(name, parameter) => {
                self.cut_named(records, others.binding(name, parameter), name);
            }
            _ => {}
        }
    }

    // Takes out a line from under what it names in the others.
    fn cut_line<R: Records, S: Records>(&mut self, records: &R, others: &S, line: &Name)
        ensures { HasUsers (R.content records.now) self.old → HasUsers (R.content records.now) self.new }
    {
        let Some(id) = equation_of(others, line) else {
            return;
        };
        for param in params_of(id) {
            self.cut_named(records, others.bound(line, param), line);
        }
        if let Some(gas) = line_gas(others, line) {
            self.cut(records, Source::Factor(Name::potential(gas)), line);
        }
    }

    // Takes out a line from under what a binding names.
    fn cut_named<R: Records>(&mut self, records: &R, binding: Option<&Binding>, line: &Name)
        ensures { HasUsers (R.content records.now) self.old → HasUsers (R.content records.now) self.new }
    {
        match binding {
            Some(Binding::Activity(name)) => self.cut(records, Source::Activity(*name), line),
            Some(Binding::Factor(name) | Binding::Decay(name)) => {
                self.cut(records, Source::Factor(*name), line);
            }
            Some(Binding::Line(name)) => self.cut(records, Source::Line(*name), line),
            Some(Binding::Prev(name)) => self.cut(records, Source::Previous(*name), line),
            Some(Binding::Sum(names)) => self.cut_sum(records, names.as_slice(), line),
            _ => {}
        }
    }

    // Takes out a line from under the lines that it adds.
    fn cut_sum<R: Records>(&mut self, records: &R, names: &[Name], line: &Name)
        ensures { HasUsers (R.content records.now) self.old → HasUsers (R.content records.now) self.new }
    {
        for name in names {
            self.cut(records, Source::Line(*name), line);
        }
    }

    // Takes out a line from under a source, unless it names it.
    fn cut<R: Records>(&mut self, records: &R, source: Source, line: &Name)
        ensures { HasUsers (R.content records.now) self.old → HasUsers (R.content records.now) self.new }
    {
        if names_bound(records, line, &source) || is_potential(line_gas(records, line), &source) {
            return;
        }
        self.cut_user(&source, line);
        self.drop_unused(&source);
    }

    // Takes out a line from under a source.
    fn cut_user(&mut self, source: &Source, line: &Name)
        ensures { KeepsBut source.now line.now self.old self.new }
    {
        let Some(lines) = self.users.get_mut(source) else {
            return;
        };
        cut_name(lines, line);
    }

    // Takes out a source that no line stands under.
    fn drop_unused(&mut self, source: &Source)
        ensures { Keeps self.old self.new }
    {
        if self.users(source).is_empty() {
            self.users.remove(source);
        }
    }

    // Puts a line under what it names by the record of a key.
    fn put_key<R: Records>(&mut self, records: &R, key: &RecordKey) -> Result<(), AllocError>
        ensures kept { Keeps self.old self.new }
        ensures put { OnOk result (IsUnderBy (R.content records.now) self.new key.now) }
    {
        match key {
            RecordKey::Line(name) => self.put_line(records, name),
            RecordKey::Bind(name, parameter) => {
                self.put_named(records.binding(name, parameter), name)
            }
            _ => Ok(()),
        }
    }

    // Puts a line under all that it names.
    fn put_line<R: Records>(&mut self, records: &R, line: &Name) -> Result<(), AllocError>
        ensures kept { Keeps self.old self.new }
        ensures put { OnOk result (IsUnderAll (R.content records.now) self.new line.now) }
    {
        let Some(id) = equation_of(records, line) else {
            return Ok(());
        };
        for param in params_of(id) {
            self.put_named(records.bound(line, param), line)?;
        }
        match line_gas(records, line) {
            Some(gas) => self.put(Source::Factor(Name::potential(gas)), line),
            None => Ok(()),
        }
    }

    // Puts a line under all that a binding names.
    fn put_named(&mut self, binding: Option<&Binding>, line: &Name) -> Result<(), AllocError>
        ensures kept { Keeps self.old self.new }
        ensures put { OnOk result ((s : Source) → IsListed s (named_by (option_copied binding.entry)) →
            HasUser self.new s line.now) }
    {
        match binding {
            Some(Binding::Activity(name)) => self.put(Source::Activity(*name), line),
            Some(Binding::Factor(name) | Binding::Decay(name)) => {
                self.put(Source::Factor(*name), line)
            }
            Some(Binding::Line(name)) => self.put(Source::Line(*name), line),
            Some(Binding::Prev(name)) => self.put(Source::Previous(*name), line),
            Some(Binding::Sum(names)) => self.put_sum(names.as_slice(), line),
            _ => Ok(()),
        }
    }

    // Puts a line under the lines that it adds.
    fn put_sum(&mut self, names: &[Name], line: &Name) -> Result<(), AllocError>
        ensures kept { Keeps self.old self.new }
        ensures put { OnOk result ((s : Source) → IsListed s (map (λ name. Source.Line name) names.now) →
            HasUser self.new s line.now) }
    {
        for name in names {
            self.put(Source::Line(*name), line)?;
        }
        Ok(())
    }

    // Puts a line under a source, unless it stands there.
    fn put(&mut self, source: Source, line: &Name) -> Result<(), AllocError>
        ensures kept { Keeps self.old self.new }
        ensures put { OnOk result (HasUser self.new source line.now) }
    {
        let lines = self.users.entry(source)?.or_default();
        put_name(lines, line)
    }
}

// Puts a name in its place among others, unless it is one of them.
fn put_name(names: &mut Vec<Name>, name: &Name) -> Result<(), AllocError>
    ensures kept { (other : Name) → IsListed other names.old.items → IsListed other names.new.items }
    ensures put { OnOk result (IsListed name.now names.new.items) }
{
    match names.binary_search(name) {
        Ok(_) => Ok(()),
        Err(place) => {
            names.insert(place, *name)?;
            Ok(())
        }
    }
}

// Takes a name out of others, if it is one of them.
fn cut_name(names: &mut Vec<Name>, name: &Name)
    ensures { (other : Name) → (other ≡ name.now → ⊥) → IsListed other names.old.items →
        IsListed other names.new.items }
{
    let Ok(place) = names.binary_search(name) else {
        return;
    };
    names.remove(place);
}

/// Whether one of a line's bindings names a source.
pub(crate) fn names_bound<R: Records>(records: &R, line: &Name, source: &Source) -> bool
    ensures { result ≡ names_bound (R.content records.now) source.now line.now }
{
    let Some(id) = equation_of(records, line) else {
        return false;
    };
    for param in params_of(id) {
        if is_named(records.bound(line, param), source) {
            return true;
        }
    }
    false
}

fn is_named(binding: Option<&Binding>, source: &Source) -> bool
    ensures { result ≡ is_named source.now (option_copied binding.entry) }
{
    match (binding, source) {
        (Some(Binding::Activity(name)), Source::Activity(other)) => name == other,
        (Some(Binding::Factor(name)), Source::Factor(other)) => name == other,
        (Some(Binding::Decay(name)), Source::Factor(other)) => name == other,
        (Some(Binding::Line(name)), Source::Line(other)) => name == other,
        (Some(Binding::Prev(name)), Source::Previous(other)) => name == other,
        (Some(Binding::Sum(names)), Source::Line(other)) => has_name(names.as_slice(), other),
        _ => false,
    }
}

fn has_name(lines: &[Name], name: &Name) -> bool
    ensures { result ≡ list_any (λ line. bytes_eq line name.now) lines.now }
{
    lines.iter().any(|line| line == name)
}

/// Whether a source is the warming potential of a gas.
pub(crate) fn is_potential(gas: Option<Gas>, source: &Source) -> bool
    ensures { result ≡ is_potential source.now gas }
{
    match (gas, source) {
        (Some(gas), Source::Factor(name)) => Name::potential(gas) == *name,
        _ => false,
    }
}
