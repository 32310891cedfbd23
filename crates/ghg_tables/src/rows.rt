//! Rows of tables.

ghost use Rattle.std.specs.Prelude.{◌≡◌, ◌++◌, OnOk};
ghost use Rattle.ghg_tables.specs.Texts.{cell_text, gas_word_of, identity_text, total_text, unit_word_of, year_text};

use crate::figures::{append_field, append_figures, append_figures_field};
use crate::precision::{Precision, precision_for};
use ghg_categories::{Category, code};
use ghg_cell::Input;
use ghg_equations::{EqId, Output, equation};
use ghg_units::{Name, base_word};
use itoa::Buffer;
use std::alloc::AllocError;

/// Appends the row of a line and its value.
#[tactic(auto, unfolding(crate::specs::Texts::cell_text))]
pub(crate) fn append_cell(
    out: &mut Vec<u8>,
    name: &Name,
    category: Category,
    id: EqId,
    value: &Input,
) -> Result<(), AllocError>
    ensures { OnOk result (out.new.items ≡ out.old.items ++ cell_text name.now category id value.now) }
{
    let output = equation(id).output;
    append_identity(out, name, category, id)?;
    append_field(out, gas_word(output).as_bytes())?;
    append_field(out, unit_word(output).as_bytes())?;
    append_figures(out, value, precision_for(output))?;
    out.push(b'\n')?;
    Ok(())
}

// The words of a line that no year changes, but for its gas.
#[tactic(auto, unfolding(crate::specs::Texts::identity_text))]
fn append_identity(
    out: &mut Vec<u8>,
    name: &Name,
    category: Category,
    id: EqId,
) -> Result<(), AllocError>
    ensures { OnOk result (out.new.items ≡ out.old.items ++ identity_text name.now category id) }
{
    append_field(out, name.as_bytes())?;
    append_field(out, code(category).as_bytes())?;
    append_field(out, equation(id).name.as_bytes())
}

/// Appends the row of a total, in Gg of CO2 equivalent, by its name.
#[tactic(auto, unfolding(crate::specs::Texts::total_text))]
pub(crate) fn append_total(out: &mut Vec<u8>, name: &[u8], total: &Input) -> Result<(), AllocError>
    ensures { OnOk result (out.new.items ≡ out.old.items ++ total_text name.now total.now) }
{
    append_field(out, name)?;
    append_figures(out, total, Precision::Thousandths)?;
    out.push(b'\n')?;
    Ok(())
}

/// Appends the row of a year with its national and its gross total, in Gg of CO2 equivalent.
#[tactic(auto, unfolding(crate::specs::Texts::year_text))]
pub(crate) fn append_year(
    out: &mut Vec<u8>,
    year: u32,
    total: &Input,
    gross: &Input,
) -> Result<(), AllocError>
    ensures { OnOk result (out.new.items ≡ out.old.items ++ year_text year total.now gross.now) }
{
    let mut number = Buffer::new();
    append_field(out, number.format(year).as_bytes())?;
    append_figures_field(out, total, Precision::Thousandths)?;
    append_figures(out, gross, Precision::Thousandths)?;
    out.push(b'\n')?;
    Ok(())
}

fn gas_word(output: Output) -> &'static str
    ensures { result.now ≡ gas_word_of output }
{
    match output {
        Output::Emission(gas) => gas.word(),
        Output::Aux(_) => "-",
    }
}

fn unit_word(output: Output) -> &'static str
    ensures { result.now ≡ unit_word_of output }
{
    match output {
        Output::Emission(_) => "Gg",
        Output::Aux(dim) => base_word(dim),
    }
}
