//! The texts of tables: printed figures, their rows, and the tables of a year.
#![tactic(auto)]

mod analyses;
mod assessments;
mod figures;
mod groups;
mod laws;
mod pairs;
mod precision;
mod printing;
mod propagation;
mod rounding;
mod rows;
mod sums;
mod table;
mod values;

pub use analyses::{append_hundredths, append_hundredths_field, append_tonnes_field};
pub use figures::{append_figures, reported};
pub use groups::{Groups, emission};
pub use laws::{
    bounds_hold, burnt_fuel_prints, limits_are_numbers, near_is_nearest, pairs_stand_in_order,
    power_plant_prints, smallest_prints,
};
pub use precision::{Precision, precision_for};
pub use printing::print;
pub use propagation::{append_emission_words, emitters, line_tonnes, uncertainty};
pub use rounding::near;
pub use sums::shown;
pub use table::{Table, table_named};
pub use values::{PairValue, grouped_values, pair_values};
