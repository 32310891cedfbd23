//! The parameters of the equations.

ghost use Rattle.std.specs.Prelude.{◌≡◌, true, map};
ghost use Rattle.std.specs.List.{AllByRecursion};
ghost use Rattle.ghg_equations.specs.Table.{parameters};
ghost use Rattle.ghg_units.specs.Parameter.{is_parameter};
ghost use Rattle.ghg_data.specs.Parameters.{quantity};

use ghg_equations::{EqId, Param, equation};
use ghg_units::ParamName;

/// The parameters of an equation, in the order in which its expression takes them. Each is named as a
/// parameter.
pub fn params_of(id: EqId) -> &'static [Param]
    ensures table { map quantity result.now ≡ parameters id }
    ensures names { AllByRecursion (λ q. is_parameter q.name.now ≡ true) result.now }
{
    equation(id).params
}

/// The name of an equation's parameter.
pub(crate) fn name_of(param: &Param) -> ParamName
    requires { is_parameter param.now.name.now ≡ true }
    ensures { result ≡ param.now.name.now }
{
    ParamName::new(param.name.as_bytes()).unwrap()
}
