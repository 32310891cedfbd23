//! What holds of the table alone.

ghost use Rattle.ghg_equations.specs.Laws.{EachCodeNamesItself, EachExpressionTakesItsParameters};

/// Each code is the one that its text names: no code is missed, and none stands for two.
pub fn each_code_names_itself()
    ensures { EachCodeNamesItself }
{}

/// The expression of a row takes each of the row's parameters, and no other.
pub fn each_expression_takes_its_parameters()
    ensures { EachExpressionTakesItsParameters }
{}
