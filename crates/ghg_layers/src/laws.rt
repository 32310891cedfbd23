//! Laws of nodes by layers.

ghost use Rattle.ghg_layers.specs.Layers.{LayersAreInTurn};

/// Nodes of a workbook by layers stand each behind those of its inputs that are among them.
pub fn layers_are_in_turn()
    ensures { LayersAreInTurn }
{}
