ghost use Rattle.typed_model.specs.Laws.{ModelLaw, SidesLaw};

/// The typed model of a raw one is a flat model: what holds of each flat model holds of it. So clocks can be solved
/// and checked on it.
pub fn model_law()
    ensures { ModelLaw }
{}

/// Both sides of an equation between values have one type, whatever stands in their clocks.
pub fn sides_law()
    ensures { SidesLaw }
{}
