ghost use Rattle.whole_runs.specs.Whole.{WholeLaw};

/// A run of stretches that ends with no failure takes all uses and none of their equations fails.
pub fn whole_law()
    ensures { WholeLaw }
{}
