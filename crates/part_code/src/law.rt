ghost use Rattle.part_code.specs.Uncoded.{SizeLaw};

/// Uses of typed equations that can be solved for their names have no code only where they are too large.
pub fn size_law()
    ensures { SizeLaw }
{}
