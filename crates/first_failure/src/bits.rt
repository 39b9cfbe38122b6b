ghost use Rattle.std.specs.Prelude.{◌≡◌, length};
ghost use Rattle.part_stretches.specs.Running.{tick_in};
ghost use Rattle.first_failure.specs.Careful.{all_in, with_bit};

/// Whether the bit at a place is set; none is beyond the end.
pub fn is_set(bits: &[bool], place: u32) -> bool
    ensures { result ≡ tick_in bits.now place }
{
    match bits.get(place as usize) {
        Some(bit) => *bit,
        None => false,
    }
}

/// Whether the bits at all these places are set.
pub fn are_set(bits: &[bool], places: &[u32]) -> bool
    ensures { result ≡ all_in bits.now places.now }
{
    places.iter().all(|place| is_set(bits, *place))
}

/// Sets the bit at a place; nothing is done beyond the end.
pub fn set_bit(bits: &mut [bool], place: u32)
    ensures bits { bits.new ≡ with_bit bits.old place }
    ensures size { length bits.new ≡ length bits.old }
{
    let at = place as usize;
    if at < bits.len() {
        bits[at] = true;
    }
}
