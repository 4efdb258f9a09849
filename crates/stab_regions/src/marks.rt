ghost use Rattle.std.specs.Prelude.{◌≡◌, ℕ, Bool, false, not, ◌<◌, ◌||◌, nat_eq, length, slice_index_or};
ghost use Rattle.stab_parities.specs.Ascending.{IsAscending};
ghost use Rattle.stab_parities.specs.OddNumbers.{odd};

/// Makes a bit 1; a number past the end has none.
fn set_at(bits: &mut [bool], site: usize)
    ensures same_length { length bits.new ≡ length bits.old }
    ensures value { (i : ℕ) → i < length bits.old → slice_index_or bits.new i false ≡ (nat_eq site i || slice_index_or bits.old i false) }
{
    if site < bits.len() {
        bits[site] = true;
    }
}

/// Makes the bits of these numbers 1; a number past the end has none.
pub fn mark(bits: &mut [bool], numbers: &[u32])
    requires ascending { IsAscending numbers.now }
    ensures same_length { length bits.new ≡ length bits.old }
    ensures value { (i : ℕ) → i < length bits.old → slice_index_or bits.new i false ≡ (odd i numbers.now || slice_index_or bits.old i false) }
{
    for number in numbers {
        set_at(bits, *number as usize);
    }
}

/// Makes each bit the other one.
pub fn invert(bits: &mut [bool])
    ensures same_length { length bits.new ≡ length bits.old }
    ensures value { (i : ℕ) → i < length bits.old → slice_index_or bits.new i false ≡ not (slice_index_or bits.old i false) }
{
    for site in 0..bits.len() {
        bits[site] = !bits[site];
    }
}
