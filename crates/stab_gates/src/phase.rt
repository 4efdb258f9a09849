/// A power of i, as products of Pauli strings have it: 1, i, -1 or -i.
#[derive(Clone, Copy, Debug, PartialEq, Eq)]
pub enum Phase {
    /// 1.
    Zero,
    /// i.
    Quarter,
    /// -1.
    Half,
    /// -i.
    ThreeQuarters,
}

impl Phase {
    ghost use Rattle.std.specs.Prelude.{◌≡◌};
    ghost use Rattle.stab_gates.specs.Phases.{phase_add, phase_of_sign, sign_of_phase, quarters, phase_inverse};
    ghost use Rattle.stab_gates.specs.declared.phase.Phase.TheVariants.{Quarter};

    /// The power of i of a sign, true for -.
    #[inline(always)]
    pub fn of_sign(negative: bool) -> Phase
        ensures value { result ≡ phase_of_sign negative }
    {
        if negative { Phase::Half } else { Phase::Zero }
    }

    /// The product with i.
    #[inline(always)]
    pub fn times_i(self) -> Phase
        ensures value { result ≡ phase_add Quarter self }
    {
        match self {
            Phase::Zero => Phase::Quarter,
            Phase::Quarter => Phase::Half,
            Phase::Half => Phase::ThreeQuarters,
            Phase::ThreeQuarters => Phase::Zero,
        }
    }

    /// The product of two powers of i.
    #[inline(always)]
    pub fn times(self, other: Phase) -> Phase
        ensures value { result ≡ phase_add self other }
    {
        match (self as u8 + other as u8) % 4 {
            0 => Phase::Zero,
            1 => Phase::Quarter,
            2 => Phase::Half,
            _ => Phase::ThreeQuarters,
        }
    }

    /// The power whose product with this one is 1.
    #[inline(always)]
    pub fn inverse(self) -> Phase
        ensures value { result ≡ phase_inverse self }
    {
        match self {
            Phase::Zero => Phase::Zero,
            Phase::Quarter => Phase::ThreeQuarters,
            Phase::Half => Phase::Half,
            Phase::ThreeQuarters => Phase::Quarter,
        }
    }

    /// The product of this many factors i.
    #[inline(always)]
    pub fn of_count(count: u32) -> Phase
        ensures value { result ≡ quarters count }
    {
        match count % 4 {
            0 => Phase::Zero,
            1 => Phase::Quarter,
            2 => Phase::Half,
            _ => Phase::ThreeQuarters,
        }
    }

    /// The sign of an even power, true for -; for an odd power it is that of the power before.
    #[inline(always)]
    pub fn sign(self) -> bool
        ensures value { result ≡ sign_of_phase self }
    {
        self == Phase::Half || self == Phase::ThreeQuarters
    }
}
