//! Sets of processors as bits.
ghost use Rattle.std.specs.Prelude.{◌≡◌, ℕ, ◌<◌, ◌≤◌, cond, nat_eq, MatchOption};
ghost use Rattle.std.specs.Int.{bit_at};
ghost use Rattle.tlb_core.specs.Steps.{IsAll};

/// The bits of so many processors.
pub(crate) fn all_cpus(cpus: u8) -> u8
    requires { cpus ≤ 8 }
    ensures { IsAll cpus result }
{
    ((1u16 << cpus) - 1) as u8
}

/// The mask with the processor's bit at 0.
pub(crate) fn without(mask: u8, cpu: u8) -> u8
    requires { cpu < 8 }
    ensures { (other : ℕ) → bit_at result other ≡ cond (nat_eq other cpu) 0 (bit_at mask other) }
{
    mask & !(1 << cpu)
}

/// The least processor whose bit is 1.
pub(crate) fn least_cpu(mask: u8) -> Option<u8>
    ensures { MatchOption result ((cpu : ℕ) → bit_at mask cpu ≡ 0)
        (λ least. (bit_at mask least ≡ 1) × ((cpu : ℕ) → cpu < least → bit_at mask cpu ≡ 0)) }
{
    if mask == 0 {
        return None;
    }
    Some(mask.trailing_zeros() as u8)
}
