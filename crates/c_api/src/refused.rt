// The lowest refusal of a plan as a C function, for the Rust side.
ghost use Rattle.std.specs.Prelude.{◌≡◌};
ghost use Rattle.plan.specs.Refusal.{refusal};

// A `&[u8]` passes as a pointer and a length. A number, since C has no Option of an enum; 0: the plan is accepted.
#[unsafe(no_mangle)]
pub extern "C" fn rizhavel_refusal(plan: &[u8]) -> u32
    ensures { result ≡ refusal plan.now }
{
    refusals::refused(plan).map_or(0, u32::from)
}
