// The two steps of `host_steps` under the same names for C: each is that of `host_steps`, by the same clauses.
#![tactic(auto)]

ghost use Rattle.laws.specs.Outcome.{Does};
ghost use Rattle.host_steps.specs.Calls.{hear_bytes, join_bytes};

// The first step: n octets to 2n bytes of low and 2n of high signals, in a told mode.
#[unsafe(no_mangle)]
pub extern "C" fn zelcandry_hear(
    state: &mut [u8],
    mode: u8,
    octets: &[u8],
    low: &mut [u8],
    high: &mut [u8],
) -> u64
    ensures { Does (hear_bytes state.old mode octets.now low.old high.old) result
        (state.new, (low.new, high.new)) }
{
    host_steps::zelcandry_hear(state, mode, octets, low, high)
}

// The second step: 2n bytes of low and 2n of high signals to 4n bytes of samples.
#[unsafe(no_mangle)]
pub extern "C" fn zelcandry_join(
    state: &mut [u8],
    low: &[u8],
    high: &[u8],
    samples: &mut [u8],
) -> u64
    ensures { Does (join_bytes state.old low.now high.now samples.old) result
        (state.new, samples.new) }
{
    host_steps::zelcandry_join(state, low, high, samples)
}
