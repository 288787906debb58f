// The calls of `host` under the same names for C: each is that of `host`, by the same clauses. A library has no exports, and nothing can
// stand on an archive, so this is a crate of its own.
#![tactic(auto)]

ghost use Rattle.laws.specs.Outcome.{Does};
ghost use Rattle.host.specs.Calls.{code_bytes, decode_bytes, put_bytes, take_bytes};

// Codes 4n bytes of samples to n octets.
#[unsafe(no_mangle)]
pub extern "C" fn zelcandry_code(state: &mut [u8], samples: &[u8], octets: &mut [u8]) -> u64
    ensures { Does (code_bytes state.old samples.now octets.old) result
        (state.new, octets.new) }
{
    host::zelcandry_code(state, samples, octets)
}

// Decodes n octets to 4n bytes of samples, in a told mode.
#[unsafe(no_mangle)]
pub extern "C" fn zelcandry_decode(
    state: &mut [u8],
    mode: u8,
    octets: &[u8],
    samples: &mut [u8],
) -> u64
    ensures { Does (decode_bytes state.old mode octets.now samples.old) result
        (state.new, samples.new) }
{
    host::zelcandry_decode(state, mode, octets, samples)
}

// Puts data into octets.
#[unsafe(no_mangle)]
pub extern "C" fn zelcandry_put(mode: u8, octets: &mut [u8], bytes: &[u8]) -> u64
    ensures { Does (put_bytes mode octets.old bytes.now) result octets.new }
{
    host::zelcandry_put(mode, octets, bytes)
}

// Takes data out of octets.
#[unsafe(no_mangle)]
pub extern "C" fn zelcandry_take(mode: u8, octets: &[u8], bytes: &mut [u8]) -> u64
    ensures { Does (take_bytes mode octets.now bytes.old) result bytes.new }
{
    host::zelcandry_take(mode, octets, bytes)
}
