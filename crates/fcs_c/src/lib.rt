// The check sequence for C: the two functions of the crate fcs, under the names and with the arguments that jig/fcs.h declares. They stand in a
// crate of their own, with clauses of their own, since a crate is a library or a static library.
#![tactic(auto)]

ghost use Rattle.std.specs.Prelude.{◌≡◌, if◌then◌else◌};
ghost use Rattle.fcs.specs.Fcs.{byte_bits, check_sequence, matches};
ghost use Rattle.fcs.specs.Laws.{BurstLaw, ResidueLaw};

// The check sequence of a byte list. It is sent bit 0 first, so its low byte goes first.
// The clause `residue`: any bytes followed by their check sequence match.
#[unsafe(no_mangle)]
pub extern "C" fn fcs_check_sequence(bytes: &[u8]) -> u16
    ensures value { result ≡ check_sequence bytes.now }
    ensures residue { ResidueLaw }
{
    fcs::fcs_check_sequence(bytes)
}

// 1 if the byte list matches, its check sequence included, and 0 if not: to C the answer is a number.
// The clause `burst`: errors in at most sixteen neighbouring bits are always seen.
#[unsafe(no_mangle)]
pub extern "C" fn fcs_matches(bytes: &[u8]) -> u8
    ensures value { result ≡ (if matches (byte_bits bytes.now) then 1 else 0) }
    ensures burst { BurstLaw }
{
    u8::from(fcs::fcs_matches(bytes))
}
