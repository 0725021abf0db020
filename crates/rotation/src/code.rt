// "Codes are 1 to 10 and 100 to 999; others are UNKNOWN BODY."
ghost use Rattle.std.specs.Prelude.{◌≡◌};
ghost use Rattle.rotation.specs.Codes.{system_of};

// The angle system of a body's code: the hundreds of the code, or the code itself up to 10.
#[tactic(auto, using(std::proofs::lemmas::Bool::Decides::nat_tests), unfolding(crate::specs::Codes::system_of))]
pub fn system_of(code: u32) -> Option<u32>
    ensures { result ≡ system_of code }
{
    match code {
        1..=10 => Some(code),
        100..=999 => Some(code / 100),
        _ => None,
    }
}
