// "With n the code", and the system's code: the numbers that a variable's name can be spelled with.
ghost use Rattle.std.specs.Prelude.{◌≡◌, ◌≤◌, None, Some, MatchOption};
ghost use Rattle.rotation.specs.Codes.{system_of};
ghost use Rattle.wanted.specs.Names.{LARGEST};

use rotation::code::system_of;

// Whoever holds one has a number of three figures at most.
#[derive(Clone, Copy)]
pub struct Code {
    pub number: u32,
    pub ghost short: { number ≤ LARGEST },
}

// A body's own code, and that of its angle system.
#[derive(Clone, Copy)]
pub struct Body {
    pub code: Code,
    pub system: Code,
}

impl Body {
    // The body of a code, if the code has a system.
    pub fn of(code: u32) -> Option<Body>
        ensures { MatchOption result (system_of code ≡ None) (λ body. (body.code.number ≡ code) × (system_of code ≡ Some body.system.number)) }
    {
        let system = system_of(code)?;
        Some(Body {
            code: Code { number: code },
            system: Code { number: system },
        })
    }
}
