// What a search found of a variable, told without its values.
ghost use Rattle.std.specs.Prelude.{◌≡◌};
ghost use Rattle.wanted.specs.Steps.{is_there, is_mixed};

use variables::variable::FindError;

// The variable is there, of whatever kind and count.
pub fn is_there<T: Copy>(found: Result<T, FindError>) -> bool
    ensures { result ≡ is_there found }
{
    !matches!(found, Err(FindError::Absent))
}

// A string is in it.
pub fn is_mixed<T: Copy>(found: Result<T, FindError>) -> bool
    ensures { result ≡ is_mixed found }
{
    matches!(found, Err(FindError::Mixed))
}
