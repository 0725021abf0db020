// Two lists of words compared.
ghost use Rattle.std.specs.Prelude.{◌≡◌};
ghost use Rattle.plain.specs.Lists.{equal};

// The words are the same: std's `==`, said by the word `equal` of the theorems on names.
pub fn same(a: &[u64], b: &[u64]) -> bool
    ensures { result ≡ equal a.now b.now }
{
    a == b
}
