// Zeros behind an area's sections, however many.
ghost use Rattle.std.specs.Prelude.{◌≡◌};
ghost use Rattle.definitions.specs.Layout.{zeros};

// Whether every byte is 0: the library's `all`, in the definitions' words.
pub fn all_zeros(bytes: &[u8]) -> bool
    ensures { result ≡ zeros bytes.now }
{
    bytes.iter().all(|b| *b == 0)
}
