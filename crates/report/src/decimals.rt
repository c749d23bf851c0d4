// A decimal and the byte behind it, at a place.
ghost use Rattle.std.specs.Prelude.{◌≡◌, ◌+◌, ◌≤◌, length};
ghost use Rattle.ast.specs.Bytes.{put};
ghost use Rattle.report.specs.Decimals.{most_digits};
ghost use Rattle.report.specs.Lines.{field};

// Writes a number's decimal with a byte behind it, and gives the place behind that.
// By `io::decimal` and not by Display: the bytes stand in the contract.
pub fn put_field(out: &mut [u8], at: usize, n: u64, behind: u8) -> usize
    requires { at + (most_digits + 1) ≤ length out.old }
    ensures { (result ≡ at + length (field n behind))
        × (result ≤ at + (most_digits + 1))
        × (out.new ≡ put out.old at (field n behind)) }
{
    let mut digits = [0u8; 20];
    let k = io::decimal(n, &mut digits);
    out[at..at + k].copy_from_slice(&digits[..k]);
    out[at + k] = behind;
    at + k + 1
}
