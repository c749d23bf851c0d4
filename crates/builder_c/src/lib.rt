// The static library: the builder's `build` under the name and with the types that C calls.
#![tactic(auto)]

ghost use Rattle.std.specs.Prelude.{◌≡◌, length};
ghost use Rattle.definitions.specs.Build as definition;
ghost use Rattle.definitions.specs.Build.{told, result_area};

use area::layout::HIGH;

// The number in the low 32 bits, 0 or a refusal's, and the bytes used in the high ones.
#[unsafe(no_mangle)]
pub extern "C" fn build(file: &[u8], root: &[u8], area: &mut [u8]) -> u64
    ensures { (result ≡ told (definition.build file.now root.now (length area.old)))
        × (area.new ≡ result_area (length area.old)
        (definition.build file.now root.now (length area.old))) }
{
    match builder::build::build(file, root, area) {
        Ok(used) => HIGH * used as u64,
        Err(refused) => refused.number() as u64,
    }
}
