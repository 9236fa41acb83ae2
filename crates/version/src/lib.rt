// The version of the library, by semantic versioning; no user calls this but by its C name.
#![tactic(auto)]

ghost use Rattle.std.specs.Prelude.{◌≡◌};
ghost use Rattle.version.specs.Version.{current, packed};

// Three numbers of at most a byte as one.
fn pack(major: u8, minor: u8, patch: u8) -> u32
    ensures { result ≡ packed major minor patch }
{
    65536 * (major as u32) + 256 * (minor as u32) + (patch as u32)
}

// The version of this library as one number.
pub fn number() -> u32
    ensures { result ≡ current }
{
    pack(1, 0, 0)
}
