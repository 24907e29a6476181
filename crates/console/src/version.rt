// The library's version, so that a program can hold the header that it was compiled with against what it is linked with.
ghost use Rattle.std.specs.Prelude.{◌≡◌};
ghost use Rattle.console.specs.Version.{version};

const MAJOR: u32 = 0;

const MINOR: u32 = 8;

const PATCH: u32 = 0;

#[unsafe(no_mangle)]
pub extern "C" fn iscc_version() -> u32
    ensures { result ≡ version }
{
    MAJOR * 65536 + MINOR * 256 + PATCH
}
